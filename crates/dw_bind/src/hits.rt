//! How many columns a name may mean.
ghost use Rattle.std.specs.Prelude.{◌≡◌};
ghost use Rattle.dw_bind.specs.Hits.{joined_hits, found_in};

use dw_value::Kind;

/// A column of a joined row.
#[derive(Clone, Copy, Debug, PartialEq, Eq, Drop)]
pub(crate) struct Found {
    /// The number of its source, from 0.
    pub(crate) source: usize,
    /// Its place in the row, from 0; the greatest number where it has no 64 bits.
    pub(crate) place: u64,
    /// What it takes.
    pub(crate) kind: Kind,
}

/// The columns that a name may mean, as far as it matters.
#[derive(Clone, Copy, Debug, PartialEq, Eq, Drop)]
pub(crate) enum Hits {
    /// There is none.
    Nothing,
    /// There is one.
    One(Found),
    /// There are more.
    Several,
}

/// The columns of two parts of a row together.
pub(crate) fn joined_hits(a: Hits, b: Hits) -> Hits
    ensures { result ≡ joined_hits a b }
{
    match (a, b) {
        (Hits::Nothing, _) => b,
        (_, Hits::Nothing) => a,
        (_, _) => Hits::Several,
    }
}

/// The column, where there is just one.
pub(crate) fn found_in(hits: Hits) -> Option<Found>
    ensures { result ≡ found_in hits }
{
    match hits {
        Hits::One(one) => Some(one),
        Hits::Nothing | Hits::Several => None,
    }
}
