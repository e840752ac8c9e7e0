//! Columns by their names, which are looked up by a hash.
ghost use Rattle.std.specs.Prelude.{◌≡◌, ℕ, List, Some, None, IfOk, OnOk, if◌then◌else◌};
ghost use Rattle.dw_expr.specs.Sight.{Reference, same_name, columns_from, row_columns};
ghost use Rattle.dw_bind.specs.declared.hits.Hits.TheVariants.{Nothing, One};
ghost use Rattle.dw_bind.specs.Hits.{joined_hits, hits};
ghost use Rattle.dw_bind.specs.Names.{named, named_of, without, held, IsTableOf};
ghost use Rattle.indexmap.specs.IndexMap.{get_by_text};

use crate::hits::{Found, Hits, joined_hits};
use dw_expr::NamedSource;
use dw_value::Text;
use indexmap::IndexMap;
use std::alloc::{AllocError, Global};

/// What names mean: of all columns, and after the names of sources.
#[derive(Debug, Drop)]
pub(crate) struct NameTable {
    /// What each name means of the columns of all sources.
    every: IndexMap<String, Hits>,
    /// What each name means of the columns of the sources of each alias.
    of_each: IndexMap<String, IndexMap<String, Hits>>,
}

/// What a name means.
fn named(names: &IndexMap<String, Hits>, name: &Text) -> Hits
    ensures { result ≡ named names.now name.now }
{
    match names.get(name.as_str()) {
        Some(hits) => *hits,
        None => Hits::Nothing,
    }
}

/// What a name means after an alias.
fn named_after(
    of_each: &IndexMap<String, IndexMap<String, Hits>>,
    alias: &Text,
    name: &Text,
) -> Hits
    ensures { result ≡ named_of (get_by_text of_each.now alias.now) name.now }
{
    match of_each.get(alias.as_str()) {
        Some(names) => named(names, name),
        None => Hits::Nothing,
    }
}

/// Counts a column among those of its name.
fn note(
    alloc: Global,
    names: &mut IndexMap<String, Hits>,
    name: &Text,
    found: Found,
) -> Result<(), AllocError>
    ensures { OnOk result ((asked : List ℕ) → named names.new asked
        ≡ joined_hits (named names.old asked) (if same_name asked name.now then One found else Nothing)) }
{
    let hits = joined_hits(named(names, name), Hits::One(found));
    let name = String::from_str(alloc, name.as_str())?;
    names.insert(name, hits)?;
    Ok(())
}

/// Counts the columns of a source of this number, of which the first has this place in the row.
fn note_columns(
    alloc: Global,
    names: &mut IndexMap<String, Hits>,
    from: &NamedSource,
    number: usize,
    first: u64,
) -> Result<(), AllocError>
    ensures { OnOk result ((asked : List ℕ) → named names.new asked
        ≡ joined_hits (named names.old asked)
        (hits (record { source = None; name = asked })
        (columns_from number from.now.alias first from.now.columns))) }
{
    let columns = from.columns.as_slice();
    let mut place = first;
    for column in columns {
        let found = Found {
            source: number,
            place,
            kind: column.kind,
        };
        note(alloc, names, &column.name, found)?;
        place = place.saturating_add(1);
    }
    Ok(())
}

/// Takes out what names mean of the columns of the sources of an alias.
fn taken(
    alloc: Global,
    of_each: &mut IndexMap<String, IndexMap<String, Hits>>,
    alias: &Text,
) -> IndexMap<String, Hits>
    ensures names { (asked : List ℕ) → named result asked ≡ named_of (get_by_text of_each.old alias.now) asked }
    ensures rest { (other : List ℕ) →
        get_by_text of_each.new other ≡ without alias.now other (get_by_text of_each.old other) }
{
    match of_each.swap_remove(alias.as_str()) {
        Some(names) => names,
        None => IndexMap::new(alloc),
    }
}

/// Counts the columns of a source of this number among those of its alias; the first has this place in the row.
fn note_after_alias(
    alloc: Global,
    of_each: &mut IndexMap<String, IndexMap<String, Hits>>,
    from: &NamedSource,
    number: usize,
    first: u64,
) -> Result<(), AllocError>
    ensures { OnOk result ((alias asked : List ℕ) → named_of (get_by_text of_each.new alias) asked
        ≡ joined_hits (named_of (get_by_text of_each.old alias) asked)
        (hits (record { source = Some alias; name = asked })
        (columns_from number from.now.alias first from.now.columns))) }
{
    let mut names = taken(alloc, of_each, &from.alias);
    note_columns(alloc, &mut names, from, number, first)?;
    let alias = String::from_str(alloc, from.alias.as_str())?;
    of_each.insert(alias, names)?;
    Ok(())
}

impl NameTable {
    /// The names of no column.
    fn empty(alloc: Global) -> NameTable
        ensures { (reference : Reference) → held result reference ≡ Nothing }
    {
        let every = IndexMap::new(alloc);
        let of_each = IndexMap::new(alloc);
        NameTable { every, of_each }
    }

    /// Counts the columns of a source of this number, of which the first has this place in the row.
    fn note_source(
        &mut self,
        alloc: Global,
        from: &NamedSource,
        number: usize,
        first: u64,
    ) -> Result<(), AllocError>
        ensures { OnOk result ((reference : Reference) → held self.new reference
            ≡ joined_hits (held self.old reference)
            (hits reference (columns_from number from.now.alias first from.now.columns))) }
    {
        note_columns(alloc, &mut self.every, from, number, first)?;
        note_after_alias(alloc, &mut self.of_each, from, number, first)?;
        Ok(())
    }

    /// The names of the columns of sources, from left to right.
    pub(crate) fn new(alloc: Global, sources: &[NamedSource]) -> Result<NameTable, AllocError>
        ensures { IfOk result (λ table. IsTableOf table (row_columns sources.now)) }
    {
        let mut table = NameTable::empty(alloc);
        let mut place: u64 = 0;
        let mut number = 0;
        for from in sources {
            table.note_source(alloc, from, number, place)?;
            place = place.saturating_add(from.columns.len() as u64);
            number += 1;
        }
        Ok(table)
    }

    /// What a name means, after its source's name where that is written.
    pub(crate) fn hits(&self, source: &Option<Text>, name: &Text) -> Hits
        ensures { result ≡ held self.now (record { source = source.now; name = name.now }) }
    {
        match source {
            None => named(&self.every, name),
            Some(alias) => named_after(&self.of_each, alias, name),
        }
    }
}
