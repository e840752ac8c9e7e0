//! Marks of entries: their ids, and the stamps at which they came and went.
ghost use Rattle.std.specs.Prelude.{◌≡◌, ◌≤◌, All, map, IfOk, MatchOption, IsTrue, true, false};
ghost use Rattle.std.specs.List.{list_any};
ghost use Rattle.dw_slice.specs.Marks.{mark_goes, marked_mark, HasIdWithin};

use crate::ids::SortedIds;
use std::alloc::{AllocError, Global};
use std::marker::Model;

/// What an entry has beside its row.
#[derive(Debug, Clone, Copy, Drop)]
pub struct Mark {
    pub id: u64,
    pub inserted: u64,
    pub deleted: Option<u64>,
    pub sorted: bool,
}

/// The marks of some entries, with bounds of their ids. Contracts see the list of the marks.
#[derive(Drop)]
pub struct Marks {
    items: Vec<Mark>,
    least: u64,
    greatest: u64,
}

impl Model for Marks {
    ghost use Rattle.std.specs.Prelude.{List, All};
    ghost use Rattle.dw_slice.specs.declared.marks.Mark.{Mark as Item};
    ghost use Rattle.dw_slice.specs.Marks.{HasIdWithin};

    ghost Value = { List Item };

    ghost view = { λ marks. marks.items.items };

    ghost invariant = { λ marks. All (HasIdWithin marks.least marks.greatest) marks.items.items };
}

fn lesser(one: u64, other: u64) -> u64
    ensures one { result ≤ one }
    ensures other { result ≤ other }
{
    if one < other { one } else { other }
}

fn greater(one: u64, other: u64) -> u64
    ensures one { one ≤ result }
    ensures other { other ≤ result }
{
    if one < other { other } else { one }
}

/// Bounds of the ids, from below and from above.
fn bounds(marks: &[Mark]) -> (u64, u64)
    ensures { All (HasIdWithin result.0 result.1) marks.now }
{
    let mut least = u64::MAX;
    let mut greatest = 0;
    for mark in marks {
        least = lesser(least, mark.id);
        greatest = greater(greatest, mark.id);
    }
    (least, greatest)
}

/// Whether a mark without a deletion has one of the ids that go.
fn any_goes(gone: &SortedIds, marks: &[Mark]) -> bool
    ensures { result ≡ list_any (mark_goes gone.now) marks.now }
{
    marks
        .iter()
        .any(|mark| mark.deleted.is_none() && gone.has(mark.id))
}

/// The mark with a deletion at the stamp, where it has none and its id goes; any other one as it is.
fn marked_mark(stamp: u64, gone: &SortedIds, mark: Mark) -> Mark
    ensures { result ≡ marked_mark stamp gone.now mark }
{
    if mark.deleted.is_none() && gone.has(mark.id) {
        Mark {
            deleted: Some(stamp),
            ..mark
        }
    } else {
        mark
    }
}

impl Marks {
    /// These marks.
    pub fn of(items: Vec<Mark>) -> Marks
        ensures { result ≡ items.items }
    {
        let (least, greatest) = bounds(items.as_slice());
        Marks {
            items,
            least,
            greatest,
        }
    }

    /// All marks, in order.
    pub fn as_slice(&self) -> &[Mark]
        ensures { result.now ≡ self.now }
    {
        self.items.as_slice()
    }

    /// Whether the bounds tell that none of the ids stands here.
    fn is_clear_of(&self, gone: &SortedIds) -> bool
        ensures { result ≡ true → list_any (mark_goes gone.now) self.now ≡ false }
    {
        !gone.may_meet(self.least, self.greatest)
    }

    /// The marks with the deletions of the ids that go. `None` comes where no mark has one that it hadn't before; then
    /// no memory is taken, and no mark is read where the bounds tell it.
    pub fn marked(
        &self,
        alloc: Global,
        stamp: u64,
        gone: &SortedIds,
    ) -> Result<Option<Marks>, AllocError>
        ensures { IfOk result (λ found. MatchOption found
            (list_any (mark_goes gone.now) self.now ≡ false)
            (λ marks. (list_any (mark_goes gone.now) self.now ≡ true)
            × (marks ≡ map (marked_mark stamp gone.now) self.now))) }
    {
        if self.is_clear_of(gone) || !any_goes(gone, self.items.as_slice()) {
            return Ok(None);
        }
        let mut items = Vec::with_capacity(alloc, self.items.len())?;
        for item in &self.items {
            items.push(marked_mark(stamp, gone, *item))?;
        }
        Ok(Some(Marks::of(items)))
    }
}
