//! Ids that go with a commit, in ascending order.
ghost use Rattle.std.specs.Prelude.{◌≡◌, false, IfOk};
ghost use Rattle.std.specs.List.{list_any};
ghost use Rattle.std.specs.List.Sorted.{IsPermutation};
ghost use Rattle.dw_slice.specs.Slices.{is_among};
ghost use Rattle.dw_slice.specs.Marks.{is_within};

use std::alloc::{AllocError, Global};
use std::marker::Model;

/// Ids in ascending order, found by bisection. Contracts see the list.
#[derive(Drop)]
pub struct SortedIds {
    items: Vec<u64>,
}

impl Model for SortedIds {
    ghost use Rattle.std.specs.Prelude.{ℕ, List};
    ghost use Rattle.std.specs.List.Sorted.{IsNonDecreasing};

    ghost Value = { List ℕ };

    ghost view = { λ ids. ids.items.items };

    ghost invariant = { λ ids. IsNonDecreasing ids.items.items };
}

impl SortedIds {
    /// The ids, sorted, on memory of `alloc`.
    pub fn of(alloc: Global, ids: &[u64]) -> Result<SortedIds, AllocError>
        ensures { IfOk result (λ sorted. IsPermutation ids.now sorted) }
    {
        let mut items = Vec::from_slice(alloc, ids)?;
        items.sort_unstable();
        Ok(SortedIds { items })
    }

    /// Whether an id is one of these.
    pub fn has(&self, id: u64) -> bool
        ensures { result ≡ is_among self.now id }
    {
        self.items.as_slice().binary_search(&id).is_ok()
    }

    /// Whether an id may be within the bounds; where the answer is no, none is.
    pub fn may_meet(&self, least: u64, greatest: u64) -> bool
        ensures { result ≡ false → list_any (is_within least greatest) self.now ≡ false }
    {
        match self.items.as_slice().binary_search(&least) {
            Ok(_) => true,
            Err(place) if place < self.items.len() => self.items[place] <= greatest,
            Err(_) => false,
        }
    }
}
