//! The different items of a dictionary, in the order of their first appearance.

ghost use Rattle.std.specs.Prelude.{◌≡◌, ◌<◌, ◌++◌, [], ◌∷◌, ℕ, List, length, map, false, true, IsTrue, IfOk, OnOk, IfSome, IfNone, slice_index_or, All, ◌↔◌};
ghost use Rattle.dw_codec_runs.specs.Dictionary.{is_known, met, place_among};

use indexmap::IndexSet;
use std::alloc::{AllocError, Global};
use std::marker::Model;

// Items that are known, each with its place, and found by their bytes. Contracts see the list of them.
#[derive(Drop)]
pub(crate) struct Known {
    items: IndexSet<Vec<u8>>,
}

impl Model for Known {
    ghost Value = { List (List ℕ) };

    ghost view = { λ known. map (λ item. item.items) known.items.keys };
}

impl Known {
    // None.
    pub(crate) fn new(alloc: Global) -> Self
        ensures { result ≡ [] }
    {
        Known {
            items: IndexSet::new(alloc),
        }
    }

    // How many are known.
    pub(crate) fn len(&self) -> usize
        ensures { result ≡ length self.now }
    {
        self.items.len()
    }

    // Whether an item is known.
    pub(crate) fn contains(&self, item: &[u8]) -> bool
        ensures { result ≡ is_known self.now item.now }
    {
        self.items.contains(item)
    }

    // The item at a place.
    pub(crate) fn get(&self, place: usize) -> &[u8]
        requires { place < length self.now }
        ensures { result.now ≡ slice_index_or self.now place [] }
    {
        self.items.as_slice()[place].as_slice()
    }

    // Adds an item behind the others where it isn't known, and gives its place.
    pub(crate) fn meet(&mut self, alloc: Global, item: &[u8]) -> Result<usize, AllocError>
        ensures known { OnOk result (self.new ≡ met self.old item.now) }
        ensures place { IfOk result (λ place. place ≡ place_among self.new item.now) }
        ensures within { IfOk result (λ place. place < length self.new) }
    {
        if let Some(place) = self.items.get_index_of(item) {
            return Ok(place);
        }
        let (place, _) = self.items.insert_full(Vec::from_slice(alloc, item)?)?;
        Ok(place)
    }

    // Whether each begins so.
    pub(crate) fn all_begin(&self, front: &[u8]) -> bool
        ensures { IsTrue result ↔ All (λ item. (rest : List ℕ) × (item ≡ front.now ++ rest)) self.now }
    {
        for place in 0..self.len() {
            if !self.get(place).starts_with(front) {
                return false;
            }
        }
        true
    }
}
