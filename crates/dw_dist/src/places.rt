//! The slices of a row, in a place of fixed size.
ghost use Rattle.std.specs.Prelude.{◌≡◌, ◌≤◌, ◌*◌, [], ◌∷◌, map};
ghost use Rattle.std.specs.List.{range_with_len};
ghost use Rattle.dw_dist.specs.Placing.{slices_of};

use crate::keys::key_slice;
use dw_value::{Style, Value};
use std::marker::Model;

/// The most slices that a row may lie on: the first one of each of at most 16 nodes. The limit is this project's own.
const MAX_PLACES: usize = 16;

/// The slices of a row, in ascending order, at most 16. Contracts see the list of their numbers.
#[derive(Debug, Drop)]
pub struct Places {
    count: usize,
    slices: [u32; MAX_PLACES],
}

impl Model for Places {
    ghost use Rattle.std.specs.Prelude.{ℕ, ◌≤◌, take, List};

    ghost Value = { List ℕ };

    ghost view = { λ places. take places.count places.slices };

    ghost invariant = { λ places. places.count ≤ 16 };
}

impl Places {
    /// One slice.
    fn one(slice: u32) -> Places
        ensures { result ≡ slice ∷ [] }
    {
        let mut slices = [0; MAX_PLACES];
        slices[0] = slice;
        Places { count: 1, slices }
    }

    /// The first slice of each node.
    fn first_of_each(nodes: u32, slices: u32) -> Places
        requires nodes { nodes ≤ 16 }
        requires slices { slices ≤ 16 }
        ensures { result ≡ map (λ node. node * slices) (range_with_len 0 nodes) }
    {
        let mut firsts = [0; MAX_PLACES];
        for node in 0..nodes {
            firsts[node as usize] = node * slices;
        }
        Places {
            count: nodes as usize,
            slices: firsts,
        }
    }

    /// The numbers of the slices, in ascending order.
    pub fn as_slice(&self) -> &[u32]
        ensures { result.now ≡ self.now }
    {
        &self.slices[..self.count]
    }
}

/// The slices that a row lies on, by the distribution style of its table: EVEN by its id, KEY by the value `key` of the key's
/// column, ALL on the first slice of each node. Slices are numbered from 0, those of the first node first; `slices` is their
/// number on each node. There are 1 to 16 nodes, and 1 to 16 slices on each. It takes no memory.
pub fn place(style: &Style, key: &Value, id: u64, nodes: u32, slices: u32) -> Places
    requires nodes { (1 ≤ nodes) × (nodes ≤ 16) }
    requires slices { (1 ≤ slices) × (slices ≤ 16) }
    ensures { result ≡ slices_of style.now key.now id nodes slices }
{
    match style {
        Style::Even => Places::one((id % u64::from(nodes * slices)) as u32),
        Style::Key { .. } => Places::one(key_slice(key, nodes * slices)),
        Style::All => Places::first_of_each(nodes, slices),
    }
}
