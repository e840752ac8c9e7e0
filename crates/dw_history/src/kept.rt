//! The kept value and its passes.
ghost use Rattle.std.specs.Prelude.{◌≡◌, ◌<◌, ◌^◌};
ghost use Rattle.dw_history.specs.Views.{IsIdle};

use crate::grown::Grown;
use crate::rule::OneHistory;
use crate::views::View;
use atomic_table::{Seat, Table};
use std::alloc::Global;
use std::snapshot::Snapshot;

/// The word of the ticket that is served.
pub(crate) const SERVING: usize = 0;

/// The word of the next ticket.
pub(crate) const TICKET: usize = 1;

/// The slot of the value, which has None while an act works on it.
pub(crate) const VALUE: usize = 0;

/// A value that threads change one after another, each by a pass. Threads share it by reference, where the value may
/// move between threads.
#[derive(Drop)]
pub struct Kept<V: Grown> {
    pub(crate) table: Table<Option<V>, View<V::Entry, V::Ground>, Snapshot<V>, OneHistory, Global>,
    pub(crate) passes: u32,
    ghost few: { passes < 2 ^ 32 },
    ghost sized: { (table.shared.table_id.words ≡ 2) × (table.shared.table_id.slots ≡ 1) },
}

/// The right to take turns under one number, and what it knows of the history. It has no bytes, and may move to
/// another thread. A pass that is dropped can't be joined, so the value can't be had back by `close` after that.
#[derive(Drop)]
pub struct Pass<V: Grown> {
    pub(crate) seat: Seat<Option<V>, View<V::Entry, V::Ground>>,
    ghost rests: { IsIdle seat },
}
