//! The table of locks: who holds which locks of tables, who waits for whom, and the cycle that a wait would close.
#![tactic(auto)]

mod blockers;
mod cycles;
mod entries;
mod laws;
mod locks;
mod wanted;

pub use dw_journal::{Mode, Want};
pub use laws::{
    deadlocks_are_shortest_cycles, grant_adds_what_is_asked, table_answers_as_events_do,
    tables_go_on_standing, withdrawals_leave_no_trace,
};
pub use locks::{Asked, Locks};
pub use wanted::wants;

#[cfg(test)]
mod tests;
