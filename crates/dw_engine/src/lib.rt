//! What scripts are run on: an engine does one step of a session at a time.
//!
//! Every step appends one event to the journal, or none where the session's script is at its end.
#![tactic(auto)]

mod answer;
mod blocks;
mod commit;
mod demands;
mod engines;
mod opening;
mod steps;

pub use dw_core::Next;
pub use engines::{Engine, Ran};

#[cfg(test)]
mod tests;
