//! The machine that many sessions run on: it holds their scripts, the certifier, the table of locks and the journal in
//! the making. Each call appends the one event that it names, or none.
#![tactic(auto)]

mod cores;
mod decisions;
mod grants;
mod sessions;
mod sets;
mod transactions;
mod waits;

pub use cores::{Core, Next};
pub use decisions::Committed;

#[cfg(test)]
mod tests;
