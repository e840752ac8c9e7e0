//! Slices of tables: the entries of one table that lie on one slice of a warehouse, kept column by column in blocks of
//! 4,096, each entry with the stamps at which it came and went. A slice never changes: a commit makes a new one, which
//! shares with it what stays.
#![tactic(auto)]

mod chunks;
mod grid;
mod ids;
mod laws;
mod marks;
mod packed;
mod slices;
mod steps;

pub use laws::snapshots_see_whole_commits;
pub use packed::Storage;
pub use slices::{Entry, Fresh, Slice};
pub use steps::Steps;

#[cfg(test)]
mod tests;
