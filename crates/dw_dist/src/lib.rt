//! The slices of a row: how the rows of a table are shared out over the slices of a warehouse.
#![tactic(auto)]

mod keys;
mod places;

pub use places::{Places, place};

#[cfg(test)]
mod tests;
