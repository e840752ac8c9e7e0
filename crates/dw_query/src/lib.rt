//! Statements on rows, once they are bound: WHERE, items, and what is put into a table.
//!
//! A stage is evaluated on all its rows before the next, and of its faults the least is told. What each stage comes to
//! stands in specs/Stages.antt, and the rows that a table takes in specs/Filling.antt.
#![tactic(auto)]

mod filling;
mod queries;
mod stages;
mod under_way;

pub use filling::{Target, inserted_rows, rows_after};
pub use queries::{Assignment, BoundChange, BoundQuery, BoundTuples, Item, Query, Source};
pub use stages::{item_rows, kept_rows, selected_rows, tuple_rows};

#[cfg(test)]
mod tests;
