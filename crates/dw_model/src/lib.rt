//! What statements are, what they do to tables, and what they answer.
//!
//! The types are plain data. `specs/` holds the definitions that all of the warehouse is measured by: what a statement
//! run alone on a database answers and leaves, and which objects it reads and writes.
#![tactic(auto)]

mod answers;
mod changes;
mod databases;
mod files;
mod laws;
mod limits;
mod objects;
mod refusals;
mod statements;
mod tables;

pub use answers::{Answer, Plain, Word};
pub use changes::{Change, Outcome};
pub use databases::{Database, Entry};
pub use files::FileMap;
pub use laws::{next_applies_the_change, rows_stay_ascending, statements_have_a_frame};
pub use limits::{MAX_ROWS, limit_refusal};
pub use objects::{Object, add_objects};
pub use refusals::Refusal;
pub use statements::{ColumnSpec, Literal, Query, Statement, StyleWord, TableSpec, Test};
pub use tables::{Column, Table, TableDef};

#[cfg(test)]
mod tests;
