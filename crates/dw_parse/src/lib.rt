//! The statement that the tokens of a text stand for.
//!
//! The grammar is this project's profile of the SQL of the Amazon Redshift guide: CREATE TABLE with options, constraints
//! and attributes, DROP TABLE, LOCK of tables, INSERT of tuples of literals, SELECT of columns of one table with at most
//! one comparison, and the statements that begin and end a block: BEGIN, START TRANSACTION, COMMIT, END, ROLLBACK and
//! ABORT.
#![tactic(auto)]

mod attributes;
mod block;
mod columns;
mod create;
mod fault;
mod insert;
mod laws;
mod lock;
mod options;
mod parser;
mod parts;
mod select;
mod tables;

pub use fault::ParseFault;
pub use laws::{
    at_most_one_statement_is_derived, derived_statements_are_read, read_statements_are_derived,
};
pub use parser::parse;

#[cfg(test)]
mod tests;
