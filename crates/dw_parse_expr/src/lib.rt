//! Expressions, as tokens read.
//!
//! The grammar is one relation over spans of tokens, in specs/Grammar.antt, and the reading a total function beside it,
//! in specs/Reading.antt; `laws` says that the two agree. What a token is to the grammar stands in specs/Marks.antt. The
//! parser `expression_at` answers what the tokens from a place on read as.
#![tactic(auto)]

pub mod laws;
mod lookup;
mod marks;
mod nodes;
mod parser;
mod tails;

pub use marks::{Mark, Operator};
pub use parser::expression_at;

#[cfg(test)]
mod tests;
