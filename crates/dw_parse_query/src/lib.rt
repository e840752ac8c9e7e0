//! Queries, the tuples of an INSERT and changes, as tokens read: what stands after the words SELECT, VALUES and SET,
//! over expressions.
//!
//! The rules are this project's profile of the SQL of the Amazon Redshift guide. The grammar stands in
//! specs/Grammar.antt and the reading beside it in specs/Reading.antt; `laws` says that the two agree. No statement
//! reads these parts yet.
#![tactic(auto)]

mod changes;
mod conditions;
mod items;
pub mod laws;
mod lists;
mod queries;
mod sources;
mod tuples;

pub use changes::change_at;
pub use conditions::condition_at;
pub use queries::query_at;
pub use tuples::tuples_at;

#[cfg(test)]
mod tests;
