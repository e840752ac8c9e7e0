//! A statement run alone on a database, in the slow plain form: the database is copied, and each stage is a loop over
//! whole lists. Every other way to run a statement answers as this one does.
#![tactic(auto)]

mod bind;
mod columns;
mod create;
mod insert;
mod literals;
mod names;
mod run;
mod select;

pub use bind::bound_refusal;
pub use run::{plain_outcome, plain_run};

#[cfg(test)]
mod tests;
