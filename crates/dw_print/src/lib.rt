//! The report of a journal as text.
//!
//! `specs/` says what the text is, line by line, as a function of a journal beside its scripts.
#![tactic(auto)]

mod answers;
mod checked;
mod events;
mod fields;
mod laws;
mod report;
mod rows;
mod tables;

pub use checked::checked_text;
pub use laws::{fields_read_back, shown_fields_are_apart};
pub use report::report_text;

#[cfg(test)]
mod tests;
