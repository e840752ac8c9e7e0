//! The journal of a report, read back from its text.
//!
//! `specs/` says how each line is read, and which journals can be read back: those whose lines, as dw_print defines them,
//! are read as what they were printed from.
#![tactic(auto)]

mod faults;
mod laws;
mod read_events;
mod read_fields;
mod read_parts;
mod read_refusals;
mod reading;

pub use faults::ReportFault;
pub use laws::{
    legal_answers_have_words, one_reading, printed_reports_are_read, read_parts_are_printed,
};
pub use reading::{ReadReport, read_report};

#[cfg(test)]
mod reading_tests;
