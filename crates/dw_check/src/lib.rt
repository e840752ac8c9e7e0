//! The call that judges a printed report: `top_check` is the whole program `warecheck` over any files and any sink.
#![tactic(auto)]

mod check;
mod ends;
mod laws;

pub use check::top_check;
pub use laws::{read_scripts_have_items, right_reports_are_due};

#[cfg(test)]
mod tests;
