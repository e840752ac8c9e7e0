//! Scripts, schedules and statuses.
//!
//! `split` cuts the bytes of a script into its statements, or says why the script cannot be read. `read_schedule` reads
//! which session takes the next steps, or says which line is bad. `Status` is what a program ends with: its exit
//! number, and the line that it prints on standard error.
#![tactic(auto)]

mod laws;
mod place;
mod schedule;
mod script;
mod splitting;
mod status;

pub use laws::{gaps_left_out, scripts_joined, texts_kept};
pub use schedule::{Move, Schedule, ScheduleFault, read_schedule};
pub use script::{MAX_STATEMENTS, Script, ScriptCause, ScriptFault};
pub use splitting::split;
pub use status::Status;

#[cfg(test)]
mod tests;
