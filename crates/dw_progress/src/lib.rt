//! Why runs end: laws about the waits of sessions, that they have no cycle and that somebody can always go on.
#![tactic(auto)]

mod laws;

pub use laws::{no_run_is_stuck, waits_have_no_cycle};
