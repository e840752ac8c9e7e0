//! The serial order of the committed transactions of a journal, and the theorem that every legal journal is serial.
#![tactic(auto)]

mod laws;
mod order;

pub use laws::{commits_apply_changes, legal_is_serial};
pub use order::serial_order;
