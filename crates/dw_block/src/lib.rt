//! Blocks: the values of one column and up to 4,096 rows, spelled in bytes, with a zone that says what lies in them.
#![tactic(auto)]

mod block;
mod encodings;
mod kinds;
mod laws;
mod nulls;
mod placing;
mod zone;

pub use block::Block;
pub use laws::no_match_is_lost;
pub use zone::{Test, Zone, may_match};

#[cfg(test)]
mod tests;
