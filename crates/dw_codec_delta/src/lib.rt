//! The encodings DELTA and DELTA32K of a column's numbers.
#![tactic(auto)]

mod item;
mod list;

pub use list::{decode_delta, delta_has_one_form, encode_delta};

#[cfg(test)]
mod tests;
