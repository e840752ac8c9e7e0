//! LIKE: whether a text goes with a pattern.
#![tactic(auto)]

pub mod laws;
mod matching;

pub use matching::is_like;

#[cfg(test)]
mod tests;
