//! The encodings RAW and MOSTLY8, MOSTLY16 and MOSTLY32 of a column's values.
#![tactic(auto)]

pub mod fault;
pub mod laws;
pub mod mostly;
pub mod numbers;
pub mod raw;
pub mod step;
pub mod texts;

pub use fault::CodecFault;
pub use mostly::{decode_mostly, encode_mostly};
pub use raw::{decode_raw, encode_raw};
pub use texts::{Bytes, decode_raw_texts, encode_raw_texts};

#[cfg(test)]
mod tests;
