//! The tokens of a statement: names, quoted names, numbers, texts in quotes and signs, each with its place.
//!
//! The rules are this project's profile of the lexical structure in the Amazon Redshift guide and the SQL standard. A
//! quoted name has the characters of a name and is folded as one is; it may be a reserved word, and is never a keyword.
#![tactic(auto)]

mod fault;
mod forms;
mod gaps;
mod laws;
mod meaning;
mod reading;
mod signs;
mod token;

pub use fault::LexFault;
pub use laws::{
    read_gaps_are_spelled, read_tokens_are_spelled, spelled_gaps_are_passed,
    spelled_tokens_are_read,
};
pub use reading::tokens;
pub use signs::Sign;
pub use token::{Form, Token};

#[cfg(test)]
mod tests;
