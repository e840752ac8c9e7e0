//! What statements are made of, as tokens read: words, names, numbers, texts, literals, kinds and lists.
//!
//! The rules are this project's profile of the SQL of the Amazon Redshift guide. Places are counted in tokens, from 0. The
//! grammar of these stands in specs/Pieces.antt and specs/KindGrammar.antt, their reading in specs/PieceReading.antt and
//! specs/KindReading.antt.
#![tactic(auto)]

mod kinds;
mod lists;
mod literals;
mod names;
mod parts;
mod words;

pub use kinds::kind_at;
pub use lists::{Element, listed_at, repeated_at};
pub use names::{TableName, maybe_names_at, names_at, table_at, texts_of};
pub use parts::{KindWord, LiteralWord};
pub use words::{
    Said, comparison_of, digits_at, is_sign_at, meant_at, name_at, number_at, says, sign_at,
    text_at, word_at,
};

#[cfg(test)]
mod tests;
