//! The words that begin literals and kinds.
use dw_value::Kind;

/// A word that is a literal, or that a literal begins with.
#[derive(Debug, Clone, Copy, PartialEq, Eq, Drop)]
pub enum LiteralWord {
    Null,
    True,
    False,
    /// A text comes after it.
    Date,
}

/// What the first word of a kind says.
#[derive(Debug, Clone, Copy, PartialEq, Eq, Drop)]
pub enum KindWord {
    /// The kind, of one word.
    Plain { kind: Kind },
    /// DECIMAL, with its digits after it or not.
    Decimal,
    /// CHAR, with its length after it or not.
    Char,
    /// CHARACTER, after which VARYING may come, and a length or not.
    Character,
    /// VARCHAR, with its length after it or not.
    Varchar,
}
