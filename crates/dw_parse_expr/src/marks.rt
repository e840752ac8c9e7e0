//! What a token is to the grammar of expressions, and the operators.
use dw_value::{Comparison, Op};

/// A word or a sign that the grammar of expressions knows, or a text in quotes.
#[derive(Debug, Clone, Copy, PartialEq, Eq, Drop)]
pub enum Mark {
    /// `or`
    Or,
    /// `and`
    And,
    /// `not`
    Not,
    /// `is`
    Is,
    /// `null`
    Null,
    /// `true`
    True,
    /// `false`
    False,
    /// `between`
    Between,
    /// `in`
    In,
    /// `like`
    Like,
    /// `case`
    Case,
    /// `when`
    When,
    /// `then`
    Then,
    /// `else`
    Else,
    /// `end`
    End,
    /// `as`
    As,
    /// `distinct`
    Distinct,
    /// `=`, `<>`, `!=`, `<`, `<=`, `>` or `>=`
    Compared(Comparison),
    /// `+`
    Plus,
    /// `-`
    Minus,
    /// `||`
    Join,
    /// `*`
    Star,
    /// `/`
    Slash,
    /// `%`
    Percent,
    /// `::`
    Cast,
    /// `(`
    Open,
    /// `)`
    Close,
    /// `,`
    Comma,
    /// `.`
    Dot,
    /// A text in quotes.
    Text,
}

/// What stands between two operands.
#[derive(Debug, Clone, Copy, PartialEq, Eq, Drop)]
pub enum Operator {
    /// `or`
    Or,
    /// `and`
    And,
    /// A comparison.
    Compared(Comparison),
    /// `+`, `-`, `*`, `/` or `%`
    Arithmetic(Op),
    /// `||`
    Joined,
}
