//! `x {, x}` for any x of these parts: one after the other, with a comma between two.
ghost use Rattle.std.specs.Prelude.{◌≡◌, ℕ, ◌<◌, ◌≤◌, length, List as Items, Option as Optional, IfOk, IfSome};
ghost use Rattle.dw_lex.specs.declared.token.Token.{Token as Piece};
ghost use Rattle.dw_parse_words.specs.PieceReading.{listed_at};

use dw_lex::{Sign, Token};
use dw_parse_words::is_sign_at;
use dw_value::List;
use std::alloc::{AllocError, Global};

/// What a list has between its commas. These are types of the crates below, for which dw_parse_words' trait of the same
/// shape can't be implemented here.
pub trait Element: Drop {
    /// What is read at a place, with the place after it.
    ghost read_at: { Items Piece → ℕ → Optional (Self × ℕ) };

    /// The element at a place, with the place after it. `None` comes exactly where none is read there.
    fn at(
        alloc: Global,
        tokens: &List<Token>,
        at: usize,
    ) -> Result<Option<(Self, usize)>, AllocError>
        requires { at ≤ length tokens.now }
        ensures value { IfOk result (λ found. found ≡ read_at tokens.now at) }
        ensures within { IfOk result (λ found.
            IfSome found (λ one. (at < one.1) × (one.1 ≤ length tokens.now))) };
}

/// The elements from a place on, as long as a comma stands between, with the place after the last. `None` comes exactly
/// where none is read at that place or after a comma.
pub fn listed_at<X: Element>(
    alloc: Global,
    tokens: &List<Token>,
    start: usize,
) -> Result<Option<(List<X>, usize)>, AllocError>
    requires { start ≤ length tokens.now }
    ensures value { IfOk result (λ listed. listed ≡ listed_at (X.read_at tokens.now) tokens.now start) }
    ensures within { IfOk result (λ listed.
        IfSome listed (λ found. (start < found.1) × (found.1 ≤ length tokens.now))) }
{
    let mut elements = List::new(alloc);
    let mut at = start;
    loop {
        let Some((element, end)) = X::at(alloc, tokens, at)? else {
            return Ok(None);
        };
        elements.push(element)?;
        if !is_sign_at(tokens, end, Sign::Comma) {
            return Ok(Some((elements, end)));
        }
        at = end + 1;
    }
}
