//! Literals and tuples of them.
ghost use Rattle.std.specs.Prelude.{◌≡◌, ◌<◌, ◌≤◌, length, Some, IfOk, IfSome};
ghost use Rattle.dw_parse_words.specs.PieceReading.{plain_of, literal_by};
ghost use Rattle.dw_parse_words.specs.Literals.{digits_at, text_at};

use crate::lists::{Element, listed_at};
use crate::parts::LiteralWord;
use crate::words::{Said, digits_at, is_sign_at, meant_at, says, text_at};
use dw_lex::{Sign, Token};
use dw_model::Literal;
use dw_value::List;
use std::alloc::{AllocError, Global};

impl Said for LiteralWord {
    ghost use Rattle.dw_parse_words.specs.Literals.{literal_words};

    ghost words = { literal_words };

    fn of(token: &Token) -> Option<LiteralWord> {
        if says(token, "null") {
            Some(LiteralWord::Null)
        } else if says(token, "true") {
            Some(LiteralWord::True)
        } else if says(token, "false") {
            Some(LiteralWord::False)
        } else if says(token, "date") {
            Some(LiteralWord::Date)
        } else {
            None
        }
    }
}

// The number without a sign, or the text, at a place.
fn plain_at(
    alloc: Global,
    tokens: &List<Token>,
    at: usize,
) -> Result<Option<(Literal, usize)>, AllocError>
    ensures value { IfOk result (λ literal. literal ≡ plain_of at (digits_at tokens.now at) (text_at tokens.now at)) }
    ensures within { IfOk result (λ literal.
        IfSome literal (λ found. (at < found.1) × (found.1 ≤ length tokens.now))) }
{
    if let Some((number, scale)) = digits_at(alloc, tokens, at)? {
        let coefficient = number as i128;
        return Ok(Some((Literal::Number { coefficient, scale }, at + 1)));
    }
    match text_at(alloc, tokens, at)? {
        Some(text) => Ok(Some((Literal::Words { text }, at + 1))),
        None => Ok(None),
    }
}

// The literal of a word that is at this place.
fn word_literal(
    alloc: Global,
    tokens: &List<Token>,
    at: usize,
    word: LiteralWord,
) -> Result<Option<(Literal, usize)>, AllocError>
    requires { at < length tokens.now }
    ensures value { IfOk result (λ literal. literal ≡ literal_by tokens.now at (Some word)) }
    ensures within { IfOk result (λ literal.
        IfSome literal (λ found. (at < found.1) × (found.1 ≤ length tokens.now))) }
{
    let _count = tokens.len();
    match word {
        LiteralWord::Null => Ok(Some((Literal::Null, at + 1))),
        LiteralWord::True => Ok(Some((Literal::Truth { value: true }, at + 1))),
        LiteralWord::False => Ok(Some((Literal::Truth { value: false }, at + 1))),
        LiteralWord::Date => match text_at(alloc, tokens, at + 1)? {
            Some(text) => Ok(Some((Literal::Date { text }, at + 2))),
            None => Ok(None),
        },
    }
}

// `[-] number`, a text, `date` and a text, `true`, `false` or `null`
impl Element for Literal {
    ghost use Rattle.dw_parse_words.specs.PieceReading.{literal_at};

    ghost read_at = { literal_at };

    fn at(
        alloc: Global,
        tokens: &List<Token>,
        at: usize,
    ) -> Result<Option<(Literal, usize)>, AllocError> {
        if is_sign_at(tokens, at, Sign::Minus) {
            let Some((number, scale)) = digits_at(alloc, tokens, at + 1)? else {
                return Ok(None);
            };
            let coefficient = -(number as i128);
            return Ok(Some((Literal::Number { coefficient, scale }, at + 2)));
        }
        match meant_at::<LiteralWord>(tokens, at) {
            Some(word) => word_literal(alloc, tokens, at, word),
            None => plain_at(alloc, tokens, at),
        }
    }
}

// `( literal {, literal} )`
impl Element for List<Literal> {
    ghost use Rattle.dw_parse_words.specs.PieceReading.{tuple_at};

    ghost read_at = { tuple_at };

    fn at(
        alloc: Global,
        tokens: &List<Token>,
        at: usize,
    ) -> Result<Option<(List<Literal>, usize)>, AllocError> {
        if !is_sign_at(tokens, at, Sign::Open) {
            return Ok(None);
        }
        let Some((literals, end)) = listed_at::<Literal>(alloc, tokens, at + 1)? else {
            return Ok(None);
        };
        if is_sign_at(tokens, end, Sign::Close) {
            Ok(Some((literals, end + 1)))
        } else {
            Ok(None)
        }
    }
}
