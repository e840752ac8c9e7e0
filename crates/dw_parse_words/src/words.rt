//! What the token at a place is, as the grammar takes it.
ghost use Rattle.std.specs.Prelude.{◌≡◌, ℕ, ◌<◌, ◌^◌, length, List as Items, slice_get, true, IfOk, IfSome, OnSome};
ghost use Rattle.std.specs.Option.{option_copied};
ghost use Rattle.dw_lex.specs.Meaning.{decimal_number};
ghost use Rattle.dw_parse_words.specs.Words.{sign_of, says, is_reserved, name_of, number_of, meant};
ghost use Rattle.dw_parse_words.specs.Words.{comparison_of, word_at, sign_at, is_sign_at, name_at, number_at, meant_at};
ghost use Rattle.dw_parse_words.specs.Literals.{within_digits, text_of, digits_at, text_at};

use dw_lex::{Form, Sign, Token};
use dw_value::{Comparison, List, Text};
use std::alloc::{AllocError, Global};

// One more than the greatest number of 38 digits.
const NUMBER_LIMIT: u128 = 100_000_000_000_000_000_000_000_000_000_000_000_000;

const RESERVED: [&str; 57] = [
    "all",
    "and",
    "as",
    "asc",
    "between",
    "by",
    "case",
    "create",
    "cross",
    "default",
    "delete",
    "desc",
    "distinct",
    "else",
    "end",
    "except",
    "false",
    "foreign",
    "from",
    "full",
    "group",
    "having",
    "in",
    "inner",
    "insert",
    "intersect",
    "into",
    "is",
    "join",
    "left",
    "like",
    "limit",
    "minus",
    "natural",
    "not",
    "null",
    "offset",
    "on",
    "or",
    "order",
    "over",
    "primary",
    "references",
    "right",
    "select",
    "set",
    "table",
    "then",
    "true",
    "union",
    "unique",
    "update",
    "using",
    "values",
    "when",
    "where",
    "with",
];

/// The comparison that a sign says.
pub fn comparison_of(sign: Option<Sign>) -> Option<Comparison>
    ensures { result ≡ comparison_of sign }
{
    match sign {
        Some(Sign::Equal) => Some(Comparison::Equal),
        Some(Sign::Unequal) => Some(Comparison::Unequal),
        Some(Sign::Less) => Some(Comparison::Less),
        Some(Sign::AtMost) => Some(Comparison::AtMost),
        Some(Sign::Greater) => Some(Comparison::Greater),
        Some(Sign::AtLeast) => Some(Comparison::AtLeast),
        _ => None,
    }
}

fn is_reserved(name: &str) -> bool
    ensures { result ≡ is_reserved name.now }
{
    RESERVED.contains(&name)
}

fn sign_of(form: Form) -> Option<Sign>
    ensures { result ≡ sign_of form }
{
    match form {
        Form::Sign(sign) => Some(sign),
        _ => None,
    }
}

/// Whether a token is this word. A quoted name is no word.
pub fn says(token: &Token, word: &str) -> bool
    ensures { result ≡ says word.now token.now }
{
    token.is_word(word)
}

fn name_of(alloc: Global, token: &Token) -> Result<Option<Text>, AllocError>
    ensures { IfOk result (λ name. name ≡ name_of token.now) }
{
    match token.form {
        Form::Name => {
            let name = token.folded(alloc)?;
            if is_reserved(name.as_str()) {
                Ok(None)
            } else {
                Ok(Some(name))
            }
        }
        _ => Ok(token.written_name(alloc)?),
    }
}

fn number_of(token: &Token) -> Option<u128>
    ensures value { result ≡ number_of token.now }
    ensures small { IfSome result (λ number. number < 10 ^ 38) }
{
    let Some(number) = token.whole_number() else {
        return None;
    };
    if number < NUMBER_LIMIT {
        Some(number)
    } else {
        None
    }
}

fn token_at(tokens: &List<Token>, at: usize) -> Option<&Token>
    ensures value { option_copied result ≡ slice_get tokens.now at }
    ensures within { OnSome result (at < length tokens.now) }
    ensures few { length tokens.now < 2 ^ 64 }
{
    let _count = tokens.len();
    tokens.get(at)
}

/// Whether the token at a place is this word.
pub fn word_at(tokens: &List<Token>, at: usize, word: &str) -> bool
    ensures value { result ≡ word_at word.now tokens.now at }
    ensures within { result ≡ true → at < length tokens.now }
    ensures few { length tokens.now < 2 ^ 64 }
{
    match token_at(tokens, at) {
        Some(token) => says(token, word),
        None => false,
    }
}

/// The sign at a place.
pub fn sign_at(tokens: &List<Token>, at: usize) -> Option<Sign>
    ensures value { result ≡ sign_at tokens.now at }
    ensures within { OnSome result (at < length tokens.now) }
    ensures few { length tokens.now < 2 ^ 64 }
{
    match token_at(tokens, at) {
        Some(token) => sign_of(token.form),
        None => None,
    }
}

/// Whether this sign is at a place.
pub fn is_sign_at(tokens: &List<Token>, at: usize, sign: Sign) -> bool
    ensures value { result ≡ is_sign_at sign tokens.now at }
    ensures within { result ≡ true → at < length tokens.now }
    ensures few { length tokens.now < 2 ^ 64 }
{
    sign_at(tokens, at) == Some(sign)
}

/// The name at a place, in lower case: a name that is no reserved word, or a quoted name, which may be one.
pub fn name_at(alloc: Global, tokens: &List<Token>, at: usize) -> Result<Option<Text>, AllocError>
    ensures value { IfOk result (λ name. name ≡ name_at tokens.now at) }
    ensures within { IfOk result (λ name. OnSome name (at < length tokens.now)) }
    ensures few { length tokens.now < 2 ^ 64 }
{
    match token_at(tokens, at) {
        Some(token) => name_of(alloc, token),
        None => Ok(None),
    }
}

/// The number at a place.
pub fn number_at(tokens: &List<Token>, at: usize) -> Option<u128>
    ensures value { result ≡ number_at tokens.now at }
    ensures within { OnSome result (at < length tokens.now) }
    ensures few { length tokens.now < 2 ^ 64 }
    ensures small { IfSome result (λ number. number < 10 ^ 38) }
{
    match token_at(tokens, at) {
        Some(token) => number_of(token),
        None => None,
    }
}

/// What one word says: the words of a table.
pub trait Said: Drop {
    /// The words, and what each says.
    ghost words: { Items (Items ℕ × Self) };

    /// What a token says, if it is one of the words.
    fn of(token: &Token) -> Option<Self>
        ensures { result ≡ meant words token.now };
}

/// What the token at a place says, if it is one of the words.
pub fn meant_at<W: Said>(tokens: &List<Token>, at: usize) -> Option<W>
    ensures value { result ≡ meant_at W.words tokens.now at }
    ensures within { OnSome result (at < length tokens.now) }
    ensures few { length tokens.now < 2 ^ 64 }
{
    match token_at(tokens, at) {
        Some(token) => W::of(token),
        None => None,
    }
}

fn digits_of(alloc: Global, token: &Token) -> Result<Option<(u128, u8)>, AllocError>
    ensures value { IfOk result (λ digits. digits ≡ within_digits (decimal_number token.now)) }
    ensures small { IfOk result (λ digits. IfSome digits (λ found. found.0 < 10 ^ 38)) }
{
    let Some((number, places)) = token.decimal_number(alloc)? else {
        return Ok(None);
    };
    if number < NUMBER_LIMIT && places <= 37 {
        Ok(Some((number, places as u8)))
    } else {
        Ok(None)
    }
}

/// The number of the digits at a place without their point, and how many of them stand after the point.
pub fn digits_at(
    alloc: Global,
    tokens: &List<Token>,
    at: usize,
) -> Result<Option<(u128, u8)>, AllocError>
    ensures value { IfOk result (λ digits. digits ≡ digits_at tokens.now at) }
    ensures within { IfOk result (λ digits. OnSome digits (at < length tokens.now)) }
    ensures few { length tokens.now < 2 ^ 64 }
    ensures small { IfOk result (λ digits. IfSome digits (λ found. found.0 < 10 ^ 38)) }
{
    match token_at(tokens, at) {
        Some(token) => digits_of(alloc, token),
        None => Ok(None),
    }
}

fn text_of(alloc: Global, token: &Token) -> Result<Option<Text>, AllocError>
    ensures { IfOk result (λ text. text ≡ text_of token.now) }
{
    match token.form {
        Form::Words => Ok(Some(token.words(alloc)?)),
        _ => Ok(None),
    }
}

/// What the text at a place says.
pub fn text_at(alloc: Global, tokens: &List<Token>, at: usize) -> Result<Option<Text>, AllocError>
    ensures value { IfOk result (λ text. text ≡ text_at tokens.now at) }
    ensures within { IfOk result (λ text. OnSome text (at < length tokens.now)) }
    ensures few { length tokens.now < 2 ^ 64 }
{
    match token_at(tokens, at) {
        Some(token) => text_of(alloc, token),
        None => Ok(None),
    }
}
