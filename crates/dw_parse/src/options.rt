//! Options of columns.
ghost use Rattle.std.specs.Prelude.{◌≡◌, ◌+◌, ◌<◌, ◌≤◌, length, IfOk, IfSome};
ghost use Rattle.dw_parse.specs.declared.parts.OptionWord.TheVariants.{Default, Encode, References};
ghost use Rattle.dw_parse_words.specs.Words.{word_at};
ghost use Rattle.dw_parse_words.specs.KindReading.{when};
ghost use Rattle.dw_parse.specs.CreateReading.{option_by};

use crate::parts::{ColumnOption, OptionWord};
use dw_lex::Token;
use dw_model::Literal;
use dw_parse_words::{Element, Said, maybe_names_at, meant_at, says, table_at, word_at};
use dw_value::{Encoding, List};
use std::alloc::{AllocError, Global};

impl Said for OptionWord {
    ghost use Rattle.dw_parse.specs.Tables.{option_words};

    ghost words = { option_words };

    fn of(token: &Token) -> Option<OptionWord> {
        if says(token, "null") {
            Some(OptionWord::Null)
        } else if says(token, "not") {
            Some(OptionWord::Not)
        } else if says(token, "default") {
            Some(OptionWord::Default)
        } else if says(token, "encode") {
            Some(OptionWord::Encode)
        } else if says(token, "distkey") {
            Some(OptionWord::DistKey)
        } else if says(token, "sortkey") {
            Some(OptionWord::SortKey)
        } else if says(token, "primary") {
            Some(OptionWord::Primary)
        } else if says(token, "unique") {
            Some(OptionWord::Unique)
        } else if says(token, "references") {
            Some(OptionWord::References)
        } else {
            None
        }
    }
}

// This option, where this word is at the place after this one, with the place after that.
fn option_if(
    tokens: &List<Token>,
    at: usize,
    word: &str,
    option: ColumnOption,
) -> Option<(ColumnOption, usize)>
    requires { at < length tokens.now }
    ensures value { result ≡ when (word_at word.now tokens.now (at + 1)) (option, at + 2) }
    ensures within { IfSome result (λ found. (at < found.1) × (found.1 ≤ length tokens.now)) }
{
    let _count = tokens.len();
    if word_at(tokens, at + 1, word) {
        Some((option, at + 2))
    } else {
        None
    }
}

// A default after its word, which is at this place, with the place after it.
fn default_at(
    alloc: Global,
    tokens: &List<Token>,
    at: usize,
) -> Result<Option<(ColumnOption, usize)>, AllocError>
    requires { at < length tokens.now }
    ensures value { IfOk result (λ option. option ≡ option_by tokens.now at Default) }
    ensures within { IfOk result (λ option.
        IfSome option (λ found. (at < found.1) × (found.1 ≤ length tokens.now))) }
{
    let _count = tokens.len();
    match Literal::at(alloc, tokens, at + 1)? {
        Some((literal, end)) => Ok(Some((ColumnOption::Default { literal }, end))),
        None => Ok(None),
    }
}

// An encoding after its word, which is at this place, with the place after it.
fn encoding_at(tokens: &List<Token>, at: usize) -> Option<(ColumnOption, usize)>
    requires { at < length tokens.now }
    ensures value { result ≡ option_by tokens.now at Encode }
    ensures within { IfSome result (λ found. (at < found.1) × (found.1 ≤ length tokens.now)) }
{
    let _count = tokens.len();
    match meant_at::<Encoding>(tokens, at + 1) {
        Some(encoding) => Some((ColumnOption::Encode { encoding }, at + 2)),
        None => None,
    }
}

// `table [names]` after the word REFERENCES, which is at this place, with the place after it.
fn references_at(
    alloc: Global,
    tokens: &List<Token>,
    at: usize,
) -> Result<Option<(ColumnOption, usize)>, AllocError>
    requires { at < length tokens.now }
    ensures value { IfOk result (λ option. option ≡ option_by tokens.now at References) }
    ensures within { IfOk result (λ option.
        IfSome option (λ found. (at < found.1) × (found.1 ≤ length tokens.now))) }
{
    let _count = tokens.len();
    let Some((_, end)) = table_at(alloc, tokens, at + 1)? else {
        return Ok(None);
    };
    match maybe_names_at(alloc, tokens, end)? {
        Some((_, end)) => Ok(Some((ColumnOption::Constraint, end))),
        None => Ok(None),
    }
}

// The option by its first word, which is at this place, with the place after it.
fn option_by(
    alloc: Global,
    tokens: &List<Token>,
    at: usize,
    word: OptionWord,
) -> Result<Option<(ColumnOption, usize)>, AllocError>
    requires { at < length tokens.now }
    ensures value { IfOk result (λ option. option ≡ option_by tokens.now at word) }
    ensures within { IfOk result (λ option.
        IfSome option (λ found. (at < found.1) × (found.1 ≤ length tokens.now))) }
{
    let _count = tokens.len();
    Ok(match word {
        OptionWord::Null => Some((ColumnOption::Null, at + 1)),
        OptionWord::Not => option_if(tokens, at, "null", ColumnOption::NotNull),
        OptionWord::Default => default_at(alloc, tokens, at)?,
        OptionWord::Encode => encoding_at(tokens, at),
        OptionWord::DistKey => Some((ColumnOption::DistKey, at + 1)),
        OptionWord::SortKey => Some((ColumnOption::SortKey, at + 1)),
        OptionWord::Primary => option_if(tokens, at, "key", ColumnOption::Constraint),
        OptionWord::Unique => Some((ColumnOption::Constraint, at + 1)),
        OptionWord::References => references_at(alloc, tokens, at)?,
    })
}

// An option of a column.
impl Element for ColumnOption {
    ghost use Rattle.dw_parse.specs.CreateReading.{option_at};

    ghost read_at = { option_at };

    fn at(
        alloc: Global,
        tokens: &List<Token>,
        at: usize,
    ) -> Result<Option<(ColumnOption, usize)>, AllocError> {
        match meant_at::<OptionWord>(tokens, at) {
            Some(word) => option_by(alloc, tokens, at, word),
            None => Ok(None),
        }
    }
}
