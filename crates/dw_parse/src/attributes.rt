//! Attributes of tables.
ghost use Rattle.std.specs.Prelude.{◌≡◌, ◌+◌, ◌<◌, ◌≤◌, ◌||◌, length, IfOk, IfSome, OnSome};
ghost use Rattle.dw_parse.specs.declared.parts.AttributeWord.TheVariants.{DistStyle};
ghost use Rattle.dw_parse.specs.declared.parts.Attribute.TheVariants.{Idle};
ghost use Rattle.dw_parse_words.specs.Words.{meant, word_at};
ghost use Rattle.dw_parse_words.specs.KindReading.{when};
ghost use Rattle.dw_parse.specs.Tables.{style_words, style_word};
ghost use Rattle.dw_parse.specs.CreateReading.{sort_key_at, dist_key_at, attribute_by};

use crate::parts::{Attribute, AttributeWord};
use dw_lex::{Sign, Token};
use dw_model::StyleWord;
use dw_parse_words::{Element, Said, is_sign_at, meant_at, name_at, names_at, says, word_at};
use dw_value::List;
use std::alloc::{AllocError, Global};

impl Said for AttributeWord {
    ghost use Rattle.dw_parse.specs.Tables.{attribute_words};

    ghost words = { attribute_words };

    fn of(token: &Token) -> Option<AttributeWord> {
        if says(token, "diststyle") {
            Some(AttributeWord::DistStyle)
        } else if says(token, "distkey") {
            Some(AttributeWord::DistKey)
        } else if says(token, "compound") {
            Some(AttributeWord::Compound)
        } else if says(token, "sortkey") {
            Some(AttributeWord::SortKey)
        } else if says(token, "encode") {
            Some(AttributeWord::Encode)
        } else if says(token, "backup") {
            Some(AttributeWord::Backup)
        } else {
            None
        }
    }
}

// What stands after DISTSTYLE; AUTO is taken as EVEN.
fn style_of(token: &Token) -> Option<StyleWord>
    ensures { result ≡ meant style_words token.now }
{
    if says(token, "even") {
        Some(StyleWord::Even)
    } else if says(token, "key") {
        Some(StyleWord::Key)
    } else if says(token, "all") {
        Some(StyleWord::All)
    } else if says(token, "auto") {
        Some(StyleWord::Even)
    } else {
        None
    }
}

fn style_word(tokens: &List<Token>, at: usize) -> Option<StyleWord>
    ensures value { result ≡ style_word tokens.now at }
    ensures within { OnSome result (at < length tokens.now) }
{
    match tokens.get(at) {
        Some(token) => style_of(token),
        None => None,
    }
}

// A style after its word, which is at this place, with the place after it.
fn style_at(tokens: &List<Token>, at: usize) -> Option<(Attribute, usize)>
    requires { at < length tokens.now }
    ensures value { result ≡ attribute_by tokens.now at DistStyle }
    ensures within { IfSome result (λ found. (at < found.1) × (found.1 ≤ length tokens.now)) }
{
    let _count = tokens.len();
    match style_word(tokens, at + 1) {
        Some(style) => Some((Attribute::Style { style }, at + 2)),
        None => None,
    }
}

// `( name )` after the word DISTKEY, which is at this place, with the place after it.
fn dist_key_at(
    alloc: Global,
    tokens: &List<Token>,
    at: usize,
) -> Result<Option<(Attribute, usize)>, AllocError>
    requires { at < length tokens.now }
    ensures value { IfOk result (λ key. key ≡ dist_key_at tokens.now at) }
    ensures within { IfOk result (λ key.
        IfSome key (λ found. (at < found.1) × (found.1 ≤ length tokens.now))) }
{
    let _count = tokens.len();
    if !is_sign_at(tokens, at + 1, Sign::Open) {
        return Ok(None);
    }
    let Some(name) = name_at(alloc, tokens, at + 2)? else {
        return Ok(None);
    };
    if is_sign_at(tokens, at + 3, Sign::Close) {
        Ok(Some((Attribute::DistKey { name }, at + 4)))
    } else {
        Ok(None)
    }
}

// A sort key whose names are at this place, with the place after it.
fn sort_key_at(
    alloc: Global,
    tokens: &List<Token>,
    at: usize,
) -> Result<Option<(Attribute, usize)>, AllocError>
    ensures value { IfOk result (λ key. key ≡ sort_key_at tokens.now at) }
    ensures within { IfOk result (λ key.
        IfSome key (λ found. (at < found.1) × (found.1 ≤ length tokens.now))) }
{
    match names_at(alloc, tokens, at)? {
        Some((names, end)) => Ok(Some((Attribute::SortKey { names }, end))),
        None => Ok(None),
    }
}

// An attribute that says nothing, where its second word is one of these, with the place after that. The first word is at
// this place.
fn idle_if(tokens: &List<Token>, at: usize, first: &str, second: &str) -> Option<(Attribute, usize)>
    requires { at < length tokens.now }
    ensures value { result ≡
        when (word_at first.now tokens.now (at + 1) || word_at second.now tokens.now (at + 1)) (Idle, at + 2) }
    ensures within { IfSome result (λ found. (at < found.1) × (found.1 ≤ length tokens.now)) }
{
    let _count = tokens.len();
    if word_at(tokens, at + 1, first) || word_at(tokens, at + 1, second) {
        Some((Attribute::Idle, at + 2))
    } else {
        None
    }
}

// The attribute by its first word, which is at this place, with the place after it.
fn attribute_by(
    alloc: Global,
    tokens: &List<Token>,
    at: usize,
    word: AttributeWord,
) -> Result<Option<(Attribute, usize)>, AllocError>
    requires { at < length tokens.now }
    ensures value { IfOk result (λ attribute. attribute ≡ attribute_by tokens.now at word) }
    ensures within { IfOk result (λ attribute.
        IfSome attribute (λ found. (at < found.1) × (found.1 ≤ length tokens.now))) }
{
    let _count = tokens.len();
    match word {
        AttributeWord::DistStyle => Ok(style_at(tokens, at)),
        AttributeWord::DistKey => dist_key_at(alloc, tokens, at),
        AttributeWord::Compound => {
            if word_at(tokens, at + 1, "sortkey") {
                sort_key_at(alloc, tokens, at + 2)
            } else {
                Ok(None)
            }
        }
        AttributeWord::SortKey => {
            if word_at(tokens, at + 1, "auto") {
                Ok(Some((Attribute::Idle, at + 2)))
            } else {
                sort_key_at(alloc, tokens, at + 1)
            }
        }
        AttributeWord::Encode => Ok(idle_if(tokens, at, "auto", "auto")),
        AttributeWord::Backup => Ok(idle_if(tokens, at, "yes", "no")),
    }
}

// An attribute of a table.
impl Element for Attribute {
    ghost use Rattle.dw_parse.specs.CreateReading.{attribute_at};

    ghost read_at = { attribute_at };

    fn at(
        alloc: Global,
        tokens: &List<Token>,
        at: usize,
    ) -> Result<Option<(Attribute, usize)>, AllocError> {
        match meant_at::<AttributeWord>(tokens, at) {
            Some(word) => attribute_by(alloc, tokens, at, word),
            None => Ok(None),
        }
    }
}
