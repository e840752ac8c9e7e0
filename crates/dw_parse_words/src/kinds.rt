//! Kinds and encodings.
ghost use Rattle.std.specs.Prelude.{◌≡◌, ◌+◌, ◌<◌, ◌≤◌, length, OnSome, IfSome};
ghost use Rattle.dw_parse_words.specs.Kinds.{from_one_to, length_in, precision_at, scale_of, scale_at};
ghost use Rattle.dw_parse_words.specs.KindReading.{length_at, scaled_at, precise_at, precision_and_scale_at};
ghost use Rattle.dw_parse_words.specs.KindReading.{char_at, varchar_at, decimal_at, kind_by, kind_at};

use crate::parts::KindWord;
use crate::words::{Said, is_sign_at, meant_at, number_at, says, word_at};
use dw_lex::{Sign, Token};
use dw_value::{Encoding, Kind, List};

// The most bytes of a CHAR, and of a VARCHAR.
const CHAR_LIMIT: u32 = 4096;

const VARCHAR_LIMIT: u32 = 65_535;

impl Said for KindWord {
    ghost use Rattle.dw_parse_words.specs.Kinds.{kind_words};

    ghost words = { kind_words };

    fn of(token: &Token) -> Option<KindWord> {
        let kind = if says(token, "smallint") || says(token, "int2") {
            Kind::Small
        } else if says(token, "integer") || says(token, "int") || says(token, "int4") {
            Kind::Int
        } else if says(token, "bigint") || says(token, "int8") {
            Kind::Big
        } else if says(token, "text") {
            Kind::Varchar { length: 256 }
        } else if says(token, "date") {
            Kind::Date
        } else if says(token, "boolean") || says(token, "bool") {
            Kind::Bool
        } else if says(token, "decimal") || says(token, "numeric") {
            return Some(KindWord::Decimal);
        } else if says(token, "char") {
            return Some(KindWord::Char);
        } else if says(token, "character") {
            return Some(KindWord::Character);
        } else if says(token, "varchar") {
            return Some(KindWord::Varchar);
        } else {
            return None;
        };
        Some(KindWord::Plain { kind })
    }
}

impl Said for Encoding {
    ghost use Rattle.dw_parse_words.specs.Kinds.{encoding_words};

    ghost words = { encoding_words };

    fn of(token: &Token) -> Option<Encoding> {
        if says(token, "raw") {
            Some(Encoding::Raw)
        } else if says(token, "bytedict") {
            Some(Encoding::Bytedict)
        } else if says(token, "delta") {
            Some(Encoding::Delta)
        } else if says(token, "delta32k") {
            Some(Encoding::Delta32k)
        } else if says(token, "mostly8") {
            Some(Encoding::Mostly8)
        } else if says(token, "mostly16") {
            Some(Encoding::Mostly16)
        } else if says(token, "mostly32") {
            Some(Encoding::Mostly32)
        } else if says(token, "runlength") {
            Some(Encoding::Runlength)
        } else {
            None
        }
    }
}

fn from_one_to(limit: u32, number: u128) -> Option<u32>
    ensures { result ≡ from_one_to limit number }
{
    if 1 <= number && number <= u128::from(limit) {
        Some(number as u32)
    } else {
        None
    }
}

// How many bytes a text may have.
fn length_in(limit: u32, tokens: &List<Token>, at: usize) -> Option<u32>
    ensures value { result ≡ length_in limit tokens.now at }
    ensures within { OnSome result (at < length tokens.now) }
{
    if word_at(tokens, at, "max") {
        return Some(limit);
    }
    match number_at(tokens, at) {
        Some(number) => from_one_to(limit, number),
        None => None,
    }
}

// How many digits a DECIMAL has.
fn precision_at(tokens: &List<Token>, at: usize) -> Option<u8>
    ensures value { result ≡ precision_at tokens.now at }
    ensures within { OnSome result (at < length tokens.now) }
{
    match number_at(tokens, at) {
        Some(number) if 1 <= number && number <= 38 => Some(number as u8),
        _ => None,
    }
}

// How many of the digits stand after the point.
fn scale_at(precision: u8, tokens: &List<Token>, at: usize) -> Option<u8>
    ensures value { result ≡ scale_at precision tokens.now at }
    ensures within { OnSome result (at < length tokens.now) }
{
    match number_at(tokens, at) {
        Some(number) if number <= u128::from(precision) && number <= 37 => Some(number as u8),
        _ => None,
    }
}

// `[( n )]` or `[( max )]`, with the place after it.
fn length_at(limit: u32, unwritten: u32, tokens: &List<Token>, at: usize) -> Option<(u32, usize)>
    requires { at ≤ length tokens.now }
    ensures value { result ≡ length_at limit unwritten tokens.now at }
    ensures within { IfSome result (λ found. (at ≤ found.1) × (found.1 ≤ length tokens.now)) }
{
    if !is_sign_at(tokens, at, Sign::Open) {
        return Some((unwritten, at));
    }
    let Some(bytes) = length_in(limit, tokens, at + 1) else {
        return None;
    };
    if is_sign_at(tokens, at + 2, Sign::Close) {
        Some((bytes, at + 3))
    } else {
        None
    }
}

// `s )` after the digits and the comma of a DECIMAL, whose `(` is at this place, with the place after it.
fn scaled_at(tokens: &List<Token>, at: usize, precision: u8) -> Option<((u8, u8), usize)>
    requires { at + 2 < length tokens.now }
    ensures value { result ≡ scaled_at tokens.now at precision }
    ensures within { IfSome result (λ found. (at ≤ found.1) × (found.1 ≤ length tokens.now)) }
{
    let _count = tokens.len();
    let Some(scale) = scale_at(precision, tokens, at + 3) else {
        return None;
    };
    if is_sign_at(tokens, at + 4, Sign::Close) {
        Some(((precision, scale), at + 5))
    } else {
        None
    }
}

// The rest after the digits of a DECIMAL, whose `(` is at this place, with the place after it.
fn precise_at(tokens: &List<Token>, at: usize, precision: u8) -> Option<((u8, u8), usize)>
    requires { at + 1 < length tokens.now }
    ensures value { result ≡ precise_at tokens.now at precision }
    ensures within { IfSome result (λ found. (at ≤ found.1) × (found.1 ≤ length tokens.now)) }
{
    let _count = tokens.len();
    if is_sign_at(tokens, at + 2, Sign::Comma) {
        scaled_at(tokens, at, precision)
    } else if is_sign_at(tokens, at + 2, Sign::Close) {
        Some(((precision, 0), at + 3))
    } else {
        None
    }
}

// `[( p )]` or `[( p , s )]`, with the place after it.
fn precision_and_scale_at(tokens: &List<Token>, at: usize) -> Option<((u8, u8), usize)>
    requires { at ≤ length tokens.now }
    ensures value { result ≡ precision_and_scale_at tokens.now at }
    ensures within { IfSome result (λ found. (at ≤ found.1) × (found.1 ≤ length tokens.now)) }
{
    if !is_sign_at(tokens, at, Sign::Open) {
        return Some(((18, 0), at));
    }
    match precision_at(tokens, at + 1) {
        Some(precision) => precise_at(tokens, at, precision),
        None => None,
    }
}

fn char_at(tokens: &List<Token>, at: usize) -> Option<(Kind, usize)>
    requires { at ≤ length tokens.now }
    ensures value { result ≡ char_at tokens.now at }
    ensures within { IfSome result (λ found. (at ≤ found.1) × (found.1 ≤ length tokens.now)) }
{
    match length_at(CHAR_LIMIT, 1, tokens, at) {
        Some((length, end)) => Some((Kind::Char { length }, end)),
        None => None,
    }
}

fn varchar_at(tokens: &List<Token>, at: usize) -> Option<(Kind, usize)>
    requires { at ≤ length tokens.now }
    ensures value { result ≡ varchar_at tokens.now at }
    ensures within { IfSome result (λ found. (at ≤ found.1) × (found.1 ≤ length tokens.now)) }
{
    match length_at(VARCHAR_LIMIT, 256, tokens, at) {
        Some((length, end)) => Some((Kind::Varchar { length }, end)),
        None => None,
    }
}

fn decimal_at(tokens: &List<Token>, at: usize) -> Option<(Kind, usize)>
    requires { at ≤ length tokens.now }
    ensures value { result ≡ decimal_at tokens.now at }
    ensures within { IfSome result (λ found. (at ≤ found.1) × (found.1 ≤ length tokens.now)) }
{
    match precision_and_scale_at(tokens, at) {
        Some(((precision, scale), end)) => Some((Kind::Decimal { precision, scale }, end)),
        None => None,
    }
}

// The kind by its first word, which is at this place, with the place after it.
fn kind_by(tokens: &List<Token>, at: usize, word: KindWord) -> Option<(Kind, usize)>
    requires { at < length tokens.now }
    ensures value { result ≡ kind_by tokens.now at word }
    ensures within { IfSome result (λ found. (at < found.1) × (found.1 ≤ length tokens.now)) }
{
    let _count = tokens.len();
    match word {
        KindWord::Plain { kind } => Some((kind, at + 1)),
        KindWord::Decimal => decimal_at(tokens, at + 1),
        KindWord::Char => char_at(tokens, at + 1),
        KindWord::Character => {
            if word_at(tokens, at + 1, "varying") {
                varchar_at(tokens, at + 2)
            } else {
                char_at(tokens, at + 1)
            }
        }
        KindWord::Varchar => varchar_at(tokens, at + 1),
    }
}

/// The kind at a place, with the place after it.
pub fn kind_at(tokens: &List<Token>, at: usize) -> Option<(Kind, usize)>
    ensures value { result ≡ kind_at tokens.now at }
    ensures within { IfSome result (λ found. (at < found.1) × (found.1 ≤ length tokens.now)) }
{
    match meant_at::<KindWord>(tokens, at) {
        Some(word) => kind_by(tokens, at, word),
        None => None,
    }
}
