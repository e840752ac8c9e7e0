//! The token at the front of bytes, by its form.
ghost use Rattle.std.specs.Prelude.{◌≡◌, ◌≤◌, ◌+◌, ◌<◌, true, false, length, take, IfSome, option_map};
ghost use Rattle.std.specs.List.{prefix_len};
ghost use Rattle.std.specs.Option.{option_copied};
ghost use Rattle.dw_lex.specs.Characters.{begins_name, is_in_name, is_double_quote};
ghost use Rattle.dw_lex.specs.Forms.{name_at, begins_with, quoted_at, digits_at, fraction_at, number_at, text_end, words_at, sign_at, form_at, token_at};

use crate::gaps::begins_comment;
use crate::signs::{sign_of_one, sign_of_two};
use crate::token::Form;

const MAX_NAME: usize = 127;

const MAX_DIGITS: usize = 38;

fn begins_name(byte: u8) -> bool
    ensures { result ≡ begins_name byte }
{
    byte.is_ascii_alphabetic() || byte == b'_'
}

fn is_in_name(byte: u8) -> bool
    ensures { result ≡ is_in_name byte }
{
    begins_name(byte) || byte.is_ascii_digit() || byte == b'$'
}

fn name_length(bytes: &[u8]) -> usize
    ensures value { result ≡ prefix_len is_in_name bytes.now }
    ensures within { result ≤ length bytes.now }
{
    bytes.iter().take_while(|byte| is_in_name(**byte)).count()
}

fn name_at(bytes: &[u8]) -> Option<(Form, usize)>
    ensures found { result ≡ name_at bytes.now }
    ensures within { IfSome result (λ found. found.1 ≤ length bytes.now) }
{
    let length = name_length(bytes);
    if length <= MAX_NAME {
        Some((Form::Name, length))
    } else {
        None
    }
}

fn begins_with_name(bytes: &[u8]) -> bool
    ensures { result ≡ begins_with begins_name bytes.now }
{
    match bytes {
        [first, ..] => begins_name(*first),
        _ => false,
    }
}

fn begins_with_double_quote(bytes: &[u8]) -> bool
    ensures begins { result ≡ begins_with is_double_quote bytes.now }
    ensures some { result ≡ true → 0 < length bytes.now }
{
    matches!(bytes, [b'"', ..])
}

// A quoted name, by the bytes after its opening quote.
fn quoted_at(inside: &[u8]) -> Option<(Form, usize)>
    ensures found { result ≡ quoted_at inside.now }
    ensures some { IfSome result (λ found. 0 < found.1) }
    ensures within { IfSome result (λ found. found.1 ≤ length inside.now + 1) }
{
    let length = name_length(inside);
    let is_closed = begins_with_double_quote(&inside[length..]);
    if begins_with_name(inside) && length <= MAX_NAME && is_closed {
        Some((Form::Quoted, length + 2))
    } else {
        None
    }
}

fn digits_at(bytes: &[u8]) -> usize
    ensures value { result ≡ digits_at bytes.now }
    ensures within { result ≤ length bytes.now }
{
    bytes
        .iter()
        .take_while(|byte| byte.is_ascii_digit())
        .count()
}

fn fraction_at(bytes: &[u8]) -> usize
    ensures value { result ≡ fraction_at bytes.now }
    ensures within { 0 < result → result < length bytes.now }
{
    match bytes {
        [b'.', rest @ ..] => digits_at(rest),
        _ => 0,
    }
}

fn number_at(bytes: &[u8]) -> Option<(Form, usize)>
    ensures found { result ≡ number_at bytes.now }
    ensures within { IfSome result (λ found. found.1 ≤ length bytes.now) }
{
    let whole = digits_at(bytes);
    let fraction = fraction_at(&bytes[whole..]);
    if whole + fraction > MAX_DIGITS {
        return None;
    }
    if fraction == 0 {
        Some((Form::Number, whole))
    } else {
        Some((Form::Number, whole + 1 + fraction))
    }
}

// A text, by the bytes after its opening quote.
fn words_at(inside: &[u8]) -> Option<(Form, usize)>
    ensures found { result ≡ words_at inside.now }
    ensures some { IfSome result (λ found. 0 < found.1) }
    ensures within { IfSome result (λ found. found.1 ≤ length inside.now + 1) }
{
    let mut pending = false;
    for (index, byte) in inside.iter().enumerate() {
        let is_quote = *byte == b'\'';
        if pending && !is_quote {
            return Some((Form::Words, index + 1));
        }
        pending = !pending && is_quote;
    }
    pending.then_some((Form::Words, inside.len() + 1))
}

fn sign_at(bytes: &[u8]) -> Option<(Form, usize)>
    ensures found { result ≡ sign_at bytes.now }
    ensures some { IfSome result (λ found. 0 < found.1) }
    ensures within { IfSome result (λ found. found.1 ≤ length bytes.now) }
{
    let first = *bytes.first()?;
    if let [_, second, ..] = bytes {
        if begins_comment(first, *second) {
            return None;
        }
        if let Some(sign) = sign_of_two(first, *second) {
            return Some((Form::Sign(sign), 2));
        }
    }
    let sign = sign_of_one(first)?;
    Some((Form::Sign(sign), 1))
}

fn form_at(bytes: &[u8]) -> Option<(Form, usize)>
    ensures form { result ≡ form_at bytes.now }
    ensures within { IfSome result (λ found. found.1 ≤ length bytes.now) }
    ensures some { IfSome result (λ found. 0 < found.1) }
{
    let first = *bytes.first()?;
    if begins_name(first) {
        name_at(bytes)
    } else if first.is_ascii_digit() {
        number_at(bytes)
    } else if first == b'\'' {
        words_at(&bytes[1..])
    } else if first == b'"' {
        quoted_at(&bytes[1..])
    } else {
        sign_at(bytes)
    }
}

/// The token at the front of the bytes: what it is, and its text. `None` comes where no token begins there.
pub fn token_at(bytes: &[u8]) -> Option<(Form, &str)>
    ensures found { option_map (λ found. (found.0, found.1.now)) result ≡ token_at bytes.now }
    ensures some { IfSome result (λ found. 0 < length found.1.now) }
    ensures within { IfSome result (λ found. length found.1.now ≤ length bytes.now) }
    ensures front { IfSome result (λ found. found.1.now ≡ take (length found.1.now) bytes.now) }
{
    let (form, length) = form_at(bytes)?;
    match str::from_utf8(&bytes[..length]) {
        Ok(text) => Some((form, text)),
        Err(_) => None,
    }
}
