//! The fields of a line as they are read: texts, what stands for NULL, and fields that stand one after another.
ghost use Rattle.std.specs.Prelude.{◌≡◌, ℕ, true, false, not, ◌&&◌, [], ◌∷◌, codes, List as Items, None, IfOk, IsErrOf, MatchOption};
ghost use Rattle.std.specs.Str.{is_utf8};
ghost use Rattle.dw_read_report.specs.declared.faults.LineFault.TheVariants.{Bad};
ghost use Rattle.dw_read_report.specs.Reading.{Gives, ends_field, field_after, field_at, meant_by, names_at, row_at};
ghost use Rattle.dw_read_report.specs.Reading.{all_items, sessions_at, shown_at, text_at, unescaped, with_front};

use crate::faults::LineFault;
use crate::read_parts::{after_label, read_label, read_short};
use dw_value::{Field, List, Text};
use std::alloc::Global;

/// The byte that a backslash and this letter stand for.
fn unescaped(letter: u8) -> Option<u8>
    ensures { result ≡ unescaped letter }
{
    match letter {
        b'\\' => Some(b'\\'),
        b'|' => Some(b'|'),
        b'n' => Some(b'\n'),
        b'r' => Some(b'\r'),
        _ => None,
    }
}

/// Whether a byte ends a field: a bar, a line feed or a carriage return.
fn ends_field(byte: u8) -> bool
    ensures { result ≡ ends_field byte }
{
    byte == b'|' || byte == b'\n' || byte == b'\r'
}

/// The byte that a byte of a field stands for, where a backslash stands just before it or doesn't.
fn meant_by(backslash: bool, byte: u8) -> Option<u8>
    ensures { result ≡ meant_by backslash byte }
{
    if backslash {
        unescaped(byte)
    } else {
        Some(byte)
    }
}

/// Takes one more byte of a field that it doesn't end. It gives whether this is the backslash of two bytes.
fn push_byte(text: &mut Vec<u8>, backslash: bool, byte: u8) -> Result<bool, LineFault>
    requires { (not backslash && ends_field byte) ≡ false }
    ensures ok { IfOk result (λ next. (rest : Items ℕ) → with_front text.new.items (field_after next rest)
        ≡ with_front text.old.items (field_after backslash (byte ∷ rest))) }
    ensures bad { IsErrOf result Bad → (rest : Items ℕ) → field_after backslash (byte ∷ rest) ≡ None }
{
    if !backslash && byte == b'\\' {
        return Ok(true);
    }
    let Some(meant) = meant_by(backslash, byte) else {
        return Err(LineFault::Bad);
    };
    text.push(meant)?;
    Ok(false)
}

/// The bytes that a field stands for.
#[tactic(auto, unfolding(crate::specs::Reading::field_at))]
pub fn read_field(alloc: Global, bytes: &[u8]) -> Result<(Vec<u8>, &[u8]), LineFault>
    ensures { Gives (λ x. (x.0.items, x.1.now)) result (field_at bytes.now) }
{
    let mut text = Vec::new(alloc);
    let mut backslash = false;
    for (index, byte) in bytes.iter().enumerate() {
        if !backslash && ends_field(*byte) {
            return Ok((text, &bytes[index..]));
        }
        backslash = push_byte(&mut text, backslash, *byte)?;
    }
    if backslash {
        return Err(LineFault::Bad);
    }
    Ok((text, &bytes[bytes.len()..]))
}

/// The text of these bytes, where they are in UTF-8.
pub fn text_of(bytes: Vec<u8>) -> Option<Text>
    ensures { MatchOption result (is_utf8 bytes.items ≡ false) (λ text. (is_utf8 bytes.items ≡ true) × (text ≡ bytes.items)) }
{
    match String::from_utf8(bytes) {
        Ok(text) => Some(Text::from_string(text)),
        Err(_) => None,
    }
}

/// A text, which is in UTF-8, as a field.
#[tactic(auto, unfolding(crate::specs::Reading::text_at))]
pub fn read_text(alloc: Global, bytes: &[u8]) -> Result<(Text, &[u8]), LineFault>
    ensures { Gives (λ x. (x.0, x.1.now)) result (text_at bytes.now) }
{
    let (text, rest) = read_field(alloc, bytes)?;
    match text_of(text) {
        Some(text) => Ok((text, rest)),
        None => Err(LineFault::Bad),
    }
}

/// A field of an answer.
#[tactic(auto, unfolding(crate::specs::Reading::shown_at))]
fn read_shown(alloc: Global, bytes: &[u8]) -> Result<(Field, &[u8]), LineFault>
    ensures { Gives (λ x. (x.0, x.1.now)) result (shown_at bytes.now) }
{
    if let Some(rest) = after_label(bytes, "\\N") {
        return Ok((Field::Null, rest));
    }
    let (text, rest) = read_text(alloc, bytes)?;
    Ok((Field::Shown(text), rest))
}

/// The numbers of sessions, each after a space.
#[tactic(auto, unfolding(crate::specs::Reading::sessions_at))]
pub fn read_sessions(alloc: Global, bytes: &[u8]) -> Result<(List<u32>, &[u8]), LineFault>
    ensures { Gives (λ x. (x.0, x.1.now)) result (sessions_at bytes.now) }
{
    let mut sessions = List::new(alloc);
    let mut rest = bytes;
    for _ in 0..bytes.len() {
        let Some(item) = after_label(rest, " ") else {
            return Ok((sessions, rest));
        };
        let (session, next) = read_short(item)?;
        sessions.push(session)?;
        rest = next;
    }
    Ok((sessions, rest))
}

/// Texts, each after a bar, put after `first`.
fn read_texts_after(
    first: Text,
    alloc: Global,
    bytes: &[u8],
) -> Result<(List<Text>, &[u8]), LineFault>
    ensures { Gives (λ x. (x.0, x.1.now)) result (with_front (first ∷ []) (all_items (codes "|") text_at bytes.now)) }
{
    let mut texts = List::new(alloc);
    texts.push(first)?;
    let mut rest = bytes;
    for _ in 0..bytes.len() {
        let Some(item) = after_label(rest, "|") else {
            return Ok((texts, rest));
        };
        let (text, next) = read_text(alloc, item)?;
        texts.push(text)?;
        rest = next;
    }
    Ok((texts, rest))
}

/// Fields of an answer, each after a bar, put after `first`.
fn read_fields_after(
    first: Field,
    alloc: Global,
    bytes: &[u8],
) -> Result<(List<Field>, &[u8]), LineFault>
    ensures { Gives (λ x. (x.0, x.1.now)) result (with_front (first ∷ []) (all_items (codes "|") shown_at bytes.now)) }
{
    let mut fields = List::new(alloc);
    fields.push(first)?;
    let mut rest = bytes;
    for _ in 0..bytes.len() {
        let Some(item) = after_label(rest, "|") else {
            return Ok((fields, rest));
        };
        let (shown, next) = read_shown(alloc, item)?;
        fields.push(shown)?;
        rest = next;
    }
    Ok((fields, rest))
}

/// The line of the names of an answer's columns.
#[tactic(auto, unfolding(crate::specs::Reading::names_at))]
pub fn read_names(alloc: Global, bytes: &[u8]) -> Result<(List<Text>, &[u8]), LineFault>
    ensures { Gives (λ x. (x.0, x.1.now)) result (names_at bytes.now) }
{
    let rest = read_label(bytes, "= ")?;
    let (first, rest) = read_text(alloc, rest)?;
    let (names, rest) = read_texts_after(first, alloc, rest)?;
    let rest = read_label(rest, "\n")?;
    Ok((names, rest))
}

/// The line of a row of an answer.
#[tactic(auto, unfolding(crate::specs::Reading::row_at))]
pub fn read_row(alloc: Global, bytes: &[u8]) -> Result<(List<Field>, &[u8]), LineFault>
    ensures { Gives (λ x. (x.0, x.1.now)) result (row_at bytes.now) }
{
    let rest = read_label(bytes, "- ")?;
    let (first, rest) = read_shown(alloc, rest)?;
    let (fields, rest) = read_fields_after(first, alloc, rest)?;
    let rest = read_label(rest, "\n")?;
    Ok((fields, rest))
}
