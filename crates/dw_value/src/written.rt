//! Numbers that texts write.
ghost use Rattle.std.specs.Prelude.{◌≡◌, ◌≤◌, ◌<◌, ◌++◌, ◌^◌, ◌-◌, ◌≤ℤ◌, ◌&&◌, ◌==◌, not, pos, min, nat_lt, length, unsigned_abs, true, Some, FitsSigned, SomeIff};
ghost use Rattle.std.specs.Int.{w128};
ghost use Rattle.std.specs.List.{fold, list_all, list_any, position_or_len};
ghost use Rattle.dw_value.specs.Kinds.{is_whole};
ghost use Rattle.dw_value.specs.Texts.{with_digit, number_of, without_end_spaces};
ghost use Rattle.dw_value.specs.Arithmetic.{nearest};
ghost use Rattle.dw_value.specs.Written.{with_sign, without_front_spaces, is_digit, is_digits, is_point, written, size_written, size_rescaled, number_within, written_in, number_in};

use crate::columns::holds_number;
use crate::kinds::{Kind, Misread};
use crate::scaling::raise;
use crate::texts::ends_in_space;

/// The text up to its last byte that isn't a space.
fn without_end_spaces(text: &[u8]) -> &[u8]
    ensures { result.now ≡ without_end_spaces text.now }
{
    let mut end = text.len();
    while ends_in_space(&text[..end]) {
        end -= 1;
    }
    &text[..end]
}

/// The text from its first byte on that isn't a space.
fn without_front_spaces(text: &[u8]) -> &[u8]
    ensures { result.now ≡ without_front_spaces text.now }
{
    let mut start = 0;
    while start < text.len() && text[start] == b' ' {
        start += 1;
    }
    &text[start..]
}

/// Whether the byte is a digit.
fn is_digit(byte: u8) -> bool
    ensures { result ≡ is_digit byte }
{
    48 <= byte && byte <= 57
}

/// Whether there is at least one digit, and nothing else.
fn is_digits(text: &[u8]) -> bool
    ensures { result ≡ is_digits text.now }
{
    for byte in text {
        if !is_digit(*byte) {
            return false;
        }
    }
    !text.is_empty()
}

/// The place of the first point, or the length where there is none.
fn point_place(text: &[u8]) -> usize
    ensures place { result ≡ position_or_len is_point text.now }
    ensures within { result ≤ length text.now }
    ensures point { nat_lt result (length text.now) ≡ list_any is_point text.now }
{
    let mut place = 0;
    while place < text.len() && text[place] != b'.' {
        place += 1;
    }
    place
}

/// The number that more digits make of one, up to the greatest number of 128 bits.
fn number_after(start: u128, digits: &[u8]) -> u128
    ensures { result ≡ min (fold with_digit start digits.now) (2 ^ 128 - 1) }
{
    let mut number = start;
    for digit in digits {
        let digit = u128::from(digit.saturating_sub(b'0'));
        number = number.saturating_mul(10).saturating_add(digit);
    }
    number
}

/// The size that digits write in two parts. `None` comes exactly where it doesn't fit in 128 bits with a sign.
fn digits_size(whole: &[u8], fraction: &[u8]) -> Option<i128>
    ensures { SomeIff result (FitsSigned w128 (pos (number_of (whole.now ++ fraction.now))))
        (pos (number_of (whole.now ++ fraction.now))) }
{
    let digits = number_after(number_after(0, whole), fraction);
    match i128::try_from(digits) {
        Ok(size) => Some(size),
        Err(_) => None,
    }
}

/// The same, rounded to the first `kept` digits after the point, where there are more.
fn rounded_size(whole: &[u8], fraction: &[u8], kept: usize) -> Option<i128>
    requires digits { list_all is_digit fraction.now ≡ true }
    requires kept { kept < length fraction.now }
    ensures { SomeIff result
        (FitsSigned w128 (pos (nearest (number_of (whole.now ++ fraction.now)) (10 ^ (length fraction.now - kept)))))
        (pos (nearest (number_of (whole.now ++ fraction.now)) (10 ^ (length fraction.now - kept)))) }
{
    let size = digits_size(whole, &fraction[..kept]);
    if fraction[kept] < b'5' {
        return size;
    }
    match size {
        Some(size) if size < i128::MAX => Some(size + 1),
        Some(_) => None,
        None => None,
    }
}

/// The size that digits before and after a point write, at a scale. `None` comes exactly where it doesn't fit in 128
/// bits with a sign.
fn size_at(whole: &[u8], fraction: &[u8], scale: u8) -> Option<i128>
    requires { list_all is_digit fraction.now ≡ true }
    ensures { SomeIff result
        (FitsSigned w128 (pos (size_rescaled (length fraction.now) scale (number_of (whole.now ++ fraction.now)))))
        (pos (size_rescaled (length fraction.now) scale (number_of (whole.now ++ fraction.now)))) }
{
    let places = fraction.len();
    let scale = usize::from(scale);
    if places > scale {
        return rounded_size(whole, fraction, scale);
    }
    match digits_size(whole, fraction) {
        Some(size) => raise(size, (scale - places) as u8),
        None => None,
    }
}

/// The number, where a column of this kind holds it.
fn number_within(kind: Kind, number: i128) -> Result<i128, Misread>
    ensures { result ≡ number_within kind number }
{
    if holds_number(kind, number) {
        Ok(number)
    } else {
        Err(Misread::Range)
    }
}

/// Whether there are digits after a point in a number of a kind that takes none.
fn has_wrong_point(to: Kind, fraction: &[u8]) -> bool
    ensures { result ≡ (is_whole to && not (length fraction.now == 0)) }
{
    to.is_whole() && !fraction.is_empty()
}

/// A size, or the same below zero.
fn signed(below: bool, size: i128) -> i128
    requires { pos 0 ≤ℤ size }
    ensures { result ≡ with_sign below (unsigned_abs size) }
{
    if below { -size } else { size }
}

/// The number of digits before and after a point, below zero or not.
fn read_parts(to: Kind, below: bool, whole: &[u8], fraction: &[u8]) -> Result<i128, Misread>
    requires { list_all is_digit fraction.now ≡ true }
    ensures { result ≡ written_in to (Some (written below whole.now fraction.now)) }
{
    if has_wrong_point(to, fraction) {
        return Err(Misread::Form);
    }
    match size_at(whole, fraction, to.scale()) {
        Some(size) => number_within(to, signed(below, size)),
        None => Err(Misread::Range),
    }
}

/// The number that a text writes after its sign.
fn read_size(to: Kind, below: bool, text: &[u8]) -> Result<i128, Misread>
    ensures { result ≡ written_in to (size_written below text.now) }
{
    let place = point_place(text);
    let whole = &text[..place];
    let fraction = &text[text.len().min(place + 1)..];
    if !is_digits(whole) {
        return Err(Misread::Form);
    }
    if place < text.len() && !is_digits(fraction) {
        return Err(Misread::Form);
    }
    read_parts(to, below, whole, fraction)
}

/// The number of a kind that a text writes, however long it is: spaces (of the byte 32) around it, a sign `+` or `-` or
/// none, digits, and where there is a point digits after it. It is read exactly and rounded to the kind's scale, a half
/// away from zero; it is the coefficient of a DECIMAL.
///
/// `Form` comes exactly for a text of another form, and for one with a point where the kind is SMALLINT, INTEGER or
/// BIGINT; `Range` exactly for a number outside the kind's range, as `admit` has it. It takes no memory.
pub fn read_number(to: Kind, text: &[u8]) -> Result<i128, Misread>
    ensures { result ≡ number_in to text.now }
{
    let text = without_front_spaces(without_end_spaces(text));
    match text.first() {
        None => Err(Misread::Form),
        Some(b'-') => read_size(to, true, &text[1..]),
        Some(b'+') => read_size(to, false, &text[1..]),
        Some(_) => read_size(to, false, text),
    }
}
