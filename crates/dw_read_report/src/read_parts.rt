//! The parts of a line as they are read: labels and numbers, each at the front of what is left of it.
ghost use Rattle.std.specs.Prelude.{◌≡◌, ◌≤◌, true, Some, None, IfOk, MatchOption};
ghost use Rattle.std.specs.Char.{is_ascii_digit};
ghost use Rattle.std.specs.List.{list_all};
ghost use Rattle.dw_read_report.specs.Reading.{Gives, after, after_digits, after_label, digits_at, has_zero_first};
ghost use Rattle.dw_read_report.specs.Reading.{long_number, number_at, number_of, short_number, statement_at};

use crate::faults::LineFault;

/// The bytes after `label`, where they begin with it.
pub fn after_label<'a>(bytes: &'a [u8], label: &str) -> Option<&'a [u8]>
    ensures { MatchOption result
        (after_label label.now bytes.now ≡ None) (λ rest. after_label label.now bytes.now ≡ Some rest.now) }
{
    match bytes.strip_prefix(label.as_bytes()) {
        Some(rest) => Some(rest),
        None => None,
    }
}

/// The bytes after `label`, with which they begin.
pub fn read_label<'a>(bytes: &'a [u8], label: &str) -> Result<&'a [u8], LineFault>
    ensures { Gives (λ rest. rest.now) result (after_label label.now bytes.now) }
{
    match after_label(bytes, label) {
        Some(rest) => Ok(rest),
        None => Err(LineFault::Bad),
    }
}

/// The digits that the bytes begin with, and the bytes after them.
fn split_digits(bytes: &[u8]) -> (&[u8], &[u8])
    ensures digits { result.0.now ≡ digits_at bytes.now }
    ensures rest { result.1.now ≡ after_digits bytes.now }
    ensures all { list_all is_ascii_digit result.0.now ≡ true }
{
    for (index, byte) in bytes.iter().enumerate() {
        if !byte.is_ascii_digit() {
            return bytes.split_at(index);
        }
    }
    bytes.split_at(bytes.len())
}

/// Whether digits have a zero before another digit.
fn has_zero_first(digits: &[u8]) -> bool
    ensures { result ≡ has_zero_first digits.now }
{
    matches!(digits, [b'0', _, ..])
}

/// The number that digits write, where they write it as it is printed, and it is below 2^64.
fn number_of(digits: &[u8]) -> Option<u64>
    requires { list_all is_ascii_digit digits.now ≡ true }
    ensures { result ≡ number_of digits.now }
{
    if has_zero_first(digits) {
        return None;
    }
    let Ok(text) = str::from_utf8(digits) else {
        return None;
    };
    match text.parse::<u64>() {
        Ok(number) => Some(number),
        Err(_) => None,
    }
}

/// A number from `least` to `most`.
#[tactic(auto, unfolding(crate::specs::Reading::number_at))]
pub fn read_number(bytes: &[u8], least: u64, most: u64) -> Result<(u64, &[u8]), LineFault>
    ensures gives { Gives (λ x. (x.0, x.1.now)) result (number_at least most bytes.now) }
    ensures range { IfOk result (λ x. x.0 ≤ most) }
{
    let (digits, rest) = split_digits(bytes);
    let Some(value) = number_of(digits) else {
        return Err(LineFault::Bad);
    };
    if value < least || most < value {
        return Err(LineFault::Bad);
    }
    Ok((value, rest))
}

/// A number that fits 32 bits.
pub fn read_short(bytes: &[u8]) -> Result<(u32, &[u8]), LineFault>
    ensures { Gives (λ x. (x.0, x.1.now)) result (short_number bytes.now) }
{
    let (value, rest) = read_number(bytes, 0, 4_294_967_295)?;
    Ok((value as u32, rest))
}

/// A number that fits 64 bits.
pub fn read_long(bytes: &[u8]) -> Result<(u64, &[u8]), LineFault>
    ensures { Gives (λ x. (x.0, x.1.now)) result (long_number bytes.now) }
{
    read_number(bytes, 0, 18_446_744_073_709_551_615)
}

/// A number that fits 32 bits, after a label.
pub fn read_short_after<'a>(bytes: &'a [u8], label: &str) -> Result<(u32, &'a [u8]), LineFault>
    ensures { Gives (λ x. (x.0, x.1.now)) result (after label.now short_number bytes.now) }
{
    read_short(read_label(bytes, label)?)
}

/// A number that fits 64 bits, after a label.
pub fn read_long_after<'a>(bytes: &'a [u8], label: &str) -> Result<(u64, &'a [u8]), LineFault>
    ensures { Gives (λ x. (x.0, x.1.now)) result (after label.now long_number bytes.now) }
{
    read_long(read_label(bytes, label)?)
}

/// A session and a statement.
#[tactic(auto, unfolding(crate::specs::Reading::statement_at))]
pub fn read_statement(bytes: &[u8]) -> Result<((u32, u32), &[u8]), LineFault>
    ensures { Gives (λ x. (x.0, x.1.now)) result (statement_at bytes.now) }
{
    let (session, rest) = read_short(bytes)?;
    let (statement, rest) = read_short_after(rest, " ")?;
    Ok(((session, statement), rest))
}
