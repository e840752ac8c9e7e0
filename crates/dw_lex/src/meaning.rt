//! What a token says.
ghost use Rattle.std.specs.Prelude.{◌≡◌, ◌++◌, false, IfOk};
ghost use Rattle.std.specs.Char.{is_ascii_digit};
ghost use Rattle.std.specs.List.{list_all};
ghost use Rattle.dw_lex.specs.Meaning.{between_quotes, said_by, said_after, number_of_digits, number_with_places};

use std::alloc::{AllocError, Global};

/// What stands between the first double quote and the next one.
pub fn between_quotes(text: &str) -> &str
    ensures { result.now ≡ between_quotes text.now }
{
    let Some((_, inside)) = text.split_once('"') else {
        return "";
    };
    match inside.split_once('"') {
        Some((name, _)) => name,
        None => inside,
    }
}

// The bytes of a text after its opening quote.
fn said_after(alloc: Global, bytes: &[u8]) -> Result<Vec<u8>, AllocError>
    ensures { IfOk result (λ said. said.items ≡ said_after bytes.now false) }
{
    let mut said = Vec::new(alloc);
    let mut pending = false;
    for byte in bytes {
        let is_left_out = *byte == b'\'' && !pending;
        if !is_left_out {
            said.push(*byte)?;
        }
        pending = is_left_out;
    }
    Ok(said)
}

/// The bytes of a text without the quotes round it, and with one quote for each two.
pub fn said_by(alloc: Global, bytes: &[u8]) -> Result<Vec<u8>, AllocError>
    ensures { IfOk result (λ said. said.items ≡ said_by bytes.now) }
{
    match bytes {
        [b'\'', inside @ ..] => said_after(alloc, inside),
        _ => said_after(alloc, bytes),
    }
}

fn is_all_digits(text: &[u8]) -> bool
    ensures { result ≡ list_all is_ascii_digit text.now }
{
    text.iter().all(|byte| byte.is_ascii_digit())
}

/// The number that digits write, where it is below 2^128.
pub fn number_of_digits(text: &str) -> Option<u128>
    ensures { result ≡ number_of_digits text.now }
{
    if is_all_digits(text.as_bytes()) {
        text.parse::<u128>().ok()
    } else {
        None
    }
}

// Two texts as one.
fn joined(alloc: Global, first: &str, second: &str) -> Result<String, AllocError>
    ensures { IfOk result (λ joined. joined.bytes.items ≡ first.now ++ second.now) }
{
    let mut joined = String::new(alloc);
    joined.push_str(first)?;
    joined.push_str(second)?;
    Ok(joined)
}

/// The number that digits write, with a point among them or without, where it is below 2^128 without its point, and how
/// many digits stand after the point.
pub fn number_with_places(alloc: Global, text: &str) -> Result<Option<(u128, usize)>, AllocError>
    ensures { IfOk result (λ number. number ≡ number_with_places text.now) }
{
    let Some((whole, fraction)) = text.split_once('.') else {
        return Ok(match number_of_digits(text) {
            Some(number) => Some((number, 0)),
            None => None,
        });
    };
    let digits = joined(alloc, whole, fraction)?;
    Ok(match number_of_digits(digits.as_str()) {
        Some(number) => Some((number, fraction.len())),
        None => None,
    })
}
