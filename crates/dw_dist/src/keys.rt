//! The slice of a key's value.
ghost use Rattle.std.specs.Prelude.{◌≡◌, ◌<◌, ◌≤◌};
ghost use Rattle.dw_dist.specs.Placing.{text_hash, with_byte, remainder, key_slice};

use dw_value::Value;

/// The hash of a text.
fn text_hash(bytes: &[u8]) -> u32
    ensures { result ≡ text_hash bytes.now }
{
    let mut hash = 0;
    for byte in bytes {
        hash = with_byte(hash, *byte);
    }
    hash
}

/// The hash of a text with one more byte.
fn with_byte(hash: u32, byte: u8) -> u32
    ensures { result ≡ with_byte hash byte }
{
    ((31 * u64::from(hash) + u64::from(byte)) % 4_294_967_296) as u32
}

/// The remainder of a number, from 0 to `slices` - 1.
fn remainder(number: i128, slices: u32) -> u32
    requires { 1 ≤ slices }
    ensures value { result ≡ remainder number slices }
    ensures below { result < slices }
{
    number.rem_euclid(i128::from(slices)) as u32
}

/// The slice of a key's value, of so many in all.
pub(crate) fn key_slice(key: &Value, slices: u32) -> u32
    requires { 1 ≤ slices }
    ensures { result ≡ key_slice key.now slices }
{
    match key {
        Value::Number(number) => remainder(*number, slices),
        Value::Words(text) => text_hash(text.as_bytes()) % slices,
        Value::Day(day) => remainder(i128::from(*day), slices),
        Value::Truth(truth) => u32::from(*truth) % slices,
        Value::Null => 0,
    }
}
