//! Numbers of one, two, four, eight or sixteen bytes, in two's complement, least byte first.

ghost use Rattle.std.specs.Prelude.{◌≡◌, [], ◌∷◌, ◌≤◌, ◌<◌, ◌-◌, ◌^◌, ◌++◌, ◌≤ℤ◌, ◌↔◌, ℤ, pos, neg_ℤ, length, take, replicate, IsTrue, OnOk};
ghost use Rattle.dw_codec_plain.specs.Numbers.{IsWidth, half, FitsWidth, natural_of, number, IsNumberWithin};
ghost use Rattle.dw_codec_plain.specs.Spelling.{Begins, IsLongestFront};

use std::alloc::AllocError;

/// Half the range of a number of `width` bytes.
pub fn half_range(width: u8) -> u128
    requires { IsWidth width }
    ensures value { result ≡ half width }
    ensures least { 128 ≤ result }
    ensures greatest { result ≤ 2 ^ 127 }
{
    1 << (8 * u32::from(width) - 1)
}

/// The least number of `width` bytes.
pub fn least_number(width: u8) -> i128
    requires { IsWidth width }
    ensures { result ≡ neg_ℤ (pos (half width)) }
{
    -((half_range(width) - 1) as i128) - 1
}

/// The greatest number of `width` bytes.
pub fn greatest_number(width: u8) -> i128
    requires { IsWidth width }
    ensures { result ≡ pos (half width - 1) }
{
    (half_range(width) - 1) as i128
}

/// Whether a value is in the range of a number of `width` bytes.
pub fn fits_width(width: u8, value: i128) -> bool
    requires { IsWidth width }
    ensures { IsTrue result ↔ FitsWidth width value }
{
    least_number(width) <= value && value <= greatest_number(width)
}

/// At most sixteen bytes, with zeros after them.
fn padded(bytes: &[u8]) -> [u8; 16]
    requires { length bytes.now ≤ 16 }
    ensures { result ≡ bytes.now ++ replicate (16 - length bytes.now) 0 }
{
    let mut full = [0u8; 16];
    full[..bytes.len()].copy_from_slice(bytes);
    full
}

/// The natural number that at most sixteen bytes are, least first.
pub fn natural(bytes: &[u8]) -> u128
    requires { length bytes.now ≤ 16 }
    ensures { result ≡ natural_of bytes.now }
{
    match bytes {
        [a] => u128::from(*a),
        [a, b] => natural_of_two(*a, *b),
        [a, b, c, d] => natural_of_four(*a, *b, *c, *d),
        [a, b, c, d, e, f, g, h] => natural_of_eight(*a, *b, *c, *d, *e, *f, *g, *h),
        _ => u128::from_le_bytes(padded(bytes)),
    }
}

/// The natural number that two bytes are, least first.
fn natural_of_two(a: u8, b: u8) -> u128
    ensures { result ≡ natural_of (a ∷ b ∷ []) }
{
    u128::from(u16::from_le_bytes([a, b]))
}

/// The natural number that four bytes are, least first.
fn natural_of_four(a: u8, b: u8, c: u8, d: u8) -> u128
    ensures { result ≡ natural_of (a ∷ b ∷ c ∷ d ∷ []) }
{
    u128::from(u32::from_le_bytes([a, b, c, d]))
}

/// The natural number that eight bytes are, least first.
fn natural_of_eight(a: u8, b: u8, c: u8, d: u8, e: u8, f: u8, g: u8, h: u8) -> u128
    ensures { result ≡ natural_of (a ∷ b ∷ c ∷ d ∷ e ∷ f ∷ g ∷ h ∷ []) }
{
    u128::from(u64::from_le_bytes([a, b, c, d, e, f, g, h]))
}

/// The number that the first `width` bytes are.
pub fn number_at(width: u8, bytes: &[u8]) -> i128
    requires width { IsWidth width }
    requires enough { width ≤ length bytes.now }
    ensures fits { FitsWidth width result }
    ensures spells { number width result ≡ take width bytes.now }
{
    let unsigned = natural(&bytes[..usize::from(width)]);
    let half = half_range(width);
    if unsigned < half {
        unsigned as i128
    } else {
        least_number(width) + (unsigned - half) as i128
    }
}

/// Writes a value at the end, in `width` bytes. An `Err` may leave some of them there.
pub fn push_number(out: &mut Vec<u8>, width: u8, value: i128) -> Result<(), AllocError>
    requires width { IsWidth width }
    ensures ok { OnOk result (out.new.items ≡ out.old.items ++ number width value) }
{
    let bytes = value.to_le_bytes();
    out.extend_from_slice(&bytes[..usize::from(width)])
}

/// Whether the bytes are the number, in as many bytes, of some value from `low` to `high`.
fn is_number_within(low: i128, high: i128, bytes: &[u8]) -> bool
    requires order { low ≤ℤ high }
    requires most { length bytes.now ≤ 16 }
    ensures { IsTrue result ↔ IsNumberWithin (length bytes.now) low high bytes.now }
{
    let wanted = natural(bytes);
    let start = natural(&low.to_le_bytes()[..bytes.len()]);
    let gap = if start <= wanted {
        wanted - start
    } else {
        natural(&[255; 16][..bytes.len()]) - start + (wanted + 1)
    };
    gap <= high.abs_diff(low)
}

/// How many of the first bytes begin the number, in `width` bytes, of some value from `low` to `high`.
pub fn longest_front(width: u8, low: i128, high: i128, bytes: &[u8]) -> usize
    requires order { low ≤ℤ high }
    requires most { width ≤ 16 }
    ensures { IsLongestFront (IsNumberWithin width low high) bytes.now result }
{
    let most = bytes.len().min(usize::from(width));
    for len in 0..most {
        if !is_number_within(low, high, &bytes[..len + 1]) {
            return len;
        }
    }
    most
}
