//! The two bytes before the items of a dictionary's spelling.

ghost use Rattle.std.specs.Prelude.{◌≡◌, ◌≤◌, ◌<◌, ◌↔◌, Bool, length, take, true, IsTrue, IfOk, OnOk, IfErr};
ghost use Rattle.dw_codec_plain.specs.Numbers.{low_bytes};
ghost use Rattle.dw_codec_plain.specs.Spelling.{IsLongestFront};
ghost use Rattle.dw_codec_runs.specs.DictionaryParts.{IsShortHead, IsHead, IsHeadOf, IsFirstByte, NoneFirst};

use dw_codec_plain::numbers::natural;

// What stands behind the head.
pub(crate) enum Head {
    // So many different items, and the place of each.
    Short(usize),
    // All items, more than 256 of them different.
    Long,
}

// Whether `count` items may have so many different ones.
fn is_number(count: u32, number: u128) -> bool
    ensures { IsTrue result ↔ IsShortHead count number (low_bytes 2 number) }
{
    number <= 256 && number <= u128::from(count) && (count == 0 || number > 0)
}

// Whether it is the sign that more than 256 are different, where there may be as many.
fn is_sign(wide: bool, count: u32, number: u128) -> bool
    ensures { IsTrue result ↔ ((wide ≡ true) × (256 < count) × (number ≡ 65535)) }
{
    wide && count > 256 && number == 65535
}

// Whether a head may begin so.
fn is_first(count: u32, byte: u8) -> bool
    ensures { IsTrue result ↔ IsFirstByte count byte }
{
    if byte == 0 {
        count == 0 || count >= 256
    } else {
        u32::from(byte) <= count
    }
}

// How many of the first bytes begin a head, where they begin with none.
fn head_front(count: u32, bytes: &[u8]) -> usize
    ensures { (wide : Bool) → NoneFirst (IsHead wide count) bytes.now → IsLongestFront (IsHead wide count) bytes.now result }
{
    if bytes.is_empty() {
        return 0;
    }
    if is_first(count, bytes[0]) { 1 } else { 0 }
}

// The head of a spelling of `count` items. `Err` where the bytes begin with none: how many of them begin one.
pub(crate) fn head_at(wide: bool, count: u32, bytes: &[u8]) -> Result<Head, usize>
    ensures enough { OnOk result (2 ≤ length bytes.now) }
    ensures head { IfOk result (λ head. IsHeadOf wide count head (take 2 bytes.now)) }
    ensures none { IfErr result (λ _. NoneFirst (IsHead wide count) bytes.now) }
    ensures front { IfErr result (λ place. IsLongestFront (IsHead wide count) bytes.now place) }
{
    if bytes.len() < 2 {
        return Err(head_front(count, bytes));
    }
    let number = natural(&bytes[..2]);
    if is_number(count, number) {
        return Ok(Head::Short(number as usize));
    }
    if is_sign(wide, count, number) {
        return Ok(Head::Long);
    }
    Err(head_front(count, bytes))
}
