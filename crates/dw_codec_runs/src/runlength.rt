//! RUNLENGTH: each run of equal neighbours by how long it is and its value.

ghost use Rattle.std.specs.Prelude.{◌≡◌, ◌≤◌, ◌<◌, ◌++◌, ◌↔◌, ℕ, ℤ, List, length, take, drop, replicate, All, IsTrue, IfOk, IfErr, IfSome, IfNone, Some, None, OnOk};
ghost use Rattle.dw_codec_plain.specs.Numbers.{IsWidth, FitsWidth, number};
ghost use Rattle.dw_codec_plain.specs.Spelling.{IsListOf, IsItem, NoItem, IsLongestFront, Explains};
ghost use Rattle.dw_codec_runs.specs.Runs.{run_bytes, runlength, StartsOther, IsOther, IsRun, value_item, run_item};

use crate::runlength_times::{push_times, times_at, times_front};
use dw_codec_plain::CodecFault;
use dw_codec_plain::numbers::{number_at, push_number};
use std::alloc::{AllocError, Global};

// How many of the first values equal this one.
fn equal_len(value: i128, values: &[i128]) -> usize
    ensures within { result ≤ length values.now }
    ensures equal { take result values.now ≡ replicate result value }
    ensures stops { StartsOther (Some value) (drop result values.now) }
{
    for (len, other) in values.iter().enumerate() {
        if *other != value {
            return len;
        }
    }
    values.len()
}

// Writes a run at the end.
fn push_run(out: &mut Vec<u8>, width: u8, times: u16, value: i128) -> Result<(), AllocError>
    requires { IsWidth width }
    ensures ok { OnOk result (out.new.items ≡ out.old.items ++ run_bytes (number width) (record { times = times; value = value })) }
{
    push_times(out, times)?;
    push_number(out, width, value)
}

/// The RUNLENGTH spelling of at most 4,096 values, each in `width` bytes. An `Err` comes only for want of memory.
pub fn encode_runlength(alloc: Global, width: u8, values: &[i128]) -> Result<Vec<u8>, AllocError>
    requires width { IsWidth width }
    requires count { length values.now ≤ 4096 }
    requires fit { All (FitsWidth width) values.now }
    ensures { IfOk result (λ bytes. bytes.items ≡ runlength width values.now) }
{
    let mut bytes = Vec::new(alloc);
    let mut rest = values;
    while let Some((value, others)) = rest.split_first() {
        let equal = equal_len(*value, others);
        push_run(&mut bytes, width, 1 + equal as u16, *value)?;
        let (_, after) = others.split_at(equal);
        rest = after;
    }
    Ok(bytes)
}

// Whether the value is the one before.
fn is_same(before: Option<i128>, value: i128) -> bool
    ensures { IsTrue result ↔ (before ≡ Some value) }
{
    before == Some(value)
}

// The run at the front of the bytes, behind a run of the value `before` and with at most `left` values: its length,
// its value and the bytes behind it. `None` where no such run is there.
fn run_at(
    width: u8,
    before: Option<i128>,
    left: usize,
    bytes: &[u8],
) -> Option<(usize, i128, &[u8])>
    requires width { IsWidth width }
    requires left { left ≤ 4096 }
    ensures run { IfSome result (λ found. IsRun (FitsWidth width) before left (record { times = found.0; value = found.1 })) }
    ensures spells { IfSome result (λ found. bytes.now ≡ run_bytes (number width) (record { times = found.0; value = found.1 }) ++ found.2.now) }
    ensures none { IfNone result (NoItem (run_item (number width)) (IsRun (FitsWidth width) before left) None bytes.now) }
{
    let (times, behind) = times_at(left, bytes)?;
    if behind.len() < usize::from(width) {
        return None;
    }
    let value = number_at(width, behind);
    if is_same(before, value) {
        return None;
    }
    let (_, after) = behind.split_at(usize::from(width));
    Some((times, value, after))
}

// How many of the first bytes begin some value other than the one before. Where it is that one, all but its last byte
// do: another byte there is another value.
fn other_front(width: u8, before: Option<i128>, bytes: &[u8]) -> usize
    requires width { IsWidth width }
    ensures { IsLongestFront (IsItem (value_item (number width)) (IsOther (FitsWidth width) before) None) bytes.now result }
{
    if bytes.len() < usize::from(width) {
        return bytes.len();
    }
    if is_same(before, number_at(width, bytes)) {
        return usize::from(width) - 1;
    }
    usize::from(width)
}

// How many of the first bytes begin some run.
fn run_front(width: u8, before: Option<i128>, left: usize, bytes: &[u8]) -> usize
    requires width { IsWidth width }
    requires some { 0 < left }
    requires most { left ≤ 4096 }
    ensures { IsLongestFront (IsItem (run_item (number width)) (IsRun (FitsWidth width) before left) None) bytes.now result }
{
    match times_at(left, bytes) {
        Some((_, behind)) => 2 + other_front(width, before, behind),
        None => times_front(left, bytes),
    }
}

// Puts a value at the end so many times. An `Err` may leave some of them there.
fn push_equal(out: &mut Vec<i128>, times: usize, value: i128) -> Result<(), AllocError>
    ensures ok { OnOk result (out.new.items ≡ out.old.items ++ replicate times value) }
{
    for _ in 0..times {
        out.push(value)?;
    }
    Ok(())
}

/// The `count` values, each in `width` bytes, of which the bytes are the RUNLENGTH spelling.
///
/// `Damaged` comes exactly where the bytes are not such a spelling, and `Memory` for want of memory.
pub fn decode_runlength(
    alloc: Global,
    width: u8,
    bytes: &[u8],
    count: u32,
) -> Result<Vec<i128>, CodecFault>
    requires width { IsWidth width }
    requires count { count ≤ 4096 }
    ensures values { IfOk result (λ values. IsListOf (FitsWidth width) count values.items × (bytes.now ≡ runlength width values.items)) }
    ensures fault { IfErr result (λ fault. Explains fault (runlength width) (FitsWidth width) count bytes.now) }
{
    let mut values = Vec::with_capacity(alloc, count as usize)?;
    let mut left = count as usize;
    let mut before = None;
    let mut rest = bytes;
    while 0 < left {
        match run_at(width, before, left, rest) {
            Some((times, value, after)) => {
                push_equal(&mut values, times, value)?;
                left -= times;
                before = Some(value);
                rest = after;
            }
            None => {
                let front = run_front(width, before, left, rest);
                return Err(CodecFault::Damaged {
                    place: (bytes.len() - rest.len() + front) as u64,
                });
            }
        }
    }
    if !rest.is_empty() {
        return Err(CodecFault::Damaged {
            place: (bytes.len() - rest.len()) as u64,
        });
    }
    Ok(values)
}

/// RUNLENGTH has one form: two lists of at most 65,535 values with one spelling are equal. A law, which does nothing
/// when it is called.
pub fn runlength_has_one_form()
    ensures { (width : ℕ) (values others : List ℤ) → IsWidth width → length values ≤ 65535 → length others ≤ 65535 → All (FitsWidth width) values
        → All (FitsWidth width) others → runlength width values ≡ runlength width others → values ≡ others }
{}
