//! DELTA and DELTA32K: the first value in full, then each difference from the value before.

ghost use Rattle.std.specs.Prelude.{◌≡◌, ◌≤◌, ℕ, ℤ, List, length, All, IfOk, IfErr};
ghost use Rattle.dw_codec_plain.specs.Numbers.{IsWidth, FitsWidth};
ghost use Rattle.dw_codec_plain.specs.Spelling.{IsListOf, Explains};
ghost use Rattle.dw_codec_plain.specs.Encodings.{IsMostlyStep};
ghost use Rattle.dw_codec_delta.specs.Delta.{delta, IsDeltaStep};

use crate::item::{item_at, item_front, item_len, push_item};
use dw_codec_plain::CodecFault;
use std::alloc::{AllocError, Global};

// How many bytes the values take, which is what the encoder reserves.
fn spelled_len(width: u8, step: u8, values: &[i128]) -> usize
    requires { IsMostlyStep step }
{
    let mut len = 0usize;
    let mut before = None;
    for value in values {
        len = len.saturating_add(item_len(width, step, before, *value));
        before = Some(*value);
    }
    len
}

/// The DELTA spelling of at most 4,096 values of `width` bytes, with short differences in `step` bytes. An `Err`
/// comes only for want of memory.
pub fn encode_delta(
    alloc: Global,
    width: u8,
    step: u8,
    values: &[i128],
) -> Result<Vec<u8>, AllocError>
    requires width { IsWidth width }
    requires step { IsDeltaStep step }
    requires count { length values.now ≤ 4096 }
    requires fit { All (FitsWidth width) values.now }
    ensures { IfOk result (λ bytes. bytes.items ≡ delta width step values.now) }
{
    let mut bytes = Vec::with_capacity(alloc, spelled_len(width, step, values))?;
    let mut before = None;
    for value in values {
        push_item(&mut bytes, width, step, before, *value)?;
        before = Some(*value);
    }
    Ok(bytes)
}

/// The `count` values of `width` bytes of which the bytes are the DELTA spelling, with short differences in `step`
/// bytes.
///
/// `Damaged` comes exactly where the bytes are not such a spelling, and `Memory` for want of memory.
pub fn decode_delta(
    alloc: Global,
    width: u8,
    step: u8,
    bytes: &[u8],
    count: u32,
) -> Result<Vec<i128>, CodecFault>
    requires width { IsWidth width }
    requires step { IsDeltaStep step }
    requires count { count ≤ 4096 }
    ensures values { IfOk result (λ values. IsListOf (FitsWidth width) count values.items × (bytes.now ≡ delta width step values.items)) }
    ensures fault { IfErr result (λ fault. Explains fault (delta width step) (FitsWidth width) count bytes.now) }
{
    let mut values = Vec::with_capacity(alloc, count as usize)?;
    let mut before = None;
    let mut rest = bytes;
    for _ in 0..count {
        match item_at(width, step, before, rest) {
            Some((value, size)) => {
                values.push(value)?;
                before = Some(value);
                let (_, after) = rest.split_at(size);
                rest = after;
            }
            None => {
                let front = item_front(width, step, before, rest);
                return Err(CodecFault::Damaged {
                    place: (bytes.len() - rest.len() + front) as u64,
                });
            }
        }
    }
    if !rest.is_empty() {
        return Err(CodecFault::Damaged {
            place: (bytes.len() - rest.len()) as u64,
        });
    }
    Ok(values)
}

/// DELTA has one form: two lists of values with one spelling are equal. A law, which does nothing when it is called.
pub fn delta_has_one_form()
    ensures { (width step : ℕ) (values others : List ℤ) → IsWidth width → IsDeltaStep step → All (FitsWidth width) values → All (FitsWidth width) others
        → delta width step values ≡ delta width step others → values ≡ others }
{}
