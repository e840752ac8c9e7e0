//! MOSTLY8, MOSTLY16 and MOSTLY32: a short value in one, two or four bytes, another behind a mark in full width.

ghost use Rattle.std.specs.Prelude.{◌≡◌, ◌≤◌, length, All, IfOk, IfErr};
ghost use Rattle.dw_codec_plain.specs.Numbers.{IsWidth, FitsWidth};
ghost use Rattle.dw_codec_plain.specs.Spelling.{IsListOf, Explains};
ghost use Rattle.dw_codec_plain.specs.Encodings.{mostly, IsMostlyStep};

use crate::fault::CodecFault;
use crate::step::{is_near, push_short_or_full, short_or_full_at, short_or_full_front};
use std::alloc::{AllocError, Global};

// How many bytes the values take, which is what the encoder reserves.
fn spelled_len(width: u8, step: u8, values: &[i128]) -> usize
    requires { IsMostlyStep step }
{
    let short = usize::from(step);
    let full = short + usize::from(width);
    let mut len = 0usize;
    for value in values {
        len = len.saturating_add(if is_near(step, 0, *value) {
            short
        } else {
            full
        });
    }
    len
}

/// The MOSTLY spelling of at most 4,096 values of `width` bytes, with short values in `step` bytes. An `Err` comes
/// only for want of memory.
pub fn encode_mostly(
    alloc: Global,
    width: u8,
    step: u8,
    values: &[i128],
) -> Result<Vec<u8>, AllocError>
    requires width { IsWidth width }
    requires step { IsMostlyStep step }
    requires count { length values.now ≤ 4096 }
    requires fit { All (FitsWidth width) values.now }
    ensures { IfOk result (λ bytes. bytes.items ≡ mostly width step values.now) }
{
    let mut bytes = Vec::with_capacity(alloc, spelled_len(width, step, values))?;
    for value in values {
        push_short_or_full(&mut bytes, width, step, 0, *value)?;
    }
    Ok(bytes)
}

/// The `count` values of `width` bytes of which the bytes are the MOSTLY spelling, with short values in `step` bytes.
///
/// `Damaged` comes exactly where the bytes are not such a spelling, and `Memory` for want of memory.
pub fn decode_mostly(
    alloc: Global,
    width: u8,
    step: u8,
    bytes: &[u8],
    count: u32,
) -> Result<Vec<i128>, CodecFault>
    requires width { IsWidth width }
    requires step { IsMostlyStep step }
    requires count { count ≤ 4096 }
    ensures values { IfOk result (λ values. IsListOf (FitsWidth width) count values.items × (bytes.now ≡ mostly width step values.items)) }
    ensures fault { IfErr result (λ fault. Explains fault (mostly width step) (FitsWidth width) count bytes.now) }
{
    let mut values = Vec::with_capacity(alloc, count as usize)?;
    let mut rest = bytes;
    for _ in 0..count {
        match short_or_full_at(width, step, 0, rest) {
            Some((value, size)) => {
                values.push(value)?;
                let (_, after) = rest.split_at(size);
                rest = after;
            }
            None => {
                let front = short_or_full_front(width, step, 0, rest);
                return Err(CodecFault::Damaged {
                    place: (bytes.len() - rest.len() + front) as u64,
                });
            }
        }
    }
    if !rest.is_empty() {
        return Err(CodecFault::Damaged {
            place: (bytes.len() - rest.len()) as u64,
        });
    }
    Ok(values)
}
