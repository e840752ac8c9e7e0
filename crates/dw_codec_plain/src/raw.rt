//! RAW: each number in full width, one after another.

ghost use Rattle.std.specs.Prelude.{◌≡◌, ◌≤◌, length, All, IfOk, IfErr};
ghost use Rattle.dw_codec_plain.specs.Numbers.{IsWidth, FitsWidth};
ghost use Rattle.dw_codec_plain.specs.Spelling.{IsListOf, Explains};
ghost use Rattle.dw_codec_plain.specs.Encodings.{raw};

use crate::fault::CodecFault;
use crate::numbers::{number_at, push_number};
use std::alloc::{AllocError, Global};

/// The RAW spelling of at most 4,096 values, each in `width` bytes. An `Err` comes only for want of memory.
pub fn encode_raw(alloc: Global, width: u8, values: &[i128]) -> Result<Vec<u8>, AllocError>
    requires width { IsWidth width }
    requires count { length values.now ≤ 4096 }
    requires fit { All (FitsWidth width) values.now }
    ensures { IfOk result (λ bytes. bytes.items ≡ raw width values.now) }
{
    let mut bytes = Vec::with_capacity(alloc, values.len() * usize::from(width))?;
    for value in values {
        push_number(&mut bytes, width, *value)?;
    }
    Ok(bytes)
}

/// The `count` values, each in `width` bytes, of which the bytes are the RAW spelling.
///
/// `Damaged` comes exactly where the bytes are not such a spelling, and `Memory` for want of memory.
pub fn decode_raw(
    alloc: Global,
    width: u8,
    bytes: &[u8],
    count: u32,
) -> Result<Vec<i128>, CodecFault>
    requires width { IsWidth width }
    requires count { count ≤ 4096 }
    ensures values { IfOk result (λ values. IsListOf (FitsWidth width) count values.items × (bytes.now ≡ raw width values.items)) }
    ensures fault { IfErr result (λ fault. Explains fault (raw width) (FitsWidth width) count bytes.now) }
{
    let mut values = Vec::with_capacity(alloc, count as usize)?;
    let mut rest = bytes;
    for _ in 0..count {
        if rest.len() < usize::from(width) {
            return Err(CodecFault::Damaged {
                place: bytes.len() as u64,
            });
        }
        values.push(number_at(width, rest))?;
        let (_, after) = rest.split_at(usize::from(width));
        rest = after;
    }
    if !rest.is_empty() {
        return Err(CodecFault::Damaged {
            place: (bytes.len() - rest.len()) as u64,
        });
    }
    Ok(values)
}
