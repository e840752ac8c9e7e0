//! Decoding a dictionary's spelling, to its items one after another.

ghost use Rattle.std.specs.Prelude.{◌≡◌, ◌≤◌, ◌<◌, ◌++◌, [], length, take, drop, All, true, IfOk, IfErr};
ghost use Rattle.std.specs.List.{concat};
ghost use Rattle.dw_codec_plain.specs.Numbers.{low_bytes};
ghost use Rattle.dw_codec_plain.specs.Spelling.{IsSpelling, Explains};
ghost use Rattle.dw_codec_runs.specs.Dictionary.{dictionary};
ghost use Rattle.dw_codec_runs.specs.DictionaryParts.{IsItemOf, IsShape, is_wide, AreNew, IsAt, HasPlaces, IsShortHead, IsLongHead, items_at, IsUnpacked};

use crate::dictionary_head::{Head, head_at};
use crate::dictionary_item::{Shape, next_item, wide};
use crate::dictionary_known::Known;
use crate::dictionary_places::check_places;
use dw_codec_plain::CodecFault;
use std::alloc::{AllocError, Global};

// The different items behind the head, and where the places begin.
fn read_items(
    alloc: Global,
    shape: Shape,
    number: usize,
    count: u32,
    bytes: &[u8],
) -> Result<(Known, usize), CodecFault>
    requires shape { IsShape shape }
    requires long { 2 ≤ length bytes.now }
    requires head { IsShortHead count number (take 2 bytes.now) }
    ensures within { IfOk result (λ read. read.1 ≤ length bytes.now) }
    ensures counted { IfOk result (λ read. length read.0 ≡ number) }
    ensures new { IfOk result (λ read. AreNew [] read.0) }
    ensures each { IfOk result (λ read. All (IsItemOf shape) read.0) }
    ensures spells { IfOk result (λ read. bytes.now ≡ low_bytes 2 number ++ (concat read.0 ++ drop read.1 bytes.now)) }
    ensures follows { IfOk result (λ read. IsAt (IsSpelling dictionary (IsItemOf shape) count) bytes.now (drop read.1 bytes.now) (HasPlaces number 0 count)) }
    ensures fault { IfErr result (λ fault. Explains fault dictionary (IsItemOf shape) count bytes.now) }
{
    let mut known = Known::new(alloc);
    let (_, mut rest) = bytes.split_at(2);
    for _ in 0..number {
        match next_item(shape, &known, false, rest) {
            Ok(len) => {
                let (item, after) = rest.split_at(len);
                known.meet(alloc, item)?;
                rest = after;
            }
            Err(front) => {
                return Err(CodecFault::Damaged {
                    place: (bytes.len() - rest.len() + front) as u64,
                });
            }
        }
    }
    Ok((known, bytes.len() - rest.len()))
}

// The items at the places, one after another.
fn write_items(alloc: Global, known: &Known, places: &[u8]) -> Result<Vec<u8>, AllocError>
    requires { All (λ place. place < length known.now) places.now }
    ensures { IfOk result (λ plain. plain.items ≡ concat (items_at known.now places.now)) }
{
    let mut plain = Vec::new(alloc);
    for place in places {
        plain.extend_from_slice(known.get(usize::from(*place)))?;
    }
    Ok(plain)
}

// The items of a spelling with the different ones.
fn decode_short(
    alloc: Global,
    shape: Shape,
    number: usize,
    count: u32,
    bytes: &[u8],
) -> Result<Vec<u8>, CodecFault>
    requires shape { IsShape shape }
    requires long { 2 ≤ length bytes.now }
    requires head { IsShortHead count number (take 2 bytes.now) }
    ensures plain { IfOk result (λ plain. IsUnpacked shape count bytes.now plain.items) }
    ensures fault { IfErr result (λ fault. Explains fault dictionary (IsItemOf shape) count bytes.now) }
{
    let (known, start) = match read_items(alloc, shape, number, count, bytes) {
        Ok(read) => read,
        Err(fault) => return Err(fault),
    };
    let (_, places) = bytes.split_at(start);
    match check_places(number, count as usize, places) {
        Ok(()) => Ok(write_items(alloc, &known, places)?),
        Err(place) => Err(CodecFault::Damaged {
            place: (start + place) as u64,
        }),
    }
}

// The items of a spelling with all of them.
fn decode_long(alloc: Global, shape: Shape, count: u32, bytes: &[u8]) -> Result<Vec<u8>, CodecFault>
    requires shape { IsShape shape }
    requires long { 2 ≤ length bytes.now }
    requires head { IsLongHead (is_wide shape) count (take 2 bytes.now) }
    ensures plain { IfOk result (λ plain. IsUnpacked shape count bytes.now plain.items) }
    ensures fault { IfErr result (λ fault. Explains fault dictionary (IsItemOf shape) count bytes.now) }
{
    let mut known = Known::new(alloc);
    let (_, items) = bytes.split_at(2);
    let mut rest = items;
    for at in 0..count as usize {
        let any = known.len() + (count as usize - 1 - at) > 256;
        match next_item(shape, &known, any, rest) {
            Ok(len) => {
                let (item, after) = rest.split_at(len);
                known.meet(alloc, item)?;
                rest = after;
            }
            Err(front) => {
                return Err(CodecFault::Damaged {
                    place: (bytes.len() - rest.len() + front) as u64,
                });
            }
        }
    }
    if !rest.is_empty() {
        return Err(CodecFault::Damaged {
            place: (bytes.len() - rest.len()) as u64,
        });
    }
    Ok(Vec::from_slice(alloc, items)?)
}

// The items of which the bytes are the dictionary's spelling, one after another.
pub(crate) fn decode_items(
    alloc: Global,
    shape: Shape,
    bytes: &[u8],
    count: u32,
) -> Result<Vec<u8>, CodecFault>
    requires shape { IsShape shape }
    requires count { count ≤ 4096 }
    ensures plain { IfOk result (λ plain. IsUnpacked shape count bytes.now plain.items) }
    ensures fault { IfErr result (λ fault. Explains fault dictionary (IsItemOf shape) count bytes.now) }
{
    match head_at(wide(shape), count, bytes) {
        Ok(Head::Short(number)) => decode_short(alloc, shape, number, count, bytes),
        Ok(Head::Long) => decode_long(alloc, shape, count, bytes),
        Err(place) => Err(CodecFault::Damaged {
            place: place as u64,
        }),
    }
}
