//! Encoding items, one after another, as a dictionary's spelling.

ghost use Rattle.std.specs.Prelude.{◌≡◌, ◌≤◌, ◌++◌, ◌∷◌, ℕ, List, length, take, IfOk};
ghost use Rattle.std.specs.List.{concat};
ghost use Rattle.dw_codec_plain.specs.Numbers.{low_bytes};
ghost use Rattle.dw_codec_plain.specs.Spelling.{IsSpelling};
ghost use Rattle.dw_codec_runs.specs.DictionaryParts.{IsItemOf, IsShape, BeginsWith, IsUnpacked};

use crate::dictionary_item::{Shape, item_at};
use crate::dictionary_known::Known;
use std::alloc::{AllocError, Global};

// How long the item is that the bytes begin with.
fn first_len(shape: Shape, bytes: &[u8]) -> usize
    requires shape { IsShape shape }
    requires there { BeginsWith (IsItemOf shape) bytes.now }
    ensures within { result ≤ length bytes.now }
    ensures item { IsItemOf shape (take result bytes.now) }
{
    match item_at(shape, bytes) {
        Some(len) => len,
        None => bytes.len(),
    }
}

// The number of different items, these items, and the places of all.
fn write_short(alloc: Global, known: &Known, places: &[u8]) -> Result<Vec<u8>, AllocError>
    requires { length known.now ≤ 256 }
    ensures { IfOk result (λ bytes. bytes.items ≡ low_bytes 2 (length known.now) ++ (concat known.now ++ places.now)) }
{
    let mut bytes = Vec::new(alloc);
    bytes.extend_from_slice(&(known.len() as u16).to_le_bytes())?;
    for place in 0..known.len() {
        bytes.extend_from_slice(known.get(place))?;
    }
    bytes.extend_from_slice(places)?;
    Ok(bytes)
}

// The sign that more than 256 items are different, and all of them.
fn write_long(alloc: Global, plain: &[u8]) -> Result<Vec<u8>, AllocError>
    ensures { IfOk result (λ bytes. bytes.items ≡ 255 ∷ 255 ∷ plain.now) }
{
    let mut bytes = Vec::new(alloc);
    bytes.extend_from_slice(&[255, 255])?;
    bytes.extend_from_slice(plain)?;
    Ok(bytes)
}

// The dictionary's spelling of `count` items, which stand one after another.
pub(crate) fn encode_items(
    alloc: Global,
    shape: Shape,
    count: usize,
    plain: &[u8],
) -> Result<Vec<u8>, AllocError>
    requires shape { IsShape shape }
    requires items { IsSpelling concat (IsItemOf shape) count plain.now }
    ensures { IfOk result (λ bytes. IsUnpacked shape count bytes.items plain.now) }
{
    let mut known = Known::new(alloc);
    let mut places = Vec::with_capacity(alloc, count)?;
    let mut rest = plain;
    for _ in 0..count {
        let (item, after) = rest.split_at(first_len(shape, rest));
        let place = known.meet(alloc, item)?;
        if known.len() > 256 {
            return write_long(alloc, plain);
        }
        places.push(place as u8)?;
        rest = after;
    }
    write_short(alloc, &known, places.as_slice())
}
