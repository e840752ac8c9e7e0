//! Items of a dictionary: the bytes that RAW spells a number or a text in.

ghost use Rattle.std.specs.Prelude.{◌≡◌, ◌≤◌, ◌<◌, ◌⊎◌, ◌↔◌, [], length, take, All, true, false, IsTrue, IfSome, IfNone, IfOk, IfErr};
ghost use Rattle.dw_codec_plain.specs.Spelling.{IsLongestFront};
ghost use Rattle.dw_codec_runs.specs.DictionaryParts.{IsItemOf, IsShape, is_wide, head_of, IsItemAt, IsCutHead, IsUnknown, IsExhausted, IsWanted, NoneFirst, AreNew};

use crate::dictionary_known::Known;
use dw_codec_plain::numbers::natural;

// What the items are: numbers of this many bytes, or texts behind their length.
#[derive(Clone, Copy)]
pub(crate) enum Shape {
    Number(u8),
    Text,
}

// Whether there are more than 256 items of this shape.
pub(crate) fn wide(shape: Shape) -> bool
    ensures { result ≡ is_wide shape }
{
    match shape {
        Shape::Number(width) => width != 1,
        Shape::Text => true,
    }
}

// How many bytes say how long an item is.
fn head_len(shape: Shape) -> usize
    ensures { result ≡ head_of shape }
{
    match shape {
        Shape::Number(_) => 0,
        Shape::Text => 2,
    }
}

// How long an item is that the bytes begin with, or that begins with the bytes. `None` where they are too few to
// tell.
fn item_len(shape: Shape, bytes: &[u8]) -> Option<usize>
    requires { IsShape shape }
    ensures some { IfSome result (IsItemAt shape bytes.now) }
    ensures none { IfNone result (IsCutHead shape bytes.now) }
{
    match shape {
        Shape::Number(width) => Some(usize::from(width)),
        Shape::Text => {
            if bytes.len() < 2 {
                return None;
            }
            Some(2 + natural(&bytes[..2]) as usize)
        }
    }
}

// How long the item is that the bytes begin with. `None` where they end before one does.
pub(crate) fn item_at(shape: Shape, bytes: &[u8]) -> Option<usize>
    requires { IsShape shape }
    ensures within { IfSome result (λ len. len ≤ length bytes.now) }
    ensures item { IfSome result (λ len. IsItemOf shape (take len bytes.now)) }
    ensures none { IfNone result (NoneFirst (IsItemOf shape) bytes.now) }
    ensures front { IfNone result (IsLongestFront (IsItemOf shape) bytes.now (length bytes.now)) }
{
    let len = item_len(shape, bytes)?;
    if bytes.len() < len {
        return None;
    }
    Some(len)
}

// The same for an item that isn't known.
fn unknown_at(shape: Shape, known: &Known, bytes: &[u8]) -> Option<usize>
    requires { IsShape shape }
    ensures within { IfSome result (λ len. len ≤ length bytes.now) }
    ensures item { IfSome result (λ len. IsUnknown shape known.now (take len bytes.now)) }
    ensures none { IfNone result (NoneFirst (IsUnknown shape known.now) bytes.now) }
{
    let len = item_at(shape, bytes)?;
    if known.contains(&bytes[..len]) {
        return None;
    }
    Some(len)
}

// Whether the front lacks only the last byte of an item of this length, and 256 items are known that begin with it.
fn is_exhausted(shape: Shape, known: &Known, len: usize, front: &[u8]) -> bool
    requires { length front.now < len }
    ensures { IsTrue result ↔ IsExhausted shape known.now len front.now }
{
    known.len() >= 256
        && front.len() == len - 1
        && head_len(shape) <= front.len()
        && known.all_begin(front)
}

// How many of the first bytes begin an item that isn't known.
fn unknown_front(shape: Shape, known: &Known, bytes: &[u8]) -> usize
    requires shape { IsShape shape }
    requires most { length known.now ≤ 256 }
    requires room { (length known.now < 256) ⊎ (is_wide shape ≡ true) }
    requires new { AreNew [] known.now }
    requires each { All (IsItemOf shape) known.now }
    requires none { NoneFirst (IsUnknown shape known.now) bytes.now }
    ensures { IsLongestFront (IsUnknown shape known.now) bytes.now result }
{
    let len = match item_len(shape, bytes) {
        Some(len) => len,
        None => return bytes.len(),
    };
    let front = bytes.len().min(len - 1);
    if is_exhausted(shape, known, len, &bytes[..front]) {
        front - 1
    } else {
        front
    }
}

// How long the item is that the bytes begin with, where it may come: any, or only one that isn't known. `Err` where
// there is none: how many of the first bytes begin one.
pub(crate) fn next_item(
    shape: Shape,
    known: &Known,
    any: bool,
    bytes: &[u8],
) -> Result<usize, usize>
    requires shape { IsShape shape }
    requires most { any ≡ false → length known.now ≤ 256 }
    requires room { any ≡ false → (length known.now < 256) ⊎ (is_wide shape ≡ true) }
    requires new { AreNew [] known.now }
    requires each { All (IsItemOf shape) known.now }
    ensures within { IfOk result (λ len. len ≤ length bytes.now) }
    ensures item { IfOk result (λ len. IsWanted shape known.now any (take len bytes.now)) }
    ensures none { IfErr result (λ _. NoneFirst (IsWanted shape known.now any) bytes.now) }
    ensures front { IfErr result (λ place. IsLongestFront (IsWanted shape known.now any) bytes.now place) }
{
    if any {
        match item_at(shape, bytes) {
            Some(len) => Ok(len),
            None => Err(bytes.len()),
        }
    } else {
        match unknown_at(shape, known, bytes) {
            Some(len) => Ok(len),
            None => Err(unknown_front(shape, known, bytes)),
        }
    }
}
