//! RAW for texts: each with its length in two bytes before it.

ghost use Rattle.std.specs.Prelude.{◌≡◌, ◌≤◌, ◌++◌, List, ℕ, length, All, IfOk, IfErr, IfSome, IfNone, None, OnOk};
ghost use Rattle.dw_codec_plain.specs.Spelling.{IsListOf, IsItem, NoItem, IsLongestFront, Explains};
ghost use Rattle.dw_codec_plain.specs.Encodings.{IsText, raw_text, raw_text_item, raw_texts};

use crate::fault::CodecFault;
use crate::numbers::natural;
use std::alloc::{AllocError, Global};
use std::marker::Model;

/// Bytes of a text, which contracts see as a list.
#[derive(Drop)]
pub struct Bytes {
    bytes: Vec<u8>,
}

impl Model for Bytes {
    ghost Value = { List ℕ };

    ghost view = { λ text. text.bytes.items };
}

impl Bytes {
    /// The bytes of a vector.
    pub fn new(bytes: Vec<u8>) -> Self
        ensures { result ≡ bytes.items }
    {
        Bytes { bytes }
    }

    /// A copy of a slice. An `Err` comes only for want of memory.
    pub fn from_slice(alloc: Global, bytes: &[u8]) -> Result<Self, AllocError>
        ensures { IfOk result (λ text. text ≡ bytes.now) }
    {
        Ok(Bytes {
            bytes: Vec::from_slice(alloc, bytes)?,
        })
    }

    /// The bytes as a slice.
    pub fn as_slice(&self) -> &[u8]
        ensures { result.now ≡ self.now }
    {
        self.bytes.as_slice()
    }
}

// How many bytes the texts take, which is what the encoder reserves.
fn spelled_len(texts: &[Bytes]) -> usize {
    let mut len = 0usize;
    for text in texts {
        len = len.saturating_add(2).saturating_add(text.as_slice().len());
    }
    len
}

/// Writes a text at the end, with its length before it. An `Err` may leave some of its bytes there.
pub fn push_text(out: &mut Vec<u8>, text: &Bytes) -> Result<(), AllocError>
    requires { length text.now ≤ 65535 }
    ensures ok { OnOk result (out.new.items ≡ out.old.items ++ raw_text text.now) }
{
    let bytes = text.as_slice();
    out.extend_from_slice(&(bytes.len() as u16).to_le_bytes())?;
    out.extend_from_slice(bytes)
}

/// The RAW spelling of at most 4,096 texts of at most 65,535 bytes each. An `Err` comes only for want of memory.
pub fn encode_raw_texts(alloc: Global, values: &[Bytes]) -> Result<Vec<u8>, AllocError>
    requires count { length values.now ≤ 4096 }
    requires short { All (λ text. length text ≤ 65535) values.now }
    ensures { IfOk result (λ bytes. bytes.items ≡ raw_texts values.now) }
{
    let mut bytes = Vec::with_capacity(alloc, spelled_len(values))?;
    for text in values {
        push_text(&mut bytes, text)?;
    }
    Ok(bytes)
}

/// The text at the front of the bytes, with its length before it, and the bytes behind it. `None` where the bytes end
/// before the text does.
pub fn text_at(bytes: &[u8]) -> Option<(&[u8], &[u8])>
    ensures text { IfSome result (λ found. IsText found.0.now) }
    ensures spells { IfSome result (λ found. bytes.now ≡ raw_text found.0.now ++ found.1.now) }
    ensures none { IfNone result (NoItem raw_text_item IsText None bytes.now) }
    ensures front { IfNone result (IsLongestFront (IsItem raw_text_item IsText None) bytes.now (length bytes.now)) }
{
    if bytes.len() < 2 {
        return None;
    }
    let (head, tail) = bytes.split_at(2);
    let len = natural(head) as usize;
    if tail.len() < len {
        return None;
    }
    Some(tail.split_at(len))
}

/// The `count` texts of which the bytes are the RAW spelling.
///
/// `Damaged` comes exactly where the bytes are not such a spelling, and `Memory` for want of memory.
pub fn decode_raw_texts(alloc: Global, bytes: &[u8], count: u32) -> Result<Vec<Bytes>, CodecFault>
    requires { count ≤ 4096 }
    ensures values { IfOk result (λ values. IsListOf IsText count values.items × (bytes.now ≡ raw_texts values.items)) }
    ensures fault { IfErr result (λ fault. Explains fault raw_texts IsText count bytes.now) }
{
    let mut values = Vec::with_capacity(alloc, count as usize)?;
    let mut rest = bytes;
    for _ in 0..count {
        match text_at(rest) {
            Some((text, after)) => {
                let value = Bytes::from_slice(alloc, text)?;
                values.push(value)?;
                rest = after;
            }
            None => {
                return Err(CodecFault::Damaged {
                    place: bytes.len() as u64,
                });
            }
        }
    }
    if !rest.is_empty() {
        return Err(CodecFault::Damaged {
            place: (bytes.len() - rest.len()) as u64,
        });
    }
    Ok(values)
}
