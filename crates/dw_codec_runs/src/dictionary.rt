//! BYTEDICT: the different values, and the place of each value among them. The encoding is that of the Amazon Redshift
//! guide (compression encodings); the layout of its bytes is this project's own.

ghost use Rattle.std.specs.Prelude.{◌≡◌, ◌≤◌, ℕ, ℤ, List, length, All, IfOk, IfErr};
ghost use Rattle.dw_codec_plain.specs.Numbers.{IsWidth, FitsWidth};
ghost use Rattle.dw_codec_plain.specs.Encodings.{IsText};
ghost use Rattle.dw_codec_plain.specs.Spelling.{IsListOf, Explains};
ghost use Rattle.dw_codec_runs.specs.Dictionary.{bytedict, bytedict_texts};

use crate::dictionary_decode::decode_items;
use crate::dictionary_encode::encode_items;
use crate::dictionary_item::Shape;
use dw_codec_plain::{
    Bytes, CodecFault, decode_raw, decode_raw_texts, encode_raw, encode_raw_texts,
};
use std::alloc::{AllocError, Global};

/// The BYTEDICT spelling of at most 4,096 values of `width` bytes. An `Err` comes only for want of memory.
pub fn encode_bytedict(alloc: Global, width: u8, values: &[i128]) -> Result<Vec<u8>, AllocError>
    requires width { IsWidth width }
    requires count { length values.now ≤ 4096 }
    requires fit { All (FitsWidth width) values.now }
    ensures { IfOk result (λ bytes. bytes.items ≡ bytedict width values.now) }
{
    let plain = encode_raw(alloc, width, values)?;
    encode_items(alloc, Shape::Number(width), values.len(), plain.as_slice())
}

/// The `count` values of `width` bytes of which the bytes are the BYTEDICT spelling.
///
/// `Damaged` comes exactly where the bytes are not such a spelling, and `Memory` for want of memory.
pub fn decode_bytedict(
    alloc: Global,
    width: u8,
    bytes: &[u8],
    count: u32,
) -> Result<Vec<i128>, CodecFault>
    requires width { IsWidth width }
    requires count { count ≤ 4096 }
    ensures values { IfOk result (λ values. IsListOf (FitsWidth width) count values.items × (bytes.now ≡ bytedict width values.items)) }
    ensures fault { IfErr result (λ fault. Explains fault (bytedict width) (FitsWidth width) count bytes.now) }
{
    match decode_items(alloc, Shape::Number(width), bytes, count) {
        Ok(plain) => decode_raw(alloc, width, plain.as_slice(), count),
        Err(fault) => Err(fault),
    }
}

/// The BYTEDICT spelling of at most 4,096 texts of at most 65,535 bytes each. An `Err` comes only for want of memory.
pub fn encode_bytedict_texts(alloc: Global, values: &[Bytes]) -> Result<Vec<u8>, AllocError>
    requires count { length values.now ≤ 4096 }
    requires texts { All IsText values.now }
    ensures { IfOk result (λ bytes. bytes.items ≡ bytedict_texts values.now) }
{
    let plain = encode_raw_texts(alloc, values)?;
    encode_items(alloc, Shape::Text, values.len(), plain.as_slice())
}

/// The `count` texts of which the bytes are the BYTEDICT spelling.
///
/// `Damaged` comes exactly where the bytes are not such a spelling, and `Memory` for want of memory.
pub fn decode_bytedict_texts(
    alloc: Global,
    bytes: &[u8],
    count: u32,
) -> Result<Vec<Bytes>, CodecFault>
    requires { count ≤ 4096 }
    ensures values { IfOk result (λ values. IsListOf IsText count values.items × (bytes.now ≡ bytedict_texts values.items)) }
    ensures fault { IfErr result (λ fault. Explains fault bytedict_texts IsText count bytes.now) }
{
    match decode_items(alloc, Shape::Text, bytes, count) {
        Ok(plain) => decode_raw_texts(alloc, plain.as_slice(), count),
        Err(fault) => Err(fault),
    }
}

/// BYTEDICT has one form: two lists of values with one spelling are equal. A law, which does nothing when it is called.
pub fn bytedict_has_one_form()
    ensures { (width : ℕ) (values others : List ℤ) → IsWidth width → All (FitsWidth width) values → All (FitsWidth width) others
        → bytedict width values ≡ bytedict width others → values ≡ others }
{}

/// BYTEDICT for texts has one form. A law, which does nothing when it is called.
pub fn bytedict_texts_have_one_form()
    ensures { (values others : List (List ℕ)) → All IsText values → All IsText others → bytedict_texts values ≡ bytedict_texts others → values ≡ others }
{}
