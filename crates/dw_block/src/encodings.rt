//! The encodings of numbers and texts that a block may have.
ghost use Rattle.std.specs.Prelude.{◌≡◌, ◌≤◌, ℕ, ℤ, List, length, All, IsTrue, IfOk, IfErr};
ghost use Rattle.dw_value.specs.declared.kinds.Encoding.{Encoding as Spelling};
ghost use Rattle.dw_codec_plain.specs.Numbers.{IsWidth, FitsWidth};
ghost use Rattle.dw_codec_plain.specs.Spelling.{IsListOf, Explains};
ghost use Rattle.dw_codec_plain.specs.Encodings.{IsText};
ghost use Rattle.dw_block.specs.Blocks.{encoded_numbers, encoded_texts};

use dw_codec_delta::{decode_delta, delta_has_one_form, encode_delta};
use dw_codec_plain::laws::{mostly_has_one_form, raw_has_one_form, raw_texts_have_one_form};
use dw_codec_plain::{
    Bytes, CodecFault, decode_mostly, decode_raw, decode_raw_texts, encode_mostly, encode_raw,
    encode_raw_texts,
};
use dw_codec_runs::{
    bytedict_has_one_form, bytedict_texts_have_one_form, decode_bytedict, decode_bytedict_texts,
    decode_runlength, decode_runlength_texts, encode_bytedict, encode_bytedict_texts,
    encode_runlength, encode_runlength_texts, runlength_has_one_form,
    runlength_texts_have_one_form,
};
use dw_value::Encoding;
use std::alloc::{AllocError, Global};

/// The encoding of at most 4,096 numbers of `width` bytes.
pub fn encode(
    alloc: Global,
    encoding: Encoding,
    width: u8,
    numbers: &[i128],
) -> Result<Vec<u8>, AllocError>
    requires width { IsWidth width }
    requires count { length numbers.now ≤ 4096 }
    requires fit { All (FitsWidth width) numbers.now }
    ensures { IfOk result (λ bytes. bytes.items ≡ encoded_numbers encoding width numbers.now) }
{
    match encoding {
        Encoding::Delta => encode_delta(alloc, width, 1, numbers),
        Encoding::Delta32k => encode_delta(alloc, width, 2, numbers),
        Encoding::Mostly8 => encode_mostly(alloc, width, 1, numbers),
        Encoding::Mostly16 => encode_mostly(alloc, width, 2, numbers),
        Encoding::Mostly32 => encode_mostly(alloc, width, 4, numbers),
        Encoding::Raw => encode_raw(alloc, width, numbers),
        Encoding::Bytedict => encode_bytedict(alloc, width, numbers),
        Encoding::Runlength => encode_runlength(alloc, width, numbers),
    }
}

/// The `count` numbers of `width` bytes whose encoding the bytes are.
pub fn decode(
    alloc: Global,
    encoding: Encoding,
    width: u8,
    bytes: &[u8],
    count: u32,
) -> Result<Vec<i128>, CodecFault>
    requires width { IsWidth width }
    requires count { count ≤ 4096 }
    ensures values { IfOk result (λ numbers.
        IsListOf (FitsWidth width) count numbers.items × (bytes.now ≡ encoded_numbers encoding width numbers.items)) }
    ensures fault { IfErr result (λ fault.
        Explains fault (encoded_numbers encoding width) (FitsWidth width) count bytes.now) }
{
    match encoding {
        Encoding::Delta => decode_delta(alloc, width, 1, bytes, count),
        Encoding::Delta32k => decode_delta(alloc, width, 2, bytes, count),
        Encoding::Mostly8 => decode_mostly(alloc, width, 1, bytes, count),
        Encoding::Mostly16 => decode_mostly(alloc, width, 2, bytes, count),
        Encoding::Mostly32 => decode_mostly(alloc, width, 4, bytes, count),
        Encoding::Raw => decode_raw(alloc, width, bytes, count),
        Encoding::Bytedict => decode_bytedict(alloc, width, bytes, count),
        Encoding::Runlength => decode_runlength(alloc, width, bytes, count),
    }
}

/// Two lists of at most 4,096 numbers with one encoding are equal.
pub fn numbers_have_one_form()
    ensures { (encoding : Spelling) (width : ℕ) (numbers others : List ℤ) → IsWidth width →
        length numbers ≤ 4096 → length others ≤ 4096 → All (FitsWidth width) numbers → All (FitsWidth width) others →
        encoded_numbers encoding width numbers ≡ encoded_numbers encoding width others → numbers ≡ others }
{
    raw_has_one_form();
    mostly_has_one_form();
    delta_has_one_form();
    bytedict_has_one_form();
    runlength_has_one_form();
}

/// The encoding of at most 4,096 texts of at most 65,535 bytes each. DELTA and MOSTLY, which no kind of texts may have,
/// count as RAW.
pub fn encode_texts(
    alloc: Global,
    encoding: Encoding,
    texts: &[Bytes],
) -> Result<Vec<u8>, AllocError>
    requires count { length texts.now ≤ 4096 }
    requires texts { All IsText texts.now }
    ensures { IfOk result (λ bytes. bytes.items ≡ encoded_texts encoding texts.now) }
{
    match encoding {
        Encoding::Bytedict => encode_bytedict_texts(alloc, texts),
        Encoding::Runlength => encode_runlength_texts(alloc, texts),
        _ => encode_raw_texts(alloc, texts),
    }
}

/// The `count` texts whose encoding the bytes are.
pub fn decode_texts(
    alloc: Global,
    encoding: Encoding,
    bytes: &[u8],
    count: u32,
) -> Result<Vec<Bytes>, CodecFault>
    requires { count ≤ 4096 }
    ensures values { IfOk result (λ texts.
        IsListOf IsText count texts.items × (bytes.now ≡ encoded_texts encoding texts.items)) }
    ensures fault { IfErr result (λ fault. Explains fault (encoded_texts encoding) IsText count bytes.now) }
{
    match encoding {
        Encoding::Bytedict => decode_bytedict_texts(alloc, bytes, count),
        Encoding::Runlength => decode_runlength_texts(alloc, bytes, count),
        _ => decode_raw_texts(alloc, bytes, count),
    }
}

/// Two lists of at most 4,096 texts with one encoding are equal.
pub fn texts_have_one_form()
    ensures { (encoding : Spelling) (texts others : List (List ℕ)) → length texts ≤ 4096 → length others ≤ 4096 →
        All IsText texts → All IsText others → encoded_texts encoding texts ≡ encoded_texts encoding others →
        texts ≡ others }
{
    raw_texts_have_one_form();
    bytedict_texts_have_one_form();
    runlength_texts_have_one_form();
}
