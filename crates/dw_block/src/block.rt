//! Blocks: up to 4,096 values of one column, kept as their bytes.
ghost use Rattle.std.specs.Prelude.{◌≡◌, ◌≤◌, ℤ, ℕ, List as Items, length, All, IsTrue, IfOk, OnOk, if◌then◌else◌, true, false};
ghost use Rattle.dw_value.specs.Values.{takes_texts};
ghost use Rattle.dw_codec_plain.specs.Numbers.{IsWidth, FitsWidth};
ghost use Rattle.dw_codec_plain.specs.Spelling.{IsSpelling};
ghost use Rattle.dw_codec_plain.specs.Encodings.{IsText};
ghost use Rattle.dw_block.specs.Zones.{zone_of};
ghost use Rattle.dw_value.specs.Encodings.{width, allows};
ghost use Rattle.dw_block.specs.Blocks.{IsKind, IsValueOf, IsBlockText, encoded_numbers, encoded_texts, items_bytes, block_bytes};
ghost use Rattle.dw_block.specs.Stored.{Content, IsSpelled};
ghost use Rattle.dw_block.specs.Unique.{Content-prop};

use crate::encodings::{
    decode, decode_texts, encode, encode_texts, numbers_have_one_form, texts_have_one_form,
};
use crate::kinds::{numbers_of, texts_of, width};
use crate::nulls::{null_bits, null_len};
use crate::placing::{place_numbers, place_texts};
use crate::zone::{Zone, zone_of};
use dw_codec_plain::{Bytes, CodecFault};
use dw_value::{Encoding, Kind, List, Value};
use std::alloc::{AllocError, Global};
use std::marker::Model;

/// The values of one column and up to 4,096 rows, in the encoding of the column. A block keeps their bytes alone, with
/// the zone of the values. Contracts see it as its encoding, its kind and its values.
#[derive(Drop)]
pub struct Block {
    encoding: Encoding,
    kind: Kind,
    count: u32,
    bytes: Vec<u8>,
    zone: Zone,
    ghost content: { Content encoding kind count bytes.items zone } by { Content-prop encoding kind count _ zone },
}

impl Model for Block {
    ghost use Rattle.dw_block.specs.Blocks.{BlockView};

    ghost Value = { BlockView };

    ghost view = { λ block. record { encoding = block.encoding; kind = block.kind; values = block.content.0 } };
}

/// The encoding of the values that aren't NULL.
fn items_bytes(
    alloc: Global,
    encoding: Encoding,
    kind: Kind,
    values: &[Value],
) -> Result<Vec<u8>, AllocError>
    requires kind { IsKind kind }
    requires few { length values.now ≤ 4096 }
    requires each { All (IsValueOf kind) values.now }
    ensures bytes { IfOk result (λ bytes. bytes.items ≡ items_bytes encoding kind values.now) }
    ensures spelled { OnOk result (IsSpelled kind values.now) }
{
    if kind.takes_texts() {
        let texts = texts_of(alloc, kind, values)?;
        encode_texts(alloc, encoding, texts.as_slice())
    } else {
        let numbers = numbers_of(alloc, kind, values)?;
        encode(alloc, encoding, width(kind), numbers.as_slice())
    }
}

/// The numbers that bytes of the encoding are, which are such bytes.
fn read_numbers(
    alloc: Global,
    encoding: Encoding,
    width: u8,
    bytes: &[u8],
    count: u32,
) -> Result<Vec<i128>, AllocError>
    requires width { IsWidth width }
    requires count { count ≤ 4096 }
    requires bytes { ∥ IsSpelling (encoded_numbers encoding width) (FitsWidth width) count bytes.now ∥₁ }
    ensures fit { IfOk result (λ numbers. All (FitsWidth width) numbers.items) }
    ensures same { IfOk result (λ numbers. (others : Items ℤ) → length others ≤ 4096 → All (FitsWidth width) others →
        bytes.now ≡ encoded_numbers encoding width others → numbers.items ≡ others) }
{
    numbers_have_one_form();
    match decode(alloc, encoding, width, bytes, count) {
        Ok(numbers) => Ok(numbers),
        Err(CodecFault::Memory) => Err(AllocError),
        Err(CodecFault::Damaged { .. }) => unreachable!(),
    }
}

/// The texts that bytes of the encoding are, which are such bytes.
fn read_texts(
    alloc: Global,
    encoding: Encoding,
    bytes: &[u8],
    count: u32,
) -> Result<Vec<Bytes>, AllocError>
    requires count { count ≤ 4096 }
    requires bytes { ∥ IsSpelling (encoded_texts encoding) IsText count bytes.now ∥₁ }
    ensures { IfOk result (λ texts. (others : Items (Items ℕ)) → length others ≤ 4096 → All IsText others →
        bytes.now ≡ encoded_texts encoding others → texts.items ≡ others) }
{
    texts_have_one_form();
    match decode_texts(alloc, encoding, bytes, count) {
        Ok(texts) => Ok(texts),
        Err(CodecFault::Memory) => Err(AllocError),
        Err(CodecFault::Damaged { .. }) => unreachable!(),
    }
}

impl Block {
    /// The block of the values, which stand as a column of the kind holds them, on memory of `alloc`. The kind has at
    /// most 38 digits or 65,535 bytes, and may have the encoding (see `dw_value::allows`); there are at most 4,096
    /// values. A zone's texts are copied on the allocators of the values.
    pub fn make(
        alloc: Global,
        encoding: Encoding,
        kind: Kind,
        values: &List<Value>,
    ) -> Result<Block, AllocError>
        requires kind { IsKind kind }
        requires allowed { IsTrue (allows encoding kind) }
        requires few { length values.now ≤ 4096 }
        requires each { All (IsValueOf kind) values.now }
        ensures encoding { IfOk result (λ block. block.encoding ≡ encoding) }
        ensures kind { IfOk result (λ block. block.kind ≡ kind) }
        ensures values { IfOk result (λ block. block.values ≡ values.now) }
    {
        let values = values.as_slice();
        let mut bytes = null_bits(alloc, values)?;
        let items = items_bytes(alloc, encoding, kind, values)?;
        bytes.extend_from_slice(items.as_slice())?;
        let zone = zone_of(values)?;
        Ok(Block {
            encoding,
            kind,
            count: values.len() as u32,
            bytes,
            zone,
        })
    }

    /// The zone of the values: the least and the greatest of those that aren't NULL, in the order of values, and the
    /// number of NULLs.
    pub fn zone(&self) -> &Zone
        ensures { result.now ≡ zone_of self.now.values }
    {
        &self.zone
    }

    /// How many bytes the null bits and the encoding of the values take.
    pub fn size(&self) -> u64
        ensures { result ≡ length (block_bytes self.now.encoding self.now.kind self.now.values) }
    {
        self.bytes.as_slice().len() as u64
    }

    /// The values that the block was made of, on its own allocator. They stand as a column of its kind holds them.
    pub fn values(&self) -> Result<List<Value>, AllocError>
        ensures values { IfOk result (λ values. values ≡ self.now.values) }
        ensures each { IfOk result (λ values. All (IsValueOf self.now.kind) values) }
        ensures few { IfOk result (λ values. length values ≤ 4096) }
    {
        let alloc = *self.bytes.allocator();
        let count = self.count as usize;
        let (nulls, items) = self.bytes.as_slice().split_at(null_len(count));
        let present = self.count - self.zone.nulls;
        if self.kind.takes_texts() {
            let texts = read_texts(alloc, self.encoding, items, present)?;
            place_texts(alloc, self.kind, nulls, texts.as_slice(), count)
        } else {
            let numbers = read_numbers(alloc, self.encoding, width(self.kind), items, present)?;
            place_numbers(alloc, self.kind, nulls, numbers.as_slice(), count)
        }
    }
}
