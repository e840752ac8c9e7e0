//! Values from null bits and the numbers or texts of those that aren't NULL.
ghost use Rattle.std.specs.Prelude.{◌≡◌, ◌≤◌, ◌*◌, ℕ, ℤ, List as Items, length, All, IfOk, true, false};
ghost use Rattle.dw_value.specs.declared.values.Value.{Value as Item};
ghost use Rattle.dw_value.specs.Values.{takes_texts};
ghost use Rattle.dw_codec_plain.specs.Numbers.{FitsWidth};
ghost use Rattle.dw_value.specs.Encodings.{width};
ghost use Rattle.dw_block.specs.Blocks.{IsBlockText, numbers_of, texts_of};
ghost use Rattle.dw_block.specs.Stored.{IsPlaced};

use crate::kinds::value_of;
use crate::nulls::bit_at;
use dw_codec_plain::Bytes;
use dw_value::{Kind, List, Text, Value};
use std::alloc::{AllocError, Global};

/// The values of the kind whose null bits and numbers these are.
pub fn place_numbers(
    alloc: Global,
    kind: Kind,
    nulls: &[u8],
    numbers: &[i128],
    count: usize,
) -> Result<List<Value>, AllocError>
    requires kind { takes_texts kind ≡ false }
    requires room { count ≤ 8 * length nulls.now }
    requires fit { All (FitsWidth (width kind)) numbers.now }
    ensures { IfOk result (λ found. (values : Items Item) →
        IsPlaced numbers_of kind nulls.now numbers.now count values → found ≡ values) }
{
    let mut values = List::new(alloc);
    let mut next = 0;
    for place in 0..count {
        if bit_at(nulls, place) {
            values.push(Value::Null)?;
            continue;
        }
        if next >= numbers.len() {
            return Ok(values);
        }
        values.push(value_of(kind, numbers[next]))?;
        next += 1;
    }
    Ok(values)
}

/// A text of these bytes, which are UTF-8.
fn text_of(alloc: Global, bytes: &Bytes) -> Result<Value, AllocError>
    requires { IsBlockText bytes.now }
    ensures { IfOk result (λ value. value ≡ Value.Words bytes.now) }
{
    match str::from_utf8(bytes.as_slice()) {
        Ok(text) => Ok(Value::Words(Text::from_str(alloc, text)?)),
        Err(_) => unreachable!(),
    }
}

/// The values of the kind whose null bits and texts these are.
pub fn place_texts(
    alloc: Global,
    kind: Kind,
    nulls: &[u8],
    texts: &[Bytes],
    count: usize,
) -> Result<List<Value>, AllocError>
    requires kind { takes_texts kind ≡ true }
    requires room { count ≤ 8 * length nulls.now }
    requires stored { All IsBlockText texts.now }
    ensures { IfOk result (λ found. (values : Items Item) →
        IsPlaced texts_of kind nulls.now texts.now count values → found ≡ values) }
{
    let mut values = List::new(alloc);
    let mut next = 0;
    for place in 0..count {
        if bit_at(nulls, place) {
            values.push(Value::Null)?;
            continue;
        }
        if next >= texts.len() {
            return Ok(values);
        }
        values.push(text_of(alloc, &texts[next])?)?;
        next += 1;
    }
    Ok(values)
}
