//! What the blocks of a kind are made of.
ghost use Rattle.std.specs.Prelude.{◌≡◌, ◌≤◌, length, All, IfOk, IfSome};
ghost use Rattle.dw_codec_plain.specs.Numbers.{IsWidth, FitsWidth};
ghost use Rattle.dw_value.specs.Encodings.{width};
ghost use Rattle.dw_block.specs.Blocks.{IsKind, IsValueOf, IsBlockText, number_in, numbers_of, texts_of, value_of};

use dw_codec_plain::Bytes;
use dw_value::{Kind, Text, Value};
use std::alloc::{AllocError, Global};

/// How many bytes the numbers of a kind take.
pub fn width(kind: Kind) -> u8
    ensures value { result ≡ width kind }
    ensures is { IsWidth result }
{
    kind.width()
}

/// A value of the kind as a number, where it is one, a day or a truth.
fn number_in(kind: Kind, value: &Value) -> Option<i128>
    requires kind { IsKind kind }
    requires is { IsValueOf kind value.now }
    ensures value { result ≡ number_in value.now }
    ensures fits { IfSome result (FitsWidth (width kind)) }
{
    match value {
        Value::Number(number) => Some(*number),
        Value::Day(day) => Some(i128::from(*day)),
        Value::Truth(false) => Some(0),
        Value::Truth(true) => Some(1),
        Value::Words(_) | Value::Null => None,
    }
}

/// The numbers of the values that aren't NULL.
pub fn numbers_of(alloc: Global, kind: Kind, values: &[Value]) -> Result<Vec<i128>, AllocError>
    requires kind { IsKind kind }
    requires each { All (IsValueOf kind) values.now }
    ensures numbers { IfOk result (λ numbers. numbers.items ≡ numbers_of values.now) }
    ensures fit { IfOk result (λ numbers. All (FitsWidth (width kind)) numbers.items) }
    ensures few { IfOk result (λ numbers. length numbers.items ≤ length values.now) }
{
    let mut numbers = Vec::new(alloc);
    for value in values {
        if let Some(number) = number_in(kind, value) {
            numbers.push(number)?;
        }
    }
    Ok(numbers)
}

/// The bytes of a text of the kind.
fn bytes_of(alloc: Global, kind: Kind, text: &Text) -> Result<Bytes, AllocError>
    requires kind { IsKind kind }
    requires is { IsValueOf kind (Value.Words text.now) }
    ensures { IfOk result (λ bytes. (bytes ≡ text.now) × IsBlockText bytes) }
{
    let bytes = text.as_bytes();
    Bytes::from_slice(alloc, bytes)
}

/// The texts of the values that aren't NULL.
pub fn texts_of(alloc: Global, kind: Kind, values: &[Value]) -> Result<Vec<Bytes>, AllocError>
    requires kind { IsKind kind }
    requires each { All (IsValueOf kind) values.now }
    ensures texts { IfOk result (λ texts. texts.items ≡ texts_of values.now) }
    ensures stored { IfOk result (λ texts. All IsBlockText texts.items) }
    ensures few { IfOk result (λ texts. length texts.items ≤ length values.now) }
{
    let mut texts = Vec::new(alloc);
    for value in values {
        if let Value::Words(text) = value {
            texts.push(bytes_of(alloc, kind, text)?)?;
        }
    }
    Ok(texts)
}

/// The value of the kind that a number stands for.
pub fn value_of(kind: Kind, number: i128) -> Value
    requires { FitsWidth (width kind) number }
    ensures { result ≡ value_of kind number }
{
    match kind {
        Kind::Date => Value::Day(number as i32),
        Kind::Bool => Value::Truth(number != 0),
        _ => Value::Number(number),
    }
}
