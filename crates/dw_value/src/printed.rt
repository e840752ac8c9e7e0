//! Printed forms of values.
ghost use Rattle.std.specs.Prelude.{◌≡◌, ◌++◌, ◌/◌, ◌^◌, ◌<◌, IfOk, OnOk};
ghost use Rattle.std.specs.Fmt.{decimal};
ghost use Rattle.dw_value.specs.Printed.{last_digits, number_text, shown};

use crate::dates::{date_text, digit};
use crate::kinds::Kind;
use crate::texts::Text;
use crate::values::{Field, Value};
use std::alloc::{AllocError, Global};

/// A size without its last digits, so many of them.
fn whole_part(size: u128, places: u8) -> u128
    ensures { result ≡ size / 10 ^ places }
{
    if places > 38 {
        0
    } else {
        size / 10_u128.pow(u32::from(places))
    }
}

/// Puts the last digits of a number at the end, so many of them.
fn push_last_digits(text: &mut Text, number: u128, places: u8) -> Result<(), AllocError>
    ensures { OnOk result (text.new ≡ text.old ++ last_digits places number) }
{
    if places == 0 {
        return Ok(());
    }
    push_last_digits(text, number / 10, places - 1)?;
    text.push(digit((number % 10) as u32))
}

/// Puts a number at the end, in plain decimal.
fn push_decimal(alloc: Global, text: &mut Text, number: u128) -> Result<(), AllocError>
    ensures { OnOk result (text.new ≡ text.old ++ decimal number) }
{
    let digits = format!(in alloc; "{number}")?;
    text.push_str(digits.as_str())
}

/// The number of a scale, in memory of `alloc`.
fn number_text(alloc: Global, number: i128, scale: u8) -> Result<Text, AllocError>
    ensures { IfOk result (λ text. text ≡ number_text scale number) }
{
    let size = number.unsigned_abs();
    let mut text = Text::new(alloc);
    if number < 0 {
        text.push('-')?;
    }
    push_decimal(alloc, &mut text, whole_part(size, scale))?;
    if scale > 0 {
        text.push('.')?;
        push_last_digits(&mut text, size, scale)?;
    }
    Ok(text)
}

/// The printed form of a value of a kind, in memory of `alloc`: a number with a minus where it is below 0, at least one
/// digit, and exactly as many digits after a point as the kind's scale says; a text as it is, a day as YYYY-MM-DD, `t`
/// for true and `f` for false, and no text for NULL. A day before 0001-01-01 is shown as 0001-01-01, and one after
/// 9999-12-31 as 9999-12-31.
pub fn show(alloc: Global, value: &Value, kind: Kind) -> Result<Field, AllocError>
    ensures { IfOk result (λ field. field ≡ shown kind value.now) }
{
    match value {
        Value::Number(number) => {
            let text = number_text(alloc, *number, kind.scale())?;
            Ok(Field::Shown(text))
        }
        Value::Words(text) => Ok(Field::Shown(Text::from_str(alloc, text.as_str())?)),
        Value::Day(day) => Ok(Field::Shown(date_text(alloc, *day)?)),
        Value::Truth(true) => Ok(Field::Shown(Text::from_str(alloc, "t")?)),
        Value::Truth(false) => Ok(Field::Shown(Text::from_str(alloc, "f")?)),
        Value::Null => Ok(Field::Null),
    }
}
