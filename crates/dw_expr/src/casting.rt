//! CAST of a value from one kind to another.
ghost use Rattle.std.specs.Prelude.{◌≡◌, IfOk, IsTrue};
ghost use Rattle.dw_value.specs.declared.values.Value.{Value as Item};
ghost use Rattle.dw_value.specs.Arithmetic.{in_range, number_value};
ghost use Rattle.dw_value.specs.Assignment.{admitted};
ghost use Rattle.dw_value.specs.Values.{held, takes_texts};
ghost use Rattle.dw_value.specs.Written.{number_in};
ghost use Rattle.dw_expr.specs.Casting.{cast_value, fitting, number_read, text_cast, text_value};
ghost use Rattle.dw_expr.specs.Evaluation.{brought};

use dw_value::{Fault, Field, Kind, Text, Value, admit, holds_number, read_number, show};
use std::alloc::{AllocError, Global};

/// The value as an assignment makes it; every misfit is a value outside its kind.
fn assigned(to: Kind, value: Value, from: Kind) -> Result<Value, Fault>
    ensures { result ≡ fitting (admitted to value from) }
{
    match admit(to, value, from) {
        Ok(value) => Ok(value),
        Err(_) => Err(Fault::Range),
    }
}

/// The number that a text writes.
fn number_in(to: Kind, text: &Text) -> Result<Value, Fault>
    ensures { result ≡ number_read (number_in to text.now) }
{
    match read_number(to, text.as_bytes()) {
        Ok(number) => Ok(Value::Number(number)),
        Err(_) => Err(Fault::Range),
    }
}

/// A printed form as a text.
fn text_value(field: Field) -> Value
    ensures { result ≡ text_value field }
{
    match field {
        Field::Shown(text) => Value::Words(text),
        Field::Null => Value::Null,
    }
}

/// A printed form as a column of texts holds it.
fn text_held(to: Kind, field: Field) -> Result<Value, Fault>
    requires { IsTrue (takes_texts to) }
    ensures { result ≡ fitting (held to (text_value field)) }
{
    assigned(to, text_value(field), to)
}

/// The value of the kind `from` as one of the kind `to`: to a text by its printed form, from a text to a number by what
/// it writes, and else as in an assignment. The fault is `Range`, and comes exactly where the assignment has a misfit
/// or the text writes no number of the kind. Memory is taken for texts alone, from `alloc` where one is printed, and
/// else from the allocator of the text that is copied.
pub fn cast_value(
    alloc: Global,
    to: Kind,
    value: &Value,
    from: Kind,
) -> Result<Result<Value, Fault>, AllocError>
    ensures { IfOk result (λ cast. cast ≡ cast_value to value.now from) }
{
    match value {
        Value::Words(text) if to.takes_numbers() => Ok(number_in(to, text)),
        Value::Words(_) => Ok(assigned(to, value.copy()?, from)),
        _ if to.takes_texts() => {
            let field = show(alloc, value, from)?;
            Ok(text_held(to, field))
        }
        _ => Ok(assigned(to, value.copy()?, from)),
    }
}

/// The number, where its kind holds it.
fn number_held(kind: Kind, number: i128) -> Result<Value, Fault>
    ensures { result ≡ number_value (in_range kind number) }
{
    if holds_number(kind, number) {
        Ok(Value::Number(number))
    } else {
        Err(Fault::Range)
    }
}

/// A number of the kind `from` as one of the kind of CASE or COALESCE, at its scale. The fault is `Range`, and comes
/// exactly where the kind doesn't hold the number. It takes no memory.
pub fn brought_number(kind: Kind, from: Kind, number: i128) -> Result<Value, Fault>
    ensures { result ≡ brought kind from (Item.Number number) }
{
    if from.scale() <= kind.scale() {
        assigned(kind, Value::Number(number), from)
    } else {
        number_held(kind, number)
    }
}
