//! Arithmetic on values.
ghost use Rattle.std.specs.Prelude.{◌≡◌, ◌+ℤ◌, ◌-ℤ◌, ◌*ℤ◌, int_div, int_rem};
ghost use Rattle.dw_value.specs.Arithmetic.{in_range, unless_zero, operand, number_computed, computed_by, computed};

use crate::columns::holds_number;
use crate::kinds::{Fault, Kind, Op};
use crate::results::result_kind;
use crate::scaling::raise;
use crate::values::Value;

/// The number, where its kind holds it.
fn in_range(kind: Kind, number: i128) -> Result<i128, Fault>
    ensures { result ≡ in_range kind number }
{
    if holds_number(kind, number) {
        Ok(number)
    } else {
        Err(Fault::Range)
    }
}

/// A kind's number at the scale of the result, where the result's kind holds it.
fn operand(wanted: Kind, kind: Kind, number: i128) -> Result<i128, Fault>
    ensures { result ≡ in_range wanted (operand wanted kind number) }
{
    match raise(number, wanted.scale().saturating_sub(kind.scale())) {
        Some(raised) => in_range(wanted, raised),
        None => Err(Fault::Range),
    }
}

/// The sum of two numbers of these kinds, where the result has a kind.
fn sum(kind: Kind, a: i128, a_kind: Kind, b: i128, b_kind: Kind) -> Result<i128, Fault>
    ensures { result ≡ number_computed Op.Add kind a_kind a b_kind b }
{
    let a = operand(kind, a_kind, a)?;
    let b = operand(kind, b_kind, b)?;
    add(kind, a, b)
}

/// The difference of two numbers of these kinds, where the result has a kind.
fn difference(kind: Kind, a: i128, a_kind: Kind, b: i128, b_kind: Kind) -> Result<i128, Fault>
    ensures { result ≡ number_computed Op.Subtract kind a_kind a b_kind b }
{
    let a = operand(kind, a_kind, a)?;
    let b = operand(kind, b_kind, b)?;
    subtract(kind, a, b)
}

/// The sum, where its kind holds it.
fn add(kind: Kind, a: i128, b: i128) -> Result<i128, Fault>
    ensures { result ≡ in_range kind (a +ℤ b) }
{
    match a.checked_add(b) {
        Some(sum) => in_range(kind, sum),
        None => Err(Fault::Range),
    }
}

/// The difference, where its kind holds it.
fn subtract(kind: Kind, a: i128, b: i128) -> Result<i128, Fault>
    ensures { result ≡ in_range kind (a -ℤ b) }
{
    match a.checked_sub(b) {
        Some(difference) => in_range(kind, difference),
        None => Err(Fault::Range),
    }
}

/// The product, where its kind holds it.
fn multiply(kind: Kind, a: i128, b: i128) -> Result<i128, Fault>
    ensures { result ≡ in_range kind (a *ℤ b) }
{
    match a.checked_mul(b) {
        Some(product) => in_range(kind, product),
        None => Err(Fault::Range),
    }
}

/// The quotient toward zero, where its kind holds it.
fn divide(kind: Kind, a: i128, b: i128) -> Result<i128, Fault>
    ensures { result ≡ unless_zero b (in_range kind (int_div a b)) }
{
    if b == 0 {
        return Err(Fault::Zero);
    }
    match a.checked_div(b) {
        Some(quotient) => in_range(kind, quotient),
        None => Err(Fault::Range),
    }
}

/// What the quotient leaves, with the sign of the dividend.
fn remainder(kind: Kind, a: i128, b: i128) -> Result<i128, Fault>
    ensures { result ≡ unless_zero b (in_range kind (int_rem a b)) }
{
    if b == 0 {
        return Err(Fault::Zero);
    }
    in_range(kind, a.wrapping_rem(b))
}

/// The operation on two numbers of these kinds, where the result has a kind.
fn compute_number(
    op: Op,
    kind: Kind,
    a: i128,
    a_kind: Kind,
    b: i128,
    b_kind: Kind,
) -> Result<i128, Fault>
    ensures { result ≡ number_computed op kind a_kind a b_kind b }
{
    match op {
        Op::Add => sum(kind, a, a_kind, b, b_kind),
        Op::Subtract => difference(kind, a, a_kind, b, b_kind),
        Op::Multiply => multiply(kind, a, b),
        Op::Divide => divide(kind, a, b),
        Op::Remainder => remainder(kind, a, b),
    }
}

/// The operation on two values of these kinds, whose result is of the kind that `result_kind` gives. With NULL on
/// either side it is NULL; so it is for kinds that `result_kind` doesn't take, and for values that aren't numbers.
///
/// `+`, `-` and `*` are exact, `/` goes toward zero, and `%` is what `/` leaves, with the sign of the dividend. `Range`
/// comes exactly where a number is outside the result's kind: the result, or for `+` and `-` also one of the operands,
/// brought to the result's scale; for DECIMAL these are coefficients of 10^38 or more in size. `Zero` comes exactly for
/// `/` and `%` with 0. It takes no memory.
pub fn compute(op: Op, a: &Value, a_kind: Kind, b: &Value, b_kind: Kind) -> Result<Value, Fault>
    ensures { result ≡ computed op a.now a_kind b.now b_kind }
{
    let (Value::Number(a), Value::Number(b)) = (a, b) else {
        return Ok(Value::Null);
    };
    let Some(kind) = result_kind(op, a_kind, b_kind) else {
        return Ok(Value::Null);
    };
    let number = compute_number(op, kind, *a, a_kind, *b, b_kind)?;
    Ok(Value::Number(number))
}
