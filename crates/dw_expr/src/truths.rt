//! The three-valued logic of the SQL standard, and truths as values.
ghost use Rattle.std.specs.Prelude.{◌≡◌};
ghost use Rattle.dw_expr.specs.Truths.{conjunction, disjunction, negation, truth_in, truth_value};

use dw_value::{Truth, Value};

/// AND: false where one side is, else unknown where one side is. It takes no memory.
pub fn conjunction(a: Truth, b: Truth) -> Truth
    ensures { result ≡ conjunction a b }
{
    match (a, b) {
        (Truth::False, _) | (_, Truth::False) => Truth::False,
        (Truth::True, Truth::True) => Truth::True,
        _ => Truth::Unknown,
    }
}

/// OR: true where one side is, else unknown where one side is. It takes no memory.
pub fn disjunction(a: Truth, b: Truth) -> Truth
    ensures { result ≡ disjunction a b }
{
    match (a, b) {
        (Truth::True, _) | (_, Truth::True) => Truth::True,
        (Truth::False, Truth::False) => Truth::False,
        _ => Truth::Unknown,
    }
}

/// NOT: what is unknown stays so. It takes no memory.
pub fn negation(truth: Truth) -> Truth
    ensures { result ≡ negation truth }
{
    match truth {
        Truth::False => Truth::True,
        Truth::Unknown => Truth::Unknown,
        Truth::True => Truth::False,
    }
}

/// The truth that a value is: unknown for NULL, and for what is no truth. It takes no memory.
pub fn truth_in(value: &Value) -> Truth
    ensures { result ≡ truth_in value.now }
{
    match value {
        Value::Truth(true) => Truth::True,
        Value::Truth(false) => Truth::False,
        Value::Number(_) | Value::Words(_) | Value::Day(_) | Value::Null => Truth::Unknown,
    }
}

/// A truth as a value: NULL where it is unknown. It takes no memory.
pub fn truth_value(truth: Truth) -> Value
    ensures { result ≡ truth_value truth }
{
    match truth {
        Truth::True => Value::Truth(true),
        Truth::False => Value::Truth(false),
        Truth::Unknown => Value::Null,
    }
}
