//! Literals: their kinds and values, and what a column makes of them.
ghost use Rattle.std.specs.Prelude.{◌≡◌, is_some, option_map, IfOk};
ghost use Rattle.dw_value.specs.Dates.{day_in};
ghost use Rattle.dw_value.specs.declared.values.Value.TheVariants.{Day};
ghost use Rattle.dw_model.specs.declared.statements.Literal.TheVariants.{Date};
ghost use Rattle.dw_model.specs.Creating.{default_made};
ghost use Rattle.dw_model.specs.Literals.{compared_with, held_of_literal, kind_of_literal, literal_goes_with, scale_of_literal, value_of_literal};

use dw_model::Literal;
use dw_value::{Kind, Text, Value, admit, goes_with, literal_kind, read_date};
use std::alloc::AllocError;

// The kind of a literal: a number's by its size and its point, the longest text, a date or a truth, and INTEGER for
// NULL.
fn kind_of_literal(literal: &Literal) -> Kind
    ensures { result ≡ kind_of_literal literal.now }
{
    match literal {
        Literal::Null => Kind::Int,
        Literal::Number { coefficient, scale } => literal_kind(*coefficient, *scale),
        Literal::Words { .. } => Kind::Varchar { length: 65_535 },
        Literal::Date { .. } => Kind::Date,
        Literal::Truth { .. } => Kind::Bool,
    }
}

/// How many digits stood after a literal's point.
pub(crate) fn scale_of_literal(literal: &Literal) -> u8
    ensures { result ≡ scale_of_literal literal.now }
{
    match literal {
        Literal::Number { scale, .. } => *scale,
        Literal::Null | Literal::Words { .. } | Literal::Date { .. } | Literal::Truth { .. } => 0,
    }
}

// The value that a literal writes, with a copy of a text: none for DATE before a text that is no date.
fn value_of_literal(literal: &Literal) -> Result<Option<Value>, AllocError>
    ensures { IfOk result (λ value. value ≡ value_of_literal literal.now) }
{
    Ok(match literal {
        Literal::Null => Some(Value::Null),
        Literal::Number { coefficient, .. } => Some(Value::Number(*coefficient)),
        Literal::Words { text } => Some(Value::Words(text.copy()?)),
        Literal::Date { text } => day_in(text),
        Literal::Truth { value } => Some(Value::Truth(*value)),
    })
}

// The day that a text writes, if it is a date.
fn day_in(text: &Text) -> Option<Value>
    ensures { result ≡ option_map (λ day. Day day) (day_in text.now) }
{
    match read_date(text.as_bytes()) {
        Some(day) => Some(Value::Day(day)),
        None => None,
    }
}

/// Whether a literal may be assigned to a column of this kind: one of the column's class, and a text to a date. It
/// takes no memory.
pub(crate) fn literal_goes_with(kind: Kind, literal: &Literal) -> bool
    ensures { result ≡ literal_goes_with kind literal.now }
{
    match literal {
        Literal::Null => true,
        Literal::Number { .. } => kind.takes_numbers(),
        Literal::Words { .. } => matches!(kind, Kind::Date) || kind.takes_texts(),
        Literal::Date { text } => date_goes_with(kind, text),
        Literal::Truth { .. } => matches!(kind, Kind::Bool),
    }
}

// Whether DATE before this text writes a day, and a column of this kind takes days.
fn date_goes_with(kind: Kind, text: &Text) -> bool
    ensures assigned { result ≡ literal_goes_with kind (Date text.now) }
    ensures compared { result ≡ is_some (compared_with kind (Date text.now)) }
{
    match read_date(text.as_bytes()) {
        Some(_) => matches!(kind, Kind::Date),
        None => false,
    }
}

/// The literal as a column of this kind holds it, if it fits: 1.005 in DECIMAL(4,2) is 1.01.
pub(crate) fn held_literal(kind: Kind, literal: &Literal) -> Result<Option<Value>, AllocError>
    ensures { IfOk result (λ held. held ≡ held_of_literal kind literal.now) }
{
    match value_of_literal(literal)? {
        Some(value) => Ok(admit(kind, value, kind_of_literal(literal)).ok()),
        None => Ok(None),
    }
}

/// The default of a new column of this kind: NULL where none is written, and none where the literal doesn't fit.
pub(crate) fn default_made(
    kind: Kind,
    literal: &Option<Literal>,
) -> Result<Option<Value>, AllocError>
    ensures { IfOk result (λ made. made ≡ default_made kind literal.now) }
{
    match literal {
        None => Ok(Some(Value::Null)),
        Some(literal) => {
            if literal_goes_with(kind, literal) {
                held_literal(kind, literal)
            } else {
                Ok(None)
            }
        }
    }
}

/// The value that a column of this kind is compared with: a text beside a date is read as a date; none where the
/// classes differ.
pub(crate) fn compared_with(kind: Kind, literal: &Literal) -> Result<Option<Value>, AllocError>
    ensures { IfOk result (λ value. value ≡ compared_with kind literal.now) }
{
    match (kind, literal) {
        (Kind::Date, Literal::Words { text }) => Ok(day_in(text)),
        _ => match value_of_literal(literal)? {
            Some(value) => {
                if goes_with(kind, &value) {
                    Ok(Some(value))
                } else {
                    Ok(None)
                }
            }
            None => Ok(None),
        },
    }
}

/// Whether a column of this kind may be compared with a literal. It takes no memory.
pub(crate) fn compares_with(kind: Kind, literal: &Literal) -> bool
    ensures { result ≡ is_some (compared_with kind literal.now) }
{
    match literal {
        Literal::Null => true,
        Literal::Number { .. } => kind.takes_numbers(),
        Literal::Words { text } => match kind {
            Kind::Date => day_in(text).is_some(),
            _ => kind.takes_texts(),
        },
        Literal::Date { text } => date_goes_with(kind, text),
        Literal::Truth { .. } => matches!(kind, Kind::Bool),
    }
}
