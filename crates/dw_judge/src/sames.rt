//! Whether two answers, or two refusals, are the same.
ghost use Rattle.std.specs.Prelude.{◌≡◌};
ghost use Rattle.std.specs.Bool.{Decides};
ghost use Rattle.std.specs.Cmp.Lexicographic.{pointwise};
ghost use Rattle.dw_judge.specs.Sames.{same_answer, same_field, same_refusal};

use crate::dues::is_same_word;
use dw_model::{Answer, Refusal};
use dw_value::{Field, List};

/// Whether two answers are the same.
pub(crate) fn is_same_answer(a: &Answer, b: &Answer) -> bool
    ensures { result ≡ same_answer a.now b.now }
{
    match a {
        Answer::Rows { word, names, rows } => match b {
            Answer::Rows {
                word: other,
                names: named,
                rows: found,
            } => {
                is_same_word(*word, *other)
                    && names == named
                    && have_same_rows(rows.as_slice(), found.as_slice())
            }
            _ => false,
        },
        Answer::Count { word, count } => match b {
            Answer::Count {
                word: other,
                count: counted,
            } => is_same_word(*word, *other) && count == counted,
            _ => false,
        },
        Answer::Plain { word } => match b {
            Answer::Plain { word: other } => is_same_word(*word, *other),
            _ => false,
        },
    }
}

/// Whether these are the same rows in the same order, as a test of the definitions.
fn have_same_rows(a: &[List<Field>], b: &[List<Field>]) -> bool
    ensures { result ≡ pointwise (pointwise same_field) a.now b.now }
{
    are_same_rows(a, b)
}

/// Whether these are the same rows in the same order.
fn are_same_rows(a: &[List<Field>], b: &[List<Field>]) -> bool
    ensures { Decides result (a.now ≡ b.now) }
{
    if a.len() != b.len() {
        return false;
    }
    for place in 0..a.len() {
        if !are_same_fields(a[place].as_slice(), b[place].as_slice()) {
            return false;
        }
    }
    true
}

/// Whether these are the same fields in the same order.
fn are_same_fields(a: &[Field], b: &[Field]) -> bool
    ensures { Decides result (a.now ≡ b.now) }
{
    if a.len() != b.len() {
        return false;
    }
    for place in 0..a.len() {
        if !is_same_field(&a[place], &b[place]) {
            return false;
        }
    }
    true
}

/// Whether two fields are the same.
fn is_same_field(a: &Field, b: &Field) -> bool
    ensures { result ≡ same_field a.now b.now }
{
    match a {
        Field::Null => match b {
            Field::Null => true,
            Field::Shown(_) => false,
        },
        Field::Shown(text) => match b {
            Field::Shown(other) => text == other,
            Field::Null => false,
        },
    }
}

/// Whether two refusals are the same.
pub(crate) fn is_same_refusal(a: &Refusal, b: &Refusal) -> bool
    ensures { result ≡ same_refusal a.now b.now }
{
    match a {
        Refusal::Syntax { place } => match b {
            Refusal::Syntax { place: other } => place == other,
            _ => false,
        },
        Refusal::Unknown { name } => match b {
            Refusal::Unknown { name: other } => name == other,
            _ => false,
        },
        Refusal::Exists { name } => match b {
            Refusal::Exists { name: other } => name == other,
            _ => false,
        },
        Refusal::NullIn { column } => match b {
            Refusal::NullIn { column: other } => column == other,
            _ => false,
        },
        Refusal::Deadlock { cycle } => match b {
            Refusal::Deadlock { cycle: other } => cycle == other,
            _ => false,
        },
        Refusal::Vacuuming { session } => match b {
            Refusal::Vacuuming { session: other } => session == other,
            _ => false,
        },
        Refusal::Limit { count } => match b {
            Refusal::Limit { count: other } => count == other,
            _ => false,
        },
        Refusal::Clash => matches!(b, Refusal::Clash),
        Refusal::Range => matches!(b, Refusal::Range),
        Refusal::Aborted => matches!(b, Refusal::Aborted),
        Refusal::InBlock => matches!(b, Refusal::InBlock),
        Refusal::Memory => matches!(b, Refusal::Memory),
    }
}
