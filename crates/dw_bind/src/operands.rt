//! Operands, as they are read beside one another.
ghost use Rattle.std.specs.Prelude.{◌≡◌};
ghost use Rattle.std.specs.Option.{option_copied, option_map};
ghost use Rattle.dw_expr.specs.Binding.{as_kind, settled, as_truth, as_text, as_assigned, as_date, read_beside, comparable_only, against, left_side};
ghost use Rattle.dw_bind.specs.Gained.{Gains};
ghost use Rattle.dw_bind.specs.Parts.{literal_in, text_of, words_in, Doubles};

use crate::faults::KindFault;
use crate::nodes::{literal, null_of};
use dw_expr::{BoundExpr, BoundNode, Typed, is_assignable, is_same_class};
use dw_value::{Kind, Text, Value, read_date};
use std::alloc::AllocError;

/// An expression, where the literal NULL takes this kind.
pub(crate) fn as_kind(kind: Kind, a: Typed) -> BoundExpr
    ensures { result ≡ as_kind kind a }
{
    match a {
        Typed::Decided(a) => a,
        Typed::Undecided => null_of(kind),
    }
}

/// An expression where nothing else decides: the literal NULL is an INTEGER.
pub(crate) fn settled(a: Typed) -> BoundExpr
    ensures { result ≡ settled a }
{
    as_kind(Kind::Int, a)
}

/// An expression that has to be a truth.
pub(crate) fn as_truth(a: Typed) -> Result<BoundExpr, KindFault>
    ensures { Gains (as_truth a) result }
{
    let a = as_kind(Kind::Bool, a);
    match a.kind() {
        Kind::Bool => Ok(a),
        _ => Err(KindFault::Clash),
    }
}

/// An expression that has to be a text.
pub(crate) fn as_text(a: Typed) -> Result<BoundExpr, KindFault>
    ensures { Gains (as_text a) result }
{
    let a = as_kind(Kind::Varchar { length: 65535 }, a);
    if a.kind().takes_texts() {
        Ok(a)
    } else {
        Err(KindFault::Clash)
    }
}

/// An expression that is assigned to a column of this kind.
pub(crate) fn as_assigned(kind: Kind, a: Typed) -> Result<BoundExpr, KindFault>
    ensures { Gains (as_assigned kind a) result }
{
    let a = as_kind(kind, a);
    if is_assignable(kind, a.kind()) {
        Ok(a)
    } else {
        Err(KindFault::Clash)
    }
}

/// The value of a literal, and its kind.
fn literal_in(a: &BoundExpr) -> Option<(&Value, Kind)>
    ensures { option_map (λ found. (found.0.now, found.1)) result ≡ literal_in a.now }
{
    match &a.node {
        BoundNode::Literal(value, kind) => Some((value, *kind)),
        BoundNode::Column { .. }
        | BoundNode::Arithmetic(_, _, _, _)
        | BoundNode::Joined(_, _)
        | BoundNode::Compared(_, _, _)
        | BoundNode::And(_, _)
        | BoundNode::Or(_, _)
        | BoundNode::Not(_)
        | BoundNode::IsNull(_, _)
        | BoundNode::Between(_, _, _, _)
        | BoundNode::InList(_, _, _)
        | BoundNode::Like(_, _, _)
        | BoundNode::Case(_, _, _)
        | BoundNode::Cast(_, _)
        | BoundNode::Coalesce(_, _)
        | BoundNode::CountRows
        | BoundNode::Aggregate(_, _, _) => None,
    }
}

/// The text that a value is.
fn text_in(value: &Value) -> Option<&Text>
    ensures { option_copied result ≡ text_of value.now }
{
    match value {
        Value::Words(text) => Some(text),
        Value::Null | Value::Number(_) | Value::Day(_) | Value::Truth(_) => None,
    }
}

/// The text of a text literal.
#[tactic(auto, using(crate::proofs::Literals::words_of_literal, crate::proofs::Literals::words_of_others))]
fn words_in(a: &BoundExpr) -> Option<&Text>
    ensures { option_copied result ≡ words_in a.now }
{
    match literal_in(a) {
        Some((value, _)) => text_in(value),
        None => None,
    }
}

/// A text literal read as a date; every other expression as it is.
#[tactic(auto, using(crate::proofs::Literals::as_date_of_words, crate::proofs::Literals::as_date_of_others))]
fn as_date(a: BoundExpr) -> Result<BoundExpr, KindFault>
    ensures { Gains (as_date a) result }
{
    match words_in(&a) {
        Some(text) => match read_date(text.as_bytes()) {
            Some(day) => Ok(literal(Value::Day(day), Kind::Date)),
            None => Err(KindFault::Clash),
        },
        None => Ok(a),
    }
}

/// An expression as it is read in a comparison beside one of this kind: a text literal beside a date as a date.
fn read_beside(kind: Kind, a: BoundExpr) -> Result<BoundExpr, KindFault>
    ensures { Gains (read_beside kind a) result }
{
    match kind {
        Kind::Date => as_date(a),
        _ => Ok(a),
    }
}

/// An expression whose values may be compared with those of this kind.
fn comparable_only(kind: Kind, a: BoundExpr) -> Result<BoundExpr, KindFault>
    ensures { Gains (comparable_only kind a) result }
{
    if is_same_class(kind, a.kind()) {
        Ok(a)
    } else {
        Err(KindFault::Clash)
    }
}

/// The right side of a comparison with this expression on the left: NULL goes with any kind.
pub(crate) fn against(a: &BoundExpr, b: Typed) -> Result<BoundExpr, KindFault>
    ensures { Gains (against a.now b) result }
{
    match b {
        Typed::Undecided => Ok(null_of(a.kind())),
        Typed::Decided(b) => {
            let b = read_beside(a.kind(), b)?;
            comparable_only(a.kind(), b)
        }
    }
}

/// The left side of a comparison, as it is read beside the right one.
pub(crate) fn left_side(a: Typed, b: &Typed) -> Result<BoundExpr, KindFault>
    ensures { Gains (left_side a b.now) result }
{
    match (a, b) {
        (Typed::Decided(a), Typed::Decided(b)) => read_beside(b.kind(), a),
        (Typed::Decided(a), Typed::Undecided) => Ok(a),
        (Typed::Undecided, Typed::Decided(b)) => Ok(null_of(b.kind())),
        (Typed::Undecided, Typed::Undecided) => Ok(null_of(Kind::Int)),
    }
}

/// A second expression equal to the first where that is a literal, so that it stands in each comparison; `None` where it
/// stands once.
#[tactic(auto, using(crate::proofs::Literals::literal_found, crate::proofs::Literals::no_literal))]
pub(crate) fn literal_copy(a: &Typed) -> Result<Option<Typed>, AllocError>
    ensures { Doubles a.now result }
{
    match a {
        Typed::Undecided => Ok(Some(Typed::Undecided)),
        Typed::Decided(a) => match literal_in(a) {
            Some((value, kind)) => {
                let value = value.copy()?;
                Ok(Some(Typed::Decided(literal(value, kind))))
            }
            None => Ok(None),
        },
    }
}
