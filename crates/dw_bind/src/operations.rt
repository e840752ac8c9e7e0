//! Operations on operands, predicates, casts and aggregates.
ghost use Rattle.std.specs.Prelude.{◌≡◌, Some};
ghost use Rattle.dw_expr.specs.Binding.{comparison_of, arithmetic_on, arithmetic_of, negative_of, joined_of, like_of, both_of, either_of, opposite_of, is_null_of, opposite_if, cast_of, aggregate_of, aggregate_on, unless_truth};
ghost use Rattle.dw_expr.specs.declared.trees.Aggregate as Aggregate;
ghost use Rattle.dw_bind.specs.Gained.{Gains};

use crate::faults::KindFault;
use crate::nodes::{
    aggregate, arithmetic, both, cast, compared, either, is_null, joined, like, literal, null_of,
    opposite,
};
use crate::operands::{against, as_kind, as_text, as_truth, left_side, settled};
use dw_expr::{Aggregate, BoundExpr, Typed, is_castable, sum_kind};
use dw_value::{Comparison, Kind, Op, Value, result_kind};
use std::alloc::Global;

/// A comparison of two expressions of one class.
pub(crate) fn comparison_of(
    alloc: Global,
    comparison: Comparison,
    a: Typed,
    b: Typed,
) -> Result<BoundExpr, KindFault>
    ensures { Gains (comparison_of comparison a b) result }
{
    let left = left_side(a, &b)?;
    let right = against(&left, b)?;
    compared(alloc, comparison, left, right)
}

/// An operation on two numbers of kinds that it takes.
fn arithmetic_on(alloc: Global, op: Op, a: BoundExpr, b: BoundExpr) -> Result<BoundExpr, KindFault>
    ensures { Gains (arithmetic_on op a b) result }
{
    match result_kind(op, a.kind(), b.kind()) {
        Some(kind) => arithmetic(alloc, op, a, b, kind),
        None => Err(KindFault::Clash),
    }
}

/// An operation on two numbers, where NULL has the kind of the other operand.
pub(crate) fn arithmetic_of(
    alloc: Global,
    op: Op,
    a: Typed,
    b: Typed,
) -> Result<BoundExpr, KindFault>
    ensures { Gains (arithmetic_of op a b) result }
{
    match a {
        Typed::Decided(a) => {
            let b = as_kind(a.kind(), b);
            arithmetic_on(alloc, op, a, b)
        }
        Typed::Undecided => {
            let b = settled(b);
            arithmetic_on(alloc, op, null_of(b.kind()), b)
        }
    }
}

/// Unary minus: subtraction from the INTEGER 0.
pub(crate) fn negative_of(alloc: Global, a: Typed) -> Result<BoundExpr, KindFault>
    ensures { Gains (negative_of a) result }
{
    let zero = literal(Value::Number(0), Kind::Int);
    arithmetic_of(alloc, Op::Subtract, Typed::Decided(zero), a)
}

/// Two texts, one after the other.
pub(crate) fn joined_of(alloc: Global, a: Typed, b: Typed) -> Result<BoundExpr, KindFault>
    ensures { Gains (joined_of a b) result }
{
    let a = as_text(a)?;
    let b = as_text(b)?;
    joined(alloc, a, b)
}

/// LIKE.
pub(crate) fn like_of(
    alloc: Global,
    negated: bool,
    a: Typed,
    pattern: Typed,
) -> Result<BoundExpr, KindFault>
    ensures { Gains (like_of negated a pattern) result }
{
    let a = as_text(a)?;
    let pattern = as_text(pattern)?;
    like(alloc, negated, a, pattern)
}

/// AND.
pub(crate) fn both_of(alloc: Global, a: Typed, b: Typed) -> Result<BoundExpr, KindFault>
    ensures { Gains (both_of a b) result }
{
    let a = as_truth(a)?;
    let b = as_truth(b)?;
    both(alloc, a, b)
}

/// OR.
pub(crate) fn either_of(alloc: Global, a: Typed, b: Typed) -> Result<BoundExpr, KindFault>
    ensures { Gains (either_of a b) result }
{
    let a = as_truth(a)?;
    let b = as_truth(b)?;
    either(alloc, a, b)
}

/// NOT.
pub(crate) fn opposite_of(alloc: Global, a: Typed) -> Result<BoundExpr, KindFault>
    ensures { Gains (opposite_of a) result }
{
    let a = as_truth(a)?;
    opposite(alloc, a)
}

/// IS NULL, of any kind.
pub(crate) fn is_null_of(alloc: Global, negated: bool, a: Typed) -> Result<BoundExpr, KindFault>
    ensures { Gains (is_null_of negated a) result }
{
    is_null(alloc, negated, settled(a))
}

/// CAST, where NULL goes to any kind.
pub(crate) fn cast_of(alloc: Global, kind: Kind, a: Typed) -> Result<BoundExpr, KindFault>
    ensures { Gains (cast_of kind a) result }
{
    let a = as_kind(kind, a);
    if is_castable(kind, a.kind()) {
        cast(alloc, a, kind)
    } else {
        Err(KindFault::Clash)
    }
}

/// MIN or MAX, of any kind but truths.
fn unless_truth(alloc: Global, function: Aggregate, a: BoundExpr) -> Result<BoundExpr, KindFault>
    ensures { Gains (unless_truth function a) result }
{
    match a.kind() {
        Kind::Bool => Err(KindFault::Clash),
        kind => aggregate(alloc, function, a, kind),
    }
}

/// SUM, of numbers.
fn sum_of(alloc: Global, a: BoundExpr) -> Result<BoundExpr, KindFault>
    ensures { Gains (aggregate_on Aggregate.Sum a) result }
{
    match sum_kind(a.kind()) {
        Some(kind) => aggregate(alloc, Aggregate::Sum, a, kind),
        None => Err(KindFault::Clash),
    }
}

/// An aggregate with an argument: COUNT of any kind, SUM of numbers, MIN and MAX of any kind but truths.
pub(crate) fn aggregate_of(
    alloc: Global,
    function: Aggregate,
    a: Typed,
) -> Result<BoundExpr, KindFault>
    ensures { Gains (aggregate_of function a) result }
{
    let a = settled(a);
    match function {
        Aggregate::Count | Aggregate::CountDistinct => aggregate(alloc, function, a, Kind::Big),
        Aggregate::Sum => sum_of(alloc, a),
        Aggregate::Min | Aggregate::Max => unless_truth(alloc, function, a),
    }
}

/// NOT, where it is written.
pub(crate) fn opposite_if(
    alloc: Global,
    negated: bool,
    a: BoundExpr,
) -> Result<BoundExpr, KindFault>
    ensures { Gains (Some (opposite_if negated a)) result }
{
    if negated { opposite(alloc, a) } else { Ok(a) }
}
