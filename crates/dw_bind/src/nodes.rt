//! Bound expressions made of their parts.
ghost use Rattle.std.specs.Prelude.{◌≡◌, Some, IfOk};
ghost use Rattle.dw_expr.specs.BoundTree.{literal, arithmetic, joined, compared, both, either, opposite, is_null, between, in_list, like, choice, choice_else, cast, coalesce, aggregate};
ghost use Rattle.dw_expr.specs.Binding.{null_of};
ghost use Rattle.dw_bind.specs.Gained.{Gains};

use crate::faults::KindFault;
use dw_expr::{Aggregate, BoundArms, BoundExpr, BoundExprs, BoundNode, keep};
use dw_value::{Comparison, Kind, Op, Value};
use std::alloc::{AllocError, Global};

/// A value of a kind.
pub(crate) fn literal(value: Value, kind: Kind) -> BoundExpr
    ensures { result ≡ literal value kind }
{
    BoundExpr {
        node: BoundNode::Literal(value, kind),
    }
}

/// NULL as a value of a kind.
pub(crate) fn null_of(kind: Kind) -> BoundExpr
    ensures { result ≡ null_of kind }
{
    literal(Value::Null, kind)
}

/// Two parts, each in a box of its own.
pub(crate) fn keep_both<A: Drop, B: Drop>(
    alloc: Global,
    a: A,
    b: B,
) -> Result<(Box<A>, Box<B>), AllocError>
    ensures { IfOk result (λ kept. (kept.0.value ≡ a) × (kept.1.value ≡ b)) }
{
    let a = keep(alloc, a)?;
    let b = keep(alloc, b)?;
    Ok((a, b))
}

/// An operation on two numbers.
pub(crate) fn arithmetic(
    alloc: Global,
    op: Op,
    a: BoundExpr,
    b: BoundExpr,
    kind: Kind,
) -> Result<BoundExpr, KindFault>
    ensures { Gains (Some (arithmetic op a b kind)) result }
{
    let (a, b) = keep_both(alloc, a, b)?;
    Ok(BoundExpr {
        node: BoundNode::Arithmetic(op, a, b, kind),
    })
}

/// Two texts, one after the other.
pub(crate) fn joined(alloc: Global, a: BoundExpr, b: BoundExpr) -> Result<BoundExpr, KindFault>
    ensures { Gains (Some (joined a b)) result }
{
    let (a, b) = keep_both(alloc, a, b)?;
    Ok(BoundExpr {
        node: BoundNode::Joined(a, b),
    })
}

/// A comparison.
pub(crate) fn compared(
    alloc: Global,
    comparison: Comparison,
    a: BoundExpr,
    b: BoundExpr,
) -> Result<BoundExpr, KindFault>
    ensures { Gains (Some (compared comparison a b)) result }
{
    let (a, b) = keep_both(alloc, a, b)?;
    Ok(BoundExpr {
        node: BoundNode::Compared(comparison, a, b),
    })
}

/// AND.
pub(crate) fn both(alloc: Global, a: BoundExpr, b: BoundExpr) -> Result<BoundExpr, KindFault>
    ensures { Gains (Some (both a b)) result }
{
    let (a, b) = keep_both(alloc, a, b)?;
    Ok(BoundExpr {
        node: BoundNode::And(a, b),
    })
}

/// OR.
pub(crate) fn either(alloc: Global, a: BoundExpr, b: BoundExpr) -> Result<BoundExpr, KindFault>
    ensures { Gains (Some (either a b)) result }
{
    let (a, b) = keep_both(alloc, a, b)?;
    Ok(BoundExpr {
        node: BoundNode::Or(a, b),
    })
}

/// NOT.
pub(crate) fn opposite(alloc: Global, a: BoundExpr) -> Result<BoundExpr, KindFault>
    ensures { Gains (Some (opposite a)) result }
{
    let a = keep(alloc, a)?;
    Ok(BoundExpr {
        node: BoundNode::Not(a),
    })
}

/// IS NULL.
pub(crate) fn is_null(alloc: Global, negated: bool, a: BoundExpr) -> Result<BoundExpr, KindFault>
    ensures { Gains (Some (is_null negated a)) result }
{
    let a = keep(alloc, a)?;
    Ok(BoundExpr {
        node: BoundNode::IsNull(negated, a),
    })
}

/// BETWEEN.
pub(crate) fn between(
    alloc: Global,
    negated: bool,
    a: BoundExpr,
    low: BoundExpr,
    high: BoundExpr,
) -> Result<BoundExpr, KindFault>
    ensures { Gains (Some (between negated a low high)) result }
{
    let a = keep(alloc, a)?;
    let (low, high) = keep_both(alloc, low, high)?;
    Ok(BoundExpr {
        node: BoundNode::Between(negated, a, low, high),
    })
}

/// IN.
pub(crate) fn in_list(
    alloc: Global,
    negated: bool,
    a: BoundExpr,
    list: BoundExprs,
) -> Result<BoundExpr, KindFault>
    ensures { Gains (Some (in_list negated a list)) result }
{
    let (a, list) = keep_both(alloc, a, list)?;
    Ok(BoundExpr {
        node: BoundNode::InList(negated, a, list),
    })
}

/// LIKE.
pub(crate) fn like(
    alloc: Global,
    negated: bool,
    a: BoundExpr,
    pattern: BoundExpr,
) -> Result<BoundExpr, KindFault>
    ensures { Gains (Some (like negated a pattern)) result }
{
    let (a, pattern) = keep_both(alloc, a, pattern)?;
    Ok(BoundExpr {
        node: BoundNode::Like(negated, a, pattern),
    })
}

/// CASE without ELSE.
pub(crate) fn choice(alloc: Global, branches: BoundArms, kind: Kind) -> Result<BoundExpr, KindFault>
    ensures { Gains (Some (choice branches kind)) result }
{
    let branches = keep(alloc, branches)?;
    Ok(BoundExpr {
        node: BoundNode::Case(branches, None, kind),
    })
}

/// CASE with ELSE.
pub(crate) fn choice_else(
    alloc: Global,
    branches: BoundArms,
    other: BoundExpr,
    kind: Kind,
) -> Result<BoundExpr, KindFault>
    ensures { Gains (Some (choice_else branches other kind)) result }
{
    let (branches, other) = keep_both(alloc, branches, other)?;
    Ok(BoundExpr {
        node: BoundNode::Case(branches, Some(other), kind),
    })
}

/// CAST to a kind.
pub(crate) fn cast(alloc: Global, a: BoundExpr, kind: Kind) -> Result<BoundExpr, KindFault>
    ensures { Gains (Some (cast a kind)) result }
{
    let a = keep(alloc, a)?;
    Ok(BoundExpr {
        node: BoundNode::Cast(a, kind),
    })
}

/// COALESCE.
pub(crate) fn coalesce(alloc: Global, list: BoundExprs, kind: Kind) -> Result<BoundExpr, KindFault>
    ensures { Gains (Some (coalesce list kind)) result }
{
    let list = keep(alloc, list)?;
    Ok(BoundExpr {
        node: BoundNode::Coalesce(list, kind),
    })
}

/// An aggregate with an argument.
pub(crate) fn aggregate(
    alloc: Global,
    function: Aggregate,
    a: BoundExpr,
    kind: Kind,
) -> Result<BoundExpr, KindFault>
    ensures { Gains (Some (aggregate function a kind)) result }
{
    let a = keep(alloc, a)?;
    Ok(BoundExpr {
        node: BoundNode::Aggregate(function, a, kind),
    })
}
