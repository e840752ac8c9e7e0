//! BETWEEN and IN.
ghost use Rattle.std.specs.Prelude.{◌≡◌, Some, None, IfOk};
ghost use Rattle.dw_expr.specs.Binding.{standing_once, between_of, between_tests, in_of, equality_tests, against_all};
ghost use Rattle.dw_expr.specs.BoundTree.{more};
ghost use Rattle.dw_bind.specs.Gained.{Gains};

use crate::faults::KindFault;
use crate::nodes::{between, both, either, in_list, literal};
use crate::operands::{against, literal_copy, settled};
use crate::operations::{comparison_of, opposite_if};
use dw_expr::{BoundExpr, BoundExprs, BoundExprsNode, Typed, keep};
use dw_value::{Comparison, Kind, List, Value};
use std::alloc::{AllocError, Global};

/// BETWEEN: the operand is at least the one and at most the other.
fn between_tests(
    alloc: Global,
    a: Typed,
    copy: Typed,
    low: Typed,
    high: Typed,
) -> Result<BoundExpr, KindFault>
    requires { copy ≡ a }
    ensures { Gains (between_tests a low high) result }
{
    let least = comparison_of(alloc, Comparison::AtLeast, a, low)?;
    let greatest = comparison_of(alloc, Comparison::AtMost, copy, high)?;
    both(alloc, least, greatest)
}

/// BETWEEN, where the operand is at least the one and at most the other.
pub(crate) fn between_of(
    alloc: Global,
    negated: bool,
    a: Typed,
    low: Typed,
    high: Typed,
) -> Result<BoundExpr, KindFault>
    ensures { Gains (between_of negated a low high) result }
{
    match literal_copy(&a)? {
        Some(copy) => {
            let tests = between_tests(alloc, a, copy, low, high)?;
            opposite_if(alloc, negated, tests)
        }
        None => {
            let operand = settled(a);
            let low = against(&operand, low)?;
            let high = against(&operand, high)?;
            between(alloc, negated, operand, low, high)
        }
    }
}

/// A second expression equal to a literal.
fn literal_again(a: &Typed) -> Result<Typed, AllocError>
    requires { standing_once a.now ≡ None }
    ensures { IfOk result (λ copy. copy ≡ a.now) }
{
    match literal_copy(a)? {
        Some(copy) => Ok(copy),
        None => unreachable!(),
    }
}

/// IN with a literal before it: the literal equals one of the list.
fn equality_tests(alloc: Global, a: &Typed, list: List<Typed>) -> Result<BoundExpr, KindFault>
    requires { standing_once a.now ≡ None }
    ensures { Gains (equality_tests a.now list) result }
{
    let mut list = list;
    let mut tests = literal(Value::Truth(false), Kind::Bool);
    while let Some(b) = list.pop() {
        let copy = literal_again(a)?;
        let test = comparison_of(alloc, Comparison::Equal, copy, b)?;
        tests = either(alloc, test, tests)?;
    }
    Ok(tests)
}

/// An expression before others.
pub(crate) fn more(alloc: Global, a: BoundExpr, rest: BoundExprs) -> Result<BoundExprs, KindFault>
    ensures { Gains (Some (more a rest)) result }
{
    let a = keep(alloc, a)?;
    let rest = keep(alloc, rest)?;
    Ok(BoundExprs {
        node: BoundExprsNode::More(a, rest),
    })
}

/// The expressions of a list, as they are compared with this one.
fn against_all(alloc: Global, a: &BoundExpr, list: List<Typed>) -> Result<BoundExprs, KindFault>
    ensures { Gains (against_all a.now list) result }
{
    let mut list = list;
    let mut bound = BoundExprs {
        node: BoundExprsNode::End,
    };
    while let Some(b) = list.pop() {
        let b = against(a, b)?;
        bound = more(alloc, b, bound)?;
    }
    Ok(bound)
}

/// IN: the operand equals one of the list.
pub(crate) fn in_of(
    alloc: Global,
    negated: bool,
    a: Typed,
    list: List<Typed>,
) -> Result<BoundExpr, KindFault>
    ensures { Gains (in_of negated a list) result }
{
    match literal_copy(&a)? {
        Some(_) => {
            let tests = equality_tests(alloc, &a, list)?;
            opposite_if(alloc, negated, tests)
        }
        None => {
            let operand = settled(a);
            let list = against_all(alloc, &operand, list)?;
            in_list(alloc, negated, operand, list)
        }
    }
}
