//! Expressions bound to the columns in sight.
ghost use Rattle.std.specs.Prelude.{◌≡◌, []};
ghost use Rattle.std.specs.Option.{option_map, option_and_then};
ghost use Rattle.dw_expr.specs.Sight.{meant};
ghost use Rattle.dw_expr.specs.Binding.{column_at, typed_literal, typed, typed_all, typed_arms, as_wanted, bound};
ghost use Rattle.dw_bind.specs.Given.{Gives};
ghost use Rattle.dw_bind.specs.Gained.{Gains};
ghost use Rattle.dw_bind.specs.Steps.{after, counted};

use crate::branches::{arm_of, choice_else_of, choice_of, coalesce_of};
use crate::comparisons::{between_of, in_of};
use crate::faults::KindFault;
use crate::nodes::literal;
use crate::operands::{as_assigned, as_truth, settled};
use crate::operations::{
    aggregate_of, arithmetic_of, both_of, cast_of, comparison_of, either_of, is_null_of, joined_of,
    like_of, negative_of, opposite_of,
};
use crate::sight::Sight;
use crate::unknown::unknown_in;
use dw_expr::{
    Arms, ArmsNode, BindFault, BoundExpr, BoundNode, Expr, Exprs, ExprsNode, Literal, Node, Typed,
    TypedArm, Wanted,
};
use dw_value::{Kind, List, Text, Value, literal_kind, read_date};
use std::alloc::Global;

/// The column that a name means, at its place. A source's number or a place that has no 32 bits is told as a want of
/// memory.
#[tactic(auto, using(crate::proofs::Columns::column_unknown, crate::proofs::Columns::column_found))]
fn column_of(sight: &Sight, source: &Option<Text>, name: &Text) -> Result<Typed, KindFault>
    ensures { Gains
        (option_map column_at (meant sight.now (record { source = source.now; name = name.now }))) result }
{
    let Some(found) = sight.find(source, name) else {
        return Err(KindFault::Clash);
    };
    let Ok(source) = u32::try_from(found.source) else {
        return Err(KindFault::Memory);
    };
    let Ok(place) = u32::try_from(found.place) else {
        return Err(KindFault::Memory);
    };
    Ok(Typed::Decided(BoundExpr {
        node: BoundNode::Column {
            source,
            place,
            kind: found.kind,
        },
    }))
}

/// A literal: a number of the narrowest kind that holds it, a text of the longest kind, a date that the calendar has.
fn literal_of(written: &Literal) -> Result<Typed, KindFault>
    ensures { Gains (typed_literal written.now) result }
{
    match written {
        Literal::Null => Ok(Typed::Undecided),
        Literal::Number { coefficient, scale } => {
            let kind = literal_kind(*coefficient, *scale);
            Ok(Typed::Decided(literal(Value::Number(*coefficient), kind)))
        }
        Literal::Words { text } => {
            let text = text.copy()?;
            let kind = Kind::Varchar { length: 65535 };
            Ok(Typed::Decided(literal(Value::Words(text), kind)))
        }
        Literal::Date { text } => match read_date(text.as_bytes()) {
            Some(day) => Ok(Typed::Decided(literal(Value::Day(day), Kind::Date))),
            None => Err(KindFault::Clash),
        },
        Literal::Truth { value } => {
            Ok(Typed::Decided(literal(Value::Truth(*value), Kind::Bool)))
        }
    }
}

/// `count(*)`, where aggregates may stand.
fn count_of(aggregates: bool) -> Result<Typed, KindFault>
    ensures { Gains (counted aggregates) result }
{
    if aggregates {
        Ok(Typed::Decided(BoundExpr {
            node: BoundNode::CountRows,
        }))
    } else {
        Err(KindFault::Clash)
    }
}

/// An expression of known names with its kind. `aggregates` says whether aggregates may stand in it.
#[cycle(typed)]
fn typed(alloc: Global, sight: &Sight, aggregates: bool, expr: &Expr) -> Result<Typed, KindFault>
    ensures { Gains (typed sight.now aggregates expr.now) result }
{
    match &expr.node {
        Node::Column { source, name } => column_of(sight, source, name),
        Node::Literal(written) => literal_of(written),
        Node::Negative(a) => {
            let a = typed(alloc, sight, aggregates, a)?;
            Ok(Typed::Decided(negative_of(alloc, a)?))
        }
        Node::Arithmetic(op, a, b) => {
            let a = typed(alloc, sight, aggregates, a)?;
            let b = typed(alloc, sight, aggregates, b)?;
            Ok(Typed::Decided(arithmetic_of(alloc, *op, a, b)?))
        }
        Node::Joined(a, b) => {
            let a = typed(alloc, sight, aggregates, a)?;
            let b = typed(alloc, sight, aggregates, b)?;
            Ok(Typed::Decided(joined_of(alloc, a, b)?))
        }
        Node::Compared(comparison, a, b) => {
            let a = typed(alloc, sight, aggregates, a)?;
            let b = typed(alloc, sight, aggregates, b)?;
            Ok(Typed::Decided(comparison_of(alloc, *comparison, a, b)?))
        }
        Node::And(a, b) => {
            let a = typed(alloc, sight, aggregates, a)?;
            let b = typed(alloc, sight, aggregates, b)?;
            Ok(Typed::Decided(both_of(alloc, a, b)?))
        }
        Node::Or(a, b) => {
            let a = typed(alloc, sight, aggregates, a)?;
            let b = typed(alloc, sight, aggregates, b)?;
            Ok(Typed::Decided(either_of(alloc, a, b)?))
        }
        Node::Not(a) => {
            let a = typed(alloc, sight, aggregates, a)?;
            Ok(Typed::Decided(opposite_of(alloc, a)?))
        }
        Node::IsNull(negated, a) => {
            let a = typed(alloc, sight, aggregates, a)?;
            Ok(Typed::Decided(is_null_of(alloc, *negated, a)?))
        }
        Node::Between(negated, a, low, high) => {
            let a = typed(alloc, sight, aggregates, a)?;
            let low = typed(alloc, sight, aggregates, low)?;
            let high = typed(alloc, sight, aggregates, high)?;
            Ok(Typed::Decided(between_of(alloc, *negated, a, low, high)?))
        }
        Node::InList(negated, a, list) => {
            let a = typed(alloc, sight, aggregates, a)?;
            let list = typed_all(alloc, sight, aggregates, list)?;
            Ok(Typed::Decided(in_of(alloc, *negated, a, list)?))
        }
        Node::Like(negated, a, pattern) => {
            let a = typed(alloc, sight, aggregates, a)?;
            let pattern = typed(alloc, sight, aggregates, pattern)?;
            Ok(Typed::Decided(like_of(alloc, *negated, a, pattern)?))
        }
        Node::Case(arms, None) => {
            let arms = typed_arms(alloc, sight, aggregates, arms)?;
            Ok(Typed::Decided(choice_of(alloc, arms)?))
        }
        Node::Case(arms, Some(other)) => {
            let arms = typed_arms(alloc, sight, aggregates, arms)?;
            let other = typed(alloc, sight, aggregates, other)?;
            Ok(Typed::Decided(choice_else_of(alloc, arms, other)?))
        }
        Node::Cast(a, kind) => {
            let a = typed(alloc, sight, aggregates, a)?;
            Ok(Typed::Decided(cast_of(alloc, *kind, a)?))
        }
        Node::Coalesce(list) => {
            let list = typed_all(alloc, sight, aggregates, list)?;
            Ok(Typed::Decided(coalesce_of(alloc, list)?))
        }
        Node::CountRows => count_of(aggregates),
        Node::Aggregate(function, a) => {
            if !aggregates {
                return Err(KindFault::Clash);
            }
            let a = typed(alloc, sight, false, a)?;
            Ok(Typed::Decided(aggregate_of(alloc, *function, a)?))
        }
    }
}

/// The expressions of a row with their kinds.
#[cycle(typed)]
#[tactic(auto, using(crate::proofs::Typing::after_nothing, crate::proofs::Typing::after_end, crate::proofs::Typing::after_more))]
fn typed_all(
    alloc: Global,
    sight: &Sight,
    aggregates: bool,
    list: &Exprs,
) -> Result<List<Typed>, KindFault>
    ensures { Gains (typed_all sight.now aggregates list.now) result }
{
    let mut items = List::new(alloc);
    let mut rest = list;
    while let ExprsNode::More(a, others) = &rest.node {
        items.push(typed(alloc, sight, aggregates, a)?)?;
        rest = others;
    }
    Ok(items)
}

/// The branches of CASE with their kinds.
#[cycle(typed)]
#[tactic(auto, using(crate::proofs::Typing::after_nothing, crate::proofs::Typing::after_end, crate::proofs::Typing::after_more))]
fn typed_arms(
    alloc: Global,
    sight: &Sight,
    aggregates: bool,
    arms: &Arms,
) -> Result<List<TypedArm>, KindFault>
    ensures { Gains (typed_arms sight.now aggregates arms.now) result }
{
    let mut items = List::new(alloc);
    let mut rest = arms;
    while let ArmsNode::More(condition, value, others) = &rest.node {
        let condition = typed(alloc, sight, aggregates, condition)?;
        let value = typed(alloc, sight, aggregates, value)?;
        items.push(arm_of(condition, value)?)?;
        rest = others;
    }
    Ok(items)
}

/// An expression as it is wanted where it stands.
fn as_wanted(wanted: Wanted, a: Typed) -> Result<BoundExpr, KindFault>
    ensures { Gains (as_wanted wanted a) result }
{
    match wanted {
        Wanted::Anything => Ok(settled(a)),
        Wanted::Condition => as_truth(a),
        Wanted::Assigned(kind) => as_assigned(kind, a),
    }
}

/// An expression of known names, as it is wanted.
fn wanted_of(
    alloc: Global,
    expr: &Expr,
    sight: &Sight,
    aggregates: bool,
    wanted: Wanted,
) -> Result<BoundExpr, KindFault>
    ensures { Gains (option_and_then (as_wanted wanted) (typed sight.now aggregates expr.now)) result }
{
    let a = typed(alloc, sight, aggregates, expr)?;
    as_wanted(wanted, a)
}

/// The expression bound to the columns in sight, each name a column at its place and each expression with its kind, as
/// it is wanted where it stands; `aggregates` says whether aggregates may stand in it. A name that is the name of no
/// column in sight, or of more than one, gives `Unknown` with the first such name in text order, whatever else is
/// wrong; kinds that don't go together, a date that the calendar doesn't have, and an aggregate where none may stand
/// give `Clash`. `Memory` may come in place of any answer: for want of memory, and where a source's number or a
/// column's place has no 32 bits.
pub fn bind_expression(
    alloc: Global,
    expr: &Expr,
    sight: &Sight,
    aggregates: bool,
    wanted: Wanted,
) -> Result<BoundExpr, BindFault>
    ensures { Gives (bound sight.now aggregates wanted expr.now) result }
{
    match unknown_in(sight, expr) {
        Some(name) => match name.copy() {
            Ok(name) => Err(BindFault::Unknown { name }),
            Err(_) => Err(BindFault::Memory),
        },
        None => match wanted_of(alloc, expr, sight, aggregates, wanted) {
            Ok(a) => Ok(a),
            Err(KindFault::Clash) => Err(BindFault::Clash),
            Err(KindFault::Memory) => Err(BindFault::Memory),
        },
    }
}
