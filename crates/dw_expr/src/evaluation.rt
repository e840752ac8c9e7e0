//! The value of a bound expression on a row.
ghost use Rattle.std.specs.Prelude.{◌≡◌, ℕ, List as Items, option_map, slice_get, unwrap_or, Ok, IfOk};
ghost use Rattle.dw_value.specs.declared.values.Value.{Value as Item};
ghost use Rattle.dw_expr.specs.Evaluation.{Outcome, value, any_equal, chosen, first_known};
ghost use Rattle.dw_expr.specs.Operands.{made_of_two, or_else, outcome_of};
ghost use Rattle.dw_expr.specs.Outcomes.{Gives};

use crate::bound::{BoundArms, BoundArmsNode, BoundExpr, BoundExprs, BoundExprsNode, BoundNode};
use crate::operands::{
    Operand, between, both, brought, calculated, cast, compared, decision, either, is_null, joined,
    like, opposite_if,
};
use dw_value::{Comparison, Fault, Kind, Row, Value};
use std::alloc::{AllocError, Global};

/// Why an expression has no value on a row.
#[derive(Clone, Copy, Debug, PartialEq, Eq, Drop)]
pub enum ExecFault {
    /// Refusals 5 and 6: a value outside its kind, or a division by zero.
    Refused(Fault),
    /// There was no memory for a text. It may come in place of any answer.
    Memory,
}

impl From<AllocError> for ExecFault {
    ghost use Rattle.std.specs.Prelude.{◌≡◌};
    ghost use Rattle.dw_expr.specs.declared.evaluation.ExecFault.{ExecFault};

    ghost from_gives = { λ _ fault. fault ≡ ExecFault.Memory };

    fn from(_: AllocError) -> ExecFault {
        ExecFault::Memory
    }
}

impl From<Fault> for ExecFault {
    ghost use Rattle.std.specs.Prelude.{◌≡◌};
    ghost use Rattle.dw_expr.specs.declared.evaluation.ExecFault.{ExecFault};

    ghost from_gives = { λ reason fault. fault ≡ ExecFault.Refused reason };

    fn from(reason: Fault) -> ExecFault {
        ExecFault::Refused(reason)
    }
}

/// Where the values of a joined row are read: a row of its own, or a place among columns.
pub trait Columns {
    /// The values of the row, one for each column.
    ghost values: { Self → Items Item };

    /// The value at this place, counted from 0; none past the last. It takes no memory.
    fn column(&self, place: u32) -> Option<&Value>
        ensures { option_map (λ read. read.now) result ≡ slice_get (values self.now) place };
}

impl Columns for Row {
    ghost use Rattle.dw_value.specs.declared.values.Row.{Row as Tuple};

    ghost values = { λ row. row.values };

    fn column(&self, place: u32) -> Option<&Value> {
        self.values.get(place as usize)
    }
}

/// What a column holds.
fn column_value<C: Columns>(columns: &C, place: u32) -> Operand<'_>
    ensures { outcome_of result ≡ Ok (unwrap_or (slice_get (C.values columns.now) place) Item.Null) }
{
    match columns.column(place) {
        Some(value) => Operand::Read(value),
        None => Operand::Made(Value::Null),
    }
}

/// What an operation comes to whose two sides come to these, in memory of `alloc`.
fn made_of_two<'a>(
    alloc: Global,
    expr: &BoundExpr,
    left: &Operand<'_>,
    right: &Operand<'_>,
) -> Result<Operand<'a>, AllocError>
    ensures { IfOk result (λ made. outcome_of made ≡
        made_of_two expr.now (outcome_of left.now) (outcome_of right.now)) }
{
    let made = match &expr.node {
        BoundNode::Arithmetic(op, a, b, _) => calculated(*op, left, a.kind(), right, b.kind()),
        BoundNode::Joined(_, _) => joined(alloc, left, right)?,
        BoundNode::Compared(comparison, a, b) => {
            compared(*comparison, left, a.kind(), right, b.kind())
        }
        BoundNode::And(_, _) => both(left, right),
        BoundNode::Or(_, _) => either(left, right),
        BoundNode::Like(negated, _, _) => {
            return Ok(opposite_if(*negated, Operand::of(like(left, right))));
        }
        _ => Ok(Value::Null),
    };
    Ok(Operand::of(made))
}

/// What an expression comes to on a row. A column and a literal are read where they stand. It fails for want of memory
/// alone.
#[cycle(evaluate)]
fn operand<'a, C: Columns>(
    alloc: Global,
    expr: &'a BoundExpr,
    columns: &'a C,
) -> Result<Operand<'a>, AllocError>
    ensures { IfOk result (λ operand. outcome_of operand ≡ value (C.values columns.now) expr.now) }
{
    match &expr.node {
        BoundNode::Column { place, .. } => Ok(column_value(columns, *place)),
        BoundNode::Literal(value, _) => Ok(Operand::Read(value)),
        BoundNode::Arithmetic(_, a, b, _)
        | BoundNode::Joined(a, b)
        | BoundNode::Compared(_, a, b)
        | BoundNode::And(a, b)
        | BoundNode::Or(a, b)
        | BoundNode::Like(_, a, b) => {
            let left = operand(alloc, a, columns)?;
            let right = operand(alloc, b, columns)?;
            made_of_two(alloc, expr, &left, &right)
        }
        BoundNode::Not(a) => Ok(opposite_if(true, operand(alloc, a, columns)?)),
        BoundNode::IsNull(negated, a) => {
            let tested = operand(alloc, a, columns)?;
            Ok(opposite_if(*negated, Operand::of(is_null(&tested))))
        }
        BoundNode::Between(negated, a, low, high) => {
            let tested = operand(alloc, a, columns)?;
            let least = operand(alloc, low, columns)?;
            let most = operand(alloc, high, columns)?;
            let within = between(&tested, a.kind(), &least, low.kind(), &most, high.kind());
            Ok(opposite_if(*negated, Operand::of(within)))
        }
        BoundNode::InList(negated, a, list) => {
            let sought = operand(alloc, a, columns)?;
            let found = equals_any(alloc, &sought, a.kind(), list, columns)?;
            Ok(opposite_if(*negated, found))
        }
        BoundNode::Case(arms, other, kind) => {
            match (found_arm(alloc, arms, *kind, columns)?, other) {
                (Some(found), _) => Ok(found),
                (None, Some(other)) => {
                    let otherwise = operand(alloc, other, columns)?;
                    Ok(brought(*kind, other.kind(), otherwise))
                }
                (None, None) => Ok(Operand::Made(Value::Null)),
            }
        }
        BoundNode::Cast(a, kind) => {
            let given = operand(alloc, a, columns)?;
            Ok(Operand::of(cast(alloc, &given, a.kind(), *kind)?))
        }
        BoundNode::Coalesce(list, kind) => known_first(alloc, list, *kind, columns),
        BoundNode::CountRows | BoundNode::Aggregate(_, _, _) => Ok(Operand::Made(Value::Null)),
    }
}

/// Whether an operand equals one of the list, each of which is evaluated.
#[cycle(evaluate)]
#[tactic(auto, using(crate::proofs::Disjunctions::either_assoc, crate::proofs::Disjunctions::either_false))]
fn equals_any<'a, C: Columns>(
    alloc: Global,
    sought: &Operand<'_>,
    kind: Kind,
    list: &BoundExprs,
    columns: &C,
) -> Result<Operand<'a>, AllocError>
    ensures { IfOk result (λ found. outcome_of found ≡
        any_equal (C.values columns.now) kind (outcome_of sought.now) list.now) }
{
    let mut found = Operand::Made(Value::Truth(false));
    let mut rest = list;
    while let BoundExprsNode::More(a, others) = &rest.node {
        let item = operand(alloc, a, columns)?;
        let here = Operand::of(compared(Comparison::Equal, sought, kind, &item, a.kind()));
        found = Operand::of(either(&found, &here));
        rest = others;
    }
    Ok(found)
}

/// The first value of the list that isn't NULL, as one of this kind.
#[cycle(evaluate)]
fn known_first<'a, C: Columns>(
    alloc: Global,
    list: &'a BoundExprs,
    kind: Kind,
    columns: &'a C,
) -> Result<Operand<'a>, AllocError>
    ensures { IfOk result (λ operand. outcome_of operand ≡ first_known (C.values columns.now) kind list.now) }
{
    let mut rest = list;
    while let BoundExprsNode::More(a, others) = &rest.node {
        let found = brought(kind, a.kind(), operand(alloc, a, columns)?);
        if !found.is_null() {
            return Ok(found);
        }
        rest = others;
    }
    Ok(Operand::Made(Value::Null))
}

/// What the first branch gives whose condition is true, as a value of this kind, or why the condition has none.
#[cycle(evaluate)]
fn found_arm<'a, C: Columns>(
    alloc: Global,
    arms: &'a BoundArms,
    kind: Kind,
    columns: &'a C,
) -> Result<Option<Operand<'a>>, AllocError>
    ensures { IfOk result (λ found. (other : Outcome) →
        chosen (C.values columns.now) kind arms.now other ≡ or_else found other) }
{
    let mut rest = arms;
    while let BoundArmsNode::More(condition, given, others) = &rest.node {
        let condition = operand(alloc, condition, columns)?;
        match decision(&condition) {
            Ok(true) => {
                let found = operand(alloc, given, columns)?;
                return Ok(Some(brought(kind, given.kind(), found)));
            }
            Ok(false) => rest = others,
            Err(fault) => return Ok(Some(Operand::Refused(fault))),
        }
    }
    Ok(None)
}

/// The value of an expression on the row that stands in these columns. All that `evaluate` says holds here too.
pub fn evaluate_at<C: Columns>(
    alloc: Global,
    expr: &BoundExpr,
    columns: &C,
) -> Result<Value, ExecFault>
    ensures { Gives (value (C.values columns.now) expr.now) result }
{
    let found = operand(alloc, expr, columns)?;
    found.into_value()
}

/// The value of an expression on a row: a number at the scale of the expression's kind, and NULL for what is unknown. A
/// column past the row's end is NULL, and so is an aggregate, whose value stands in the row of a group.
///
/// Both sides of an operation are evaluated, and all of a list; of the branches of CASE and the arguments of COALESCE
/// those up to the one that decides. Of the faults of what is evaluated `Range` is told before `Zero`. `Range` comes
/// for a number that its kind doesn't hold, where it is computed, cast, or brought to the kind of CASE or COALESCE, for
/// two texts of together more than 65,535 bytes, and for a CAST of a text that writes no such number or date or that
/// the kind doesn't hold; `Zero` comes for `/` and `%` with 0.
///
/// A comparison, BETWEEN, IN, LIKE and IS NULL of columns and literals take no memory. A text in the answer is the
/// caller's own: it is copied on the allocator of the text that was read, or made in memory of `alloc`. The stack that
/// is taken grows with the expression's depth, and not with the length of its lists and branches.
pub fn evaluate(alloc: Global, expr: &BoundExpr, row: &Row) -> Result<Value, ExecFault>
    ensures { Gives (value row.now.values expr.now) result }
{
    evaluate_at(alloc, expr, row)
}
