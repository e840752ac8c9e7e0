//! What the operands of an expression come to, read where they stand, and what operations make of them.
ghost use Rattle.std.specs.Prelude.{◌≡◌, IfOk, if◌then◌else◌};
ghost use Rattle.dw_value.specs.declared.values.Value.{Value as Item};
ghost use Rattle.dw_expr.specs.Evaluation.{Outcome, least_fault, of_one, of_two, if_true, unless_null, not_if};
ghost use Rattle.dw_expr.specs.Evaluation.{arithmetic_value, comparison_of, joined_value, like_value, is_null_value};
ghost use Rattle.dw_expr.specs.Evaluation.{both_of, either_of, brought_of, cast_outcome};
ghost use Rattle.dw_expr.specs.Operands.{AreBoth, IsOutcome, decided, outcome_of};
ghost use Rattle.dw_expr.specs.Outcomes.{Gives};

use crate::casting::{brought_number, cast_value};
use crate::evaluation::ExecFault;
use crate::truths::{conjunction, disjunction, negation, truth_in, truth_value};
use dw_like::is_like;
use dw_value::{Comparison, Fault, Kind, Op, Text, Value, compute};
use std::alloc::{AllocError, Global};

/// What an operand comes to.
#[derive(Drop)]
pub enum Operand<'a> {
    /// A value that stands in a column or in the expression.
    Read(&'a Value),
    /// A value that was made.
    Made(Value),
    /// No value.
    Refused(Fault),
}

impl<'a> Operand<'a> {
    /// The value or its fault as an operand. It takes no memory.
    pub fn of(outcome: Result<Value, Fault>) -> Operand<'a>
        ensures { outcome_of result ≡ outcome }
    {
        match outcome {
            Ok(value) => Operand::Made(value),
            Err(fault) => Operand::Refused(fault),
        }
    }

    /// The value itself, which is copied, on its own allocator, where it stands elsewhere.
    pub fn into_value(self) -> Result<Value, ExecFault>
        ensures { Gives (outcome_of self.entry) result }
    {
        match self {
            Operand::Read(value) => Ok(value.copy()?),
            Operand::Made(value) => Ok(value),
            Operand::Refused(fault) => Err(ExecFault::Refused(fault)),
        }
    }

    /// Whether it is NULL; a fault isn't. It takes no memory.
    pub fn is_null(&self) -> bool
        ensures { (rest : Outcome) →
            unless_null (outcome_of self.now) rest ≡ if result then rest else outcome_of self.now }
    {
        match self.outcome() {
            Ok(value) => value.is_null(),
            Err(_) => false,
        }
    }

    /// The value or its fault.
    fn outcome(&self) -> Result<&Value, Fault>
        ensures { IsOutcome (outcome_of self.now) result }
    {
        match self {
            Operand::Read(value) => Ok(value),
            Operand::Made(value) => Ok(value),
            Operand::Refused(fault) => Err(*fault),
        }
    }
}

/// Of two faults the one that is told.
fn least_fault(a: Fault, b: Fault) -> Fault
    ensures { result ≡ least_fault a b }
{
    match (a, b) {
        (Fault::Zero, Fault::Zero) => Fault::Zero,
        _ => Fault::Range,
    }
}

/// The values of two operands, or the fault that is told of both.
fn both_values<'b>(a: &'b Operand<'_>, b: &'b Operand<'_>) -> Result<(&'b Value, &'b Value), Fault>
    ensures { AreBoth (outcome_of a.now) (outcome_of b.now) result }
{
    match (a.outcome(), b.outcome()) {
        (Ok(a), Ok(b)) => Ok((a, b)),
        (Ok(_), Err(fault)) | (Err(fault), Ok(_)) => Err(fault),
        (Err(fault), Err(other)) => Err(least_fault(fault, other)),
    }
}

/// What an operation on two numbers comes to. It takes no memory.
pub fn calculated(
    op: Op,
    a: &Operand<'_>,
    a_kind: Kind,
    b: &Operand<'_>,
    b_kind: Kind,
) -> Result<Value, Fault>
    ensures { result ≡ of_two (arithmetic_value op a_kind b_kind) (outcome_of a.now) (outcome_of b.now) }
{
    let (a, b) = both_values(a, b)?;
    compute(op, a, a_kind, b, b_kind)
}

/// What a comparison of two values of these kinds comes to. It takes no memory.
pub fn compared(
    comparison: Comparison,
    a: &Operand<'_>,
    a_kind: Kind,
    b: &Operand<'_>,
    b_kind: Kind,
) -> Result<Value, Fault>
    ensures { result ≡ comparison_of comparison a_kind (outcome_of a.now) b_kind (outcome_of b.now) }
{
    let (a, b) = both_values(a, b)?;
    let truth = comparison.holds(a, a_kind.scale(), b, b_kind.scale());
    Ok(truth_value(truth))
}

/// Whether a text is like a pattern. It takes no memory.
pub fn like(text: &Operand<'_>, pattern: &Operand<'_>) -> Result<Value, Fault>
    ensures { result ≡ of_two like_value (outcome_of text.now) (outcome_of pattern.now) }
{
    match both_values(text, pattern)? {
        (Value::Words(text), Value::Words(pattern)) => {
            Ok(Value::Truth(is_like(text.as_str(), pattern.as_str())))
        }
        _ => Ok(Value::Null),
    }
}

/// Two texts, one after the other, in memory of `alloc`.
fn joined_text(alloc: Global, a: &Text, b: &Text) -> Result<Result<Value, Fault>, AllocError>
    ensures { IfOk result (λ joined. joined ≡ joined_value (Item.Words a.now) (Item.Words b.now)) }
{
    if a.len() > 65_535 || b.len() > 65_535 - a.len() {
        return Ok(Err(Fault::Range));
    }
    let mut joined = Text::from_str(alloc, a.as_str())?;
    joined.push_str(b.as_str())?;
    Ok(Ok(Value::Words(joined)))
}

/// The texts that two operands are, one after the other, in memory of `alloc`.
pub fn joined(
    alloc: Global,
    a: &Operand<'_>,
    b: &Operand<'_>,
) -> Result<Result<Value, Fault>, AllocError>
    ensures { IfOk result (λ joined. joined ≡ of_two joined_value (outcome_of a.now) (outcome_of b.now)) }
{
    match both_values(a, b) {
        Ok((Value::Words(a), Value::Words(b))) => joined_text(alloc, a, b),
        Ok(_) => Ok(Ok(Value::Null)),
        Err(fault) => Ok(Err(fault)),
    }
}

/// AND of two truths. It takes no memory.
pub fn both(a: &Operand<'_>, b: &Operand<'_>) -> Result<Value, Fault>
    ensures { result ≡ both_of (outcome_of a.now) (outcome_of b.now) }
{
    let (a, b) = both_values(a, b)?;
    Ok(truth_value(conjunction(truth_in(a), truth_in(b))))
}

/// OR of two truths. It takes no memory.
pub fn either(a: &Operand<'_>, b: &Operand<'_>) -> Result<Value, Fault>
    ensures { result ≡ either_of (outcome_of a.now) (outcome_of b.now) }
{
    let (a, b) = both_values(a, b)?;
    Ok(truth_value(disjunction(truth_in(a), truth_in(b))))
}

/// NOT of a truth, where it is written, and else the truth as it is. It takes no memory.
pub fn opposite_if<'a>(negated: bool, operand: Operand<'a>) -> Operand<'a>
    ensures { outcome_of result ≡ not_if negated (outcome_of operand.entry) }
{
    if !negated {
        return operand;
    }
    match operand.outcome() {
        Ok(value) => Operand::Made(truth_value(negation(truth_in(value)))),
        Err(fault) => Operand::Refused(fault),
    }
}

/// Whether an operand is NULL, as a truth. It takes no memory.
pub fn is_null(operand: &Operand<'_>) -> Result<Value, Fault>
    ensures { result ≡ of_one is_null_value (outcome_of operand.now) }
{
    let value = operand.outcome()?;
    Ok(Value::Truth(value.is_null()))
}

/// Whether an operand is at least one and at most another, as a truth. It takes no memory.
pub fn between(
    a: &Operand<'_>,
    kind: Kind,
    low: &Operand<'_>,
    low_kind: Kind,
    high: &Operand<'_>,
    high_kind: Kind,
) -> Result<Value, Fault>
    ensures { result ≡ both_of
        (comparison_of Comparison.AtLeast kind (outcome_of a.now) low_kind (outcome_of low.now))
        (comparison_of Comparison.AtMost kind (outcome_of a.now) high_kind (outcome_of high.now)) }
{
    let from_low = compared(Comparison::AtLeast, a, kind, low, low_kind);
    let to_high = compared(Comparison::AtMost, a, kind, high, high_kind);
    both(&Operand::of(from_low), &Operand::of(to_high))
}

/// CAST of a value. It fails for want of memory alone.
pub fn cast(
    alloc: Global,
    operand: &Operand<'_>,
    from: Kind,
    to: Kind,
) -> Result<Result<Value, Fault>, AllocError>
    ensures { IfOk result (λ cast. cast ≡ of_one (cast_outcome to from) (outcome_of operand.now)) }
{
    match operand.outcome() {
        Ok(value) => cast_value(alloc, to, value, from),
        Err(fault) => Ok(Err(fault)),
    }
}

/// What a branch gives, as a value of the kind of CASE or COALESCE. It takes no memory.
pub fn brought<'a>(kind: Kind, from: Kind, operand: Operand<'a>) -> Operand<'a>
    ensures { outcome_of result ≡ brought_of kind from (outcome_of operand.entry) }
{
    match operand.outcome() {
        Ok(Value::Number(number)) => Operand::of(brought_number(kind, from, *number)),
        _ => operand,
    }
}

/// Whether a condition is true; NULL isn't. It takes no memory.
pub fn decision(condition: &Operand<'_>) -> Result<bool, Fault>
    ensures { (found rest : Outcome) → if_true (outcome_of condition.now) found rest ≡ decided result found rest }
{
    match condition.outcome()? {
        Value::Truth(holds) => Ok(*holds),
        _ => Ok(false),
    }
}
