//! CASE and COALESCE: branches that come to one kind.
ghost use Rattle.std.specs.Prelude.{◌≡◌, Some, Option, ◌∷◌};
ghost use Rattle.dw_expr.specs.Binding.{arm_of, kinds_of, results_of, joint_kind, branches_as, list_as, choice_of, choice_else_of, coalesce_of};
ghost use Rattle.dw_expr.specs.BoundTree.{branch};
ghost use Rattle.dw_bind.specs.Gained.{Gains};
ghost use Rattle.dw_bind.specs.Joints.{joint_with, joint_from};

use crate::comparisons::more;
use crate::faults::KindFault;
use crate::nodes::{choice, choice_else, coalesce, keep_both};
use crate::operands::{as_kind, as_truth};
use dw_expr::{
    BoundArms, BoundArmsNode, BoundExpr, BoundExprs, BoundExprsNode, Typed, TypedArm, branch_kind,
    keep,
};
use dw_value::{Kind, List};
use std::alloc::Global;

/// A branch of CASE, of which the condition is a truth.
pub(crate) fn arm_of(condition: Typed, value: Typed) -> Result<TypedArm, KindFault>
    ensures { Gains (arm_of condition value) result }
{
    let condition = as_truth(condition)?;
    Ok(TypedArm {
        condition,
        result: value,
    })
}

/// The kind that branches so far have together, and one more; the literal NULL says nothing.
fn joint_with(so_far: Option<Kind>, a: &Typed) -> Result<Option<Kind>, KindFault>
    ensures { Gains (joint_with so_far a.now) result }
{
    match a {
        Typed::Undecided => Ok(so_far),
        Typed::Decided(a) => {
            let kind = a.kind();
            match branch_kind(so_far.unwrap_or(kind), kind) {
                Some(joint) => Ok(Some(joint)),
                None => Err(KindFault::Clash),
            }
        }
    }
}

/// The kind that branches so far, and these arguments, have together.
fn joint_of_list(so_far: Option<Kind>, list: &[Typed]) -> Result<Kind, KindFault>
    ensures { Gains (joint_from so_far (kinds_of list.now)) result }
{
    let mut joint = so_far;
    for a in list {
        joint = joint_with(joint, a)?;
    }
    Ok(joint.unwrap_or(Kind::Int))
}

/// The kind that branches so far, and the results of these, have together.
fn joint_of_arms(so_far: Option<Kind>, arms: &[TypedArm]) -> Result<Kind, KindFault>
    ensures { Gains (joint_from so_far (kinds_of (results_of arms.now))) result }
{
    let mut joint = so_far;
    for arm in arms {
        joint = joint_with(joint, &arm.result)?;
    }
    Ok(joint.unwrap_or(Kind::Int))
}

/// The kind that the result after ELSE and those of branches have together.
fn joint_of_choice(arms: &[TypedArm], other: &Typed) -> Result<Kind, KindFault>
    ensures { Gains (joint_kind (kinds_of (other.now ∷ results_of arms.now))) result }
{
    let first = joint_with(None, other)?;
    joint_of_arms(first, arms)
}

/// A branch before others.
fn branch(
    alloc: Global,
    condition: BoundExpr,
    value: BoundExpr,
    rest: BoundArms,
) -> Result<BoundArms, KindFault>
    ensures { Gains (Some (branch condition value rest)) result }
{
    let (condition, value) = keep_both(alloc, condition, value)?;
    let rest = keep(alloc, rest)?;
    Ok(BoundArms {
        node: BoundArmsNode::More(condition, value, rest),
    })
}

/// Branches, where the literal NULL takes this kind.
fn branches_as(alloc: Global, kind: Kind, arms: List<TypedArm>) -> Result<BoundArms, KindFault>
    ensures { Gains (Some (branches_as kind arms)) result }
{
    let mut arms = arms;
    let mut bound = BoundArms {
        node: BoundArmsNode::End,
    };
    while let Some(arm) = arms.pop() {
        let value = as_kind(kind, arm.result);
        bound = branch(alloc, arm.condition, value, bound)?;
    }
    Ok(bound)
}

/// Arguments, where the literal NULL takes this kind.
fn list_as(alloc: Global, kind: Kind, list: List<Typed>) -> Result<BoundExprs, KindFault>
    ensures { Gains (Some (list_as kind list)) result }
{
    let mut list = list;
    let mut bound = BoundExprs {
        node: BoundExprsNode::End,
    };
    while let Some(a) = list.pop() {
        let a = as_kind(kind, a);
        bound = more(alloc, a, bound)?;
    }
    Ok(bound)
}

/// CASE without ELSE.
pub(crate) fn choice_of(alloc: Global, arms: List<TypedArm>) -> Result<BoundExpr, KindFault>
    ensures { Gains (choice_of arms) result }
{
    let kind = joint_of_arms(None, arms.as_slice())?;
    let arms = branches_as(alloc, kind, arms)?;
    choice(alloc, arms, kind)
}

/// CASE with ELSE.
pub(crate) fn choice_else_of(
    alloc: Global,
    arms: List<TypedArm>,
    other: Typed,
) -> Result<BoundExpr, KindFault>
    ensures { Gains (choice_else_of arms other) result }
{
    let kind = joint_of_choice(arms.as_slice(), &other)?;
    let arms = branches_as(alloc, kind, arms)?;
    let other = as_kind(kind, other);
    choice_else(alloc, arms, other, kind)
}

/// COALESCE.
pub(crate) fn coalesce_of(alloc: Global, list: List<Typed>) -> Result<BoundExpr, KindFault>
    ensures { Gains (coalesce_of list) result }
{
    let kind = joint_of_list(None, list.as_slice())?;
    let list = list_as(alloc, kind, list)?;
    coalesce(alloc, list, kind)
}
