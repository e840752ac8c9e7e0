//! Expressions whose names are columns of a joined row, each with its kind.
ghost use Rattle.std.specs.Prelude.{◌≡◌, ◌↔◌, IsTrue, IfOk};
ghost use Rattle.std.specs.Cmp.{partial_equiv_from_equiv};
ghost use Rattle.dw_expr.specs.BoundTree.{kind_of};
ghost use Rattle.dw_expr.specs.BoundTreeCodes.{coded_bound};
ghost use Rattle.dw_expr.specs.Sameness.{same_by, same_by_equiv};

use crate::trees::Aggregate;
use dw_value::{Comparison, Kind, Op, Value};
use std::alloc::{AllocError, Global};
use std::marker::Model;

/// A bound expression.
#[cycle(bound)]
#[derive(Debug, Drop)]
pub struct BoundExpr {
    /// What stands at the head of the expression.
    pub node: BoundNode,
}

/// The forms of a bound expression. Its kind stands in it where the form alone doesn't tell it.
#[cycle(bound)]
#[derive(Debug, Drop)]
pub enum BoundNode {
    /// A column: the number of its source and its place in the joined row, both from 0, and its kind.
    Column { source: u32, place: u32, kind: Kind },
    /// A value of this kind.
    Literal(Value, Kind),
    /// An operation on two numbers.
    Arithmetic(Op, Box<BoundExpr>, Box<BoundExpr>, Kind),
    /// Two texts, one after the other.
    Joined(Box<BoundExpr>, Box<BoundExpr>),
    /// A comparison of two values of one class.
    Compared(Comparison, Box<BoundExpr>, Box<BoundExpr>),
    /// AND.
    And(Box<BoundExpr>, Box<BoundExpr>),
    /// OR.
    Or(Box<BoundExpr>, Box<BoundExpr>),
    /// NOT.
    Not(Box<BoundExpr>),
    /// IS NULL, or IS NOT NULL.
    IsNull(bool, Box<BoundExpr>),
    /// BETWEEN, or NOT BETWEEN: the operand, the least and the greatest.
    Between(bool, Box<BoundExpr>, Box<BoundExpr>, Box<BoundExpr>),
    /// IN, or NOT IN: the operand and the list.
    InList(bool, Box<BoundExpr>, Box<BoundExprs>),
    /// LIKE, or NOT LIKE: the operand and the pattern.
    Like(bool, Box<BoundExpr>, Box<BoundExpr>),
    /// CASE: its branches, what stands after ELSE, and the kind that all of these are brought to.
    Case(Box<BoundArms>, Option<Box<BoundExpr>>, Kind),
    /// CAST to a kind.
    Cast(Box<BoundExpr>, Kind),
    /// COALESCE: its arguments, and the kind that they are brought to.
    Coalesce(Box<BoundExprs>, Kind),
    /// `count(*)`.
    CountRows,
    /// Another aggregate: its argument, and the kind of what it gives.
    Aggregate(Aggregate, Box<BoundExpr>, Kind),
}

/// Bound expressions in a row.
#[cycle(bound)]
#[derive(Debug)]
pub struct BoundExprs {
    /// The first and the rest, or the end.
    pub node: BoundExprsNode,
}

/// The end of a row of expressions, or its first one and the rest.
#[cycle(bound)]
#[derive(Debug, Drop)]
pub enum BoundExprsNode {
    /// No expression.
    End,
    /// An expression before others.
    More(Box<BoundExpr>, Box<BoundExprs>),
}

/// The branches of a bound CASE.
#[cycle(bound)]
#[derive(Debug, Drop)]
pub struct BoundArms {
    /// The first and the rest, or the end.
    pub node: BoundArmsNode,
}

/// The end of the branches, or the first one, its condition and its result, and the rest.
#[cycle(bound)]
#[derive(Debug, Drop)]
pub enum BoundArmsNode {
    /// No branch.
    End,
    /// A branch before others.
    More(Box<BoundExpr>, Box<BoundExpr>, Box<BoundArms>),
}

impl Model for BoundExpr {
    ghost use Rattle.dw_expr.specs.BoundTree.{BoundTree, bound_size};
    ghost use Rattle.dw_expr.specs.BoundTreeCodes.{coded_bound};

    ghost Value = { BoundTree };

    ghost coded = { coded_bound };

    ghost use Rattle.dw_expr.specs.BoundView.{bound_of};

    ghost view = { λ e. bound_of e.node };

    ghost size = { bound_size };
}

impl Model for BoundExprs {
    ghost use Rattle.dw_expr.specs.BoundTree.{BoundTrees, bounds_size};
    ghost use Rattle.dw_expr.specs.BoundTreeCodes.{coded_bounds};

    ghost Value = { BoundTrees };

    ghost coded = { coded_bounds };

    ghost use Rattle.dw_expr.specs.BoundView.{bounds_of};

    ghost view = { λ e. bounds_of e.node };

    ghost size = { bounds_size };
}

impl Model for BoundArms {
    ghost use Rattle.dw_expr.specs.BoundTree.{BoundBranches, arms_size};
    ghost use Rattle.dw_expr.specs.BoundTreeCodes.{coded_arms};

    ghost Value = { BoundBranches };

    ghost coded = { coded_arms };

    ghost use Rattle.dw_expr.specs.BoundView.{arms_of};

    ghost view = { λ e. arms_of e.node };

    ghost size = { arms_size };
}

/// A row is let go by a loop: a call of itself for each expression would need a stack as deep as the row is long.
impl Drop for BoundExprs {
    #[cycle(bound)]
    fn drop(mut self) {
        loop {
            match self {
                BoundExprs {
                    node: BoundExprsNode::End,
                } => return,
                BoundExprs {
                    node: BoundExprsNode::More(_, rest),
                } => self = Box::into_inner(rest),
            }
        }
    }
}

impl BoundExpr {
    /// The kind of the expression's values. It takes no memory.
    pub fn kind(&self) -> Kind
        ensures { result ≡ kind_of self.now }
    {
        match &self.node {
            BoundNode::Column { kind, .. }
            | BoundNode::Literal(_, kind)
            | BoundNode::Arithmetic(_, _, _, kind)
            | BoundNode::Case(_, _, kind)
            | BoundNode::Cast(_, kind)
            | BoundNode::Coalesce(_, kind)
            | BoundNode::Aggregate(_, _, kind) => *kind,
            BoundNode::Joined(_, _) => Kind::Varchar { length: 65535 },
            BoundNode::CountRows => Kind::Big,
            BoundNode::Compared(_, _, _)
            | BoundNode::And(_, _)
            | BoundNode::Or(_, _)
            | BoundNode::Not(_)
            | BoundNode::IsNull(_, _)
            | BoundNode::Between(_, _, _, _)
            | BoundNode::InList(_, _, _)
            | BoundNode::Like(_, _, _) => Kind::Bool,
        }
    }

    /// An equal expression, its nodes in memory of `alloc` and each text on the allocator that it has.
    #[cycle(copy)]
    pub fn copy(&self, alloc: Global) -> Result<BoundExpr, AllocError>
        ensures { IfOk result (λ copy. copy ≡ self.now) }
    {
        let node = match &self.node {
            BoundNode::Column {
                source,
                place,
                kind,
            } => BoundNode::Column {
                source: *source,
                place: *place,
                kind: *kind,
            },
            BoundNode::Literal(value, kind) => BoundNode::Literal(value.copy()?, *kind),
            BoundNode::Arithmetic(op, a, b, kind) => {
                BoundNode::Arithmetic(*op, a.boxed_copy(alloc)?, b.boxed_copy(alloc)?, *kind)
            }
            BoundNode::Joined(a, b) => {
                BoundNode::Joined(a.boxed_copy(alloc)?, b.boxed_copy(alloc)?)
            }
            BoundNode::Compared(comparison, a, b) => {
                BoundNode::Compared(*comparison, a.boxed_copy(alloc)?, b.boxed_copy(alloc)?)
            }
            BoundNode::And(a, b) => BoundNode::And(a.boxed_copy(alloc)?, b.boxed_copy(alloc)?),
            BoundNode::Or(a, b) => BoundNode::Or(a.boxed_copy(alloc)?, b.boxed_copy(alloc)?),
            BoundNode::Not(a) => BoundNode::Not(a.boxed_copy(alloc)?),
            BoundNode::IsNull(negated, a) => BoundNode::IsNull(*negated, a.boxed_copy(alloc)?),
            BoundNode::Between(negated, a, low, high) => BoundNode::Between(
                *negated,
                a.boxed_copy(alloc)?,
                low.boxed_copy(alloc)?,
                high.boxed_copy(alloc)?,
            ),
            BoundNode::InList(negated, a, list) => BoundNode::InList(
                *negated,
                a.boxed_copy(alloc)?,
                Box::new(alloc, list.copy(alloc)?)?,
            ),
            BoundNode::Like(negated, a, pattern) => {
                BoundNode::Like(*negated, a.boxed_copy(alloc)?, pattern.boxed_copy(alloc)?)
            }
            BoundNode::Case(arms, None, kind) => {
                BoundNode::Case(Box::new(alloc, arms.copy(alloc)?)?, None, *kind)
            }
            BoundNode::Case(arms, Some(other), kind) => BoundNode::Case(
                Box::new(alloc, arms.copy(alloc)?)?,
                Some(other.boxed_copy(alloc)?),
                *kind,
            ),
            BoundNode::Cast(a, kind) => BoundNode::Cast(a.boxed_copy(alloc)?, *kind),
            BoundNode::Coalesce(list, kind) => {
                BoundNode::Coalesce(Box::new(alloc, list.copy(alloc)?)?, *kind)
            }
            BoundNode::CountRows => BoundNode::CountRows,
            BoundNode::Aggregate(function, a, kind) => {
                BoundNode::Aggregate(*function, a.boxed_copy(alloc)?, *kind)
            }
        };
        Ok(BoundExpr { node })
    }

    /// An equal expression in a box of its own.
    #[cycle(copy)]
    fn boxed_copy(&self, alloc: Global) -> Result<Box<BoundExpr>, AllocError>
        ensures { IfOk result (λ copy. copy.value ≡ self.now) }
    {
        let copy = self.copy(alloc)?;
        Ok(Box::new(alloc, copy)?)
    }

    /// Whether two expressions are equal.
    #[cycle(same)]
    fn is_same(&self, other: &BoundExpr) -> bool
        ensures { IsTrue result ↔ (self.now ≡ other.now) }
    {
        match (&self.node, &other.node) {
            (
                BoundNode::Column {
                    source,
                    place,
                    kind,
                },
                BoundNode::Column {
                    source: source2,
                    place: place2,
                    kind: kind2,
                },
            ) => *source == *source2 && *place == *place2 && *kind == *kind2,
            (BoundNode::Literal(a, kind), BoundNode::Literal(a2, kind2)) => {
                is_same_value(a, a2) && *kind == *kind2
            }
            (BoundNode::Arithmetic(op, a, b, kind), BoundNode::Arithmetic(op2, a2, b2, kind2)) =>
                *op == *op2 && a.is_same(a2) && b.is_same(b2) && *kind == *kind2,
            (BoundNode::Joined(a, b), BoundNode::Joined(a2, b2))
            | (BoundNode::And(a, b), BoundNode::And(a2, b2))
            | (BoundNode::Or(a, b), BoundNode::Or(a2, b2)) => a.is_same(a2) && b.is_same(b2),
            (BoundNode::Compared(comparison, a, b), BoundNode::Compared(comparison2, a2, b2)) => {
                *comparison == *comparison2 && a.is_same(a2) && b.is_same(b2)
            }
            (BoundNode::Not(a), BoundNode::Not(a2)) => a.is_same(a2),
            (BoundNode::IsNull(negated, a), BoundNode::IsNull(negated2, a2)) => {
                *negated == *negated2 && a.is_same(a2)
            }
            (BoundNode::Between(negated, a, b, c), BoundNode::Between(negated2, a2, b2, c2)) => {
                *negated == *negated2 && a.is_same(a2) && b.is_same(b2) && c.is_same(c2)
            }
            (BoundNode::InList(negated, a, list), BoundNode::InList(negated2, a2, list2)) => {
                *negated == *negated2 && a.is_same(a2) && list.is_same(list2)
            }
            (BoundNode::Like(negated, a, b), BoundNode::Like(negated2, a2, b2)) => {
                *negated == *negated2 && a.is_same(a2) && b.is_same(b2)
            }
            (BoundNode::Case(arms, None, kind), BoundNode::Case(arms2, None, kind2)) => {
                arms.is_same(arms2) && *kind == *kind2
            }
            (
                BoundNode::Case(arms, Some(other), kind),
                BoundNode::Case(arms2, Some(other2), kind2),
            ) => arms.is_same(arms2) && other.is_same(other2) && *kind == *kind2,
            (BoundNode::Cast(a, kind), BoundNode::Cast(a2, kind2)) => {
                a.is_same(a2) && *kind == *kind2
            }
            (BoundNode::Coalesce(list, kind), BoundNode::Coalesce(list2, kind2)) => {
                list.is_same(list2) && *kind == *kind2
            }
            (BoundNode::CountRows, BoundNode::CountRows) => true,
            (BoundNode::Aggregate(function, a, kind), BoundNode::Aggregate(function2, a2, kind2)) =>
                { *function == *function2 && a.is_same(a2) && *kind == *kind2 }
            _ => false,
        }
    }
}

impl BoundExprs {
    /// An equal list, its nodes in memory of `alloc` and each text on the allocator that it has.
    #[cycle(copy)]
    pub fn copy(&self, alloc: Global) -> Result<BoundExprs, AllocError>
        ensures { IfOk result (λ copy. copy ≡ self.now) }
    {
        match &self.node {
            BoundExprsNode::End => Ok(BoundExprs {
                node: BoundExprsNode::End,
            }),
            BoundExprsNode::More(first, rest) => {
                let first = first.boxed_copy(alloc)?;
                let rest = Box::new(alloc, rest.copy(alloc)?)?;
                Ok(BoundExprs {
                    node: BoundExprsNode::More(first, rest),
                })
            }
        }
    }

    /// Whether two lists are equal.
    #[cycle(same)]
    fn is_same(&self, other: &BoundExprs) -> bool
        ensures { IsTrue result ↔ (self.now ≡ other.now) }
    {
        match (&self.node, &other.node) {
            (BoundExprsNode::End, BoundExprsNode::End) => true,
            (BoundExprsNode::More(a, rest), BoundExprsNode::More(a2, rest2)) => {
                a.is_same(a2) && rest.is_same(rest2)
            }
            _ => false,
        }
    }
}

impl BoundArms {
    /// Equal branches, their nodes in memory of `alloc` and each text on the allocator that it has.
    #[cycle(copy)]
    pub fn copy(&self, alloc: Global) -> Result<BoundArms, AllocError>
        ensures { IfOk result (λ copy. copy ≡ self.now) }
    {
        match &self.node {
            BoundArmsNode::End => Ok(BoundArms {
                node: BoundArmsNode::End,
            }),
            BoundArmsNode::More(condition, gives, rest) => {
                let condition = condition.boxed_copy(alloc)?;
                let gives = gives.boxed_copy(alloc)?;
                let rest = Box::new(alloc, rest.copy(alloc)?)?;
                Ok(BoundArms {
                    node: BoundArmsNode::More(condition, gives, rest),
                })
            }
        }
    }

    /// Whether two rows of branches are equal.
    #[cycle(same)]
    fn is_same(&self, other: &BoundArms) -> bool
        ensures { IsTrue result ↔ (self.now ≡ other.now) }
    {
        match (&self.node, &other.node) {
            (BoundArmsNode::End, BoundArmsNode::End) => true,
            (BoundArmsNode::More(a, b, rest), BoundArmsNode::More(a2, b2, rest2)) => {
                a.is_same(a2) && b.is_same(b2) && rest.is_same(rest2)
            }
            _ => false,
        }
    }
}

/// Whether two values are equal.
fn is_same_value(a: &Value, b: &Value) -> bool
    ensures { IsTrue result ↔ (a.now ≡ b.now) }
{
    *a == *b
}

/// Two bound expressions are equal exactly where a contract says that they are the same. It takes no memory.
impl PartialEq for BoundExpr {
    ghost eq = { same_by coded_bound };

    ghost laws = { partial_equiv_from_equiv (same_by_equiv coded_bound) };

    fn eq(&self, other: &BoundExpr) -> bool
        ensures answer { result ≡ same_by coded_bound self.now other.now }
        ensures meaning { IsTrue result ↔ (self.now ≡ other.now) }
    {
        self.is_same(other)
    }
}

impl Eq for BoundExpr {
    ghost laws = { same_by_equiv coded_bound };
}

/// The value in a box of its own, in memory of `alloc`.
pub fn keep<T: Drop>(alloc: Global, value: T) -> Result<Box<T>, AllocError>
    ensures { IfOk result (λ kept. kept.value ≡ value) }
{
    Ok(Box::new(alloc, value)?)
}
