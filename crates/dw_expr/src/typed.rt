//! Expressions on the way to being bound: the kind of a literal NULL is still open.
use crate::bound::BoundExpr;
use dw_value::Kind;

/// A bound expression, or the literal NULL, whose kind what stands beside it decides.
#[derive(Debug, Drop)]
pub enum Typed {
    /// An expression with its kind.
    Decided(BoundExpr),
    /// The literal NULL.
    Undecided,
}

/// A branch of CASE.
#[derive(Debug, Drop)]
pub struct TypedArm {
    /// What stands after WHEN, of kind BOOLEAN.
    pub condition: BoundExpr,
    /// What stands after THEN.
    pub result: Typed,
}

/// What an expression has to be where it stands.
#[derive(Clone, Copy, Debug, PartialEq, Eq, Drop)]
pub enum Wanted {
    /// An item, or a key of groups or of an order: any kind. The literal NULL is an INTEGER.
    Anything,
    /// The condition of WHERE, HAVING or ON: a truth.
    Condition,
    /// What VALUES or SET gives a column of this kind: what may be assigned to it.
    Assigned(Kind),
}
