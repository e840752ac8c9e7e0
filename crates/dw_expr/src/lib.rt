//! Expressions of SQL: how they are written, how they are bound to the columns in sight, and what their values are.
//!
//! A contract sees an `Expr` as its `Tree` and a `BoundExpr` as its `BoundTree`, in which no pointer stands, so `≡`
//! between two of them says that they are the same expression. The trees stand in specs/Tree.antt and
//! specs/BoundTree.antt, which columns a name may mean in specs/Sight.antt, what kinds go together in
//! specs/Classes.antt, what an expression is bound to, or refused for, in specs/Binding.antt, the value of a bound
//! expression in specs/Evaluation.antt, what its operands come to in specs/Operands.antt, truths of three values in
//! specs/Truths.antt, CAST in specs/Casting.antt, and which predicates can have no fault in specs/Safety.antt. Laws of
//! these definitions are in `laws`, and worked examples in `examples`.
#![tactic(auto)]

mod bound;
mod casting;
mod classes;
mod evaluation;
pub mod examples;
mod faults;
pub mod laws;
mod operands;
mod sight;
mod trees;
mod truths;
mod typed;

pub use bound::{BoundArms, BoundArmsNode, BoundExpr, BoundExprs, BoundExprsNode, BoundNode, keep};
pub use classes::{branch_kind, is_assignable, is_castable, is_same_class, sum_kind};
pub use evaluation::{Columns, ExecFault, evaluate, evaluate_at};
pub use faults::BindFault;
pub use sight::{NamedColumn, NamedSource};
pub use trees::{Aggregate, Arms, ArmsNode, Expr, Exprs, ExprsNode, Literal, Node};
pub use typed::{Typed, TypedArm, Wanted};

#[cfg(test)]
mod tests;
