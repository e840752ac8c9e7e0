//! Expressions made of their parts.
ghost use Rattle.std.specs.Prelude.{◌≡◌, IfOk};
ghost use Rattle.dw_expr.specs.Tree.{column, literal, is_null, between, in_list, like, choice, choice_else, cast, coalesce, count_rows, aggregate, more, branch};
ghost use Rattle.dw_parse_expr.specs.Marks.{made, prefix_made};
ghost use Rattle.dw_parse_expr.specs.Reading.{trees, branches};

use crate::marks::{Mark, Operator};
use dw_expr::{Aggregate, Arms, ArmsNode, Expr, Exprs, ExprsNode, Literal, Node, keep};
use dw_value::{Kind, List, Text};
use std::alloc::{AllocError, Global};

/// A column, after its source's name where that is written.
pub(crate) fn column(source: Option<Text>, name: Text) -> Expr
    ensures { result ≡ column source name }
{
    Expr {
        node: Node::Column { source, name },
    }
}

/// A literal.
pub(crate) fn literal(written: Literal) -> Expr
    ensures { result ≡ literal written }
{
    Expr {
        node: Node::Literal(written),
    }
}

/// An operator between two expressions.
pub(crate) fn made(alloc: Global, operator: Operator, a: Expr, b: Expr) -> Result<Expr, AllocError>
    ensures { IfOk result (λ whole. whole ≡ made operator a b) }
{
    let a = keep(alloc, a)?;
    let b = keep(alloc, b)?;
    let node = match operator {
        Operator::Or => Node::Or(a, b),
        Operator::And => Node::And(a, b),
        Operator::Compared(comparison) => Node::Compared(comparison, a, b),
        Operator::Arithmetic(op) => Node::Arithmetic(op, a, b),
        Operator::Joined => Node::Joined(a, b),
    };
    Ok(Expr { node })
}

/// NOT or a minus before an expression.
pub(crate) fn prefix_made(alloc: Global, mark: Option<Mark>, a: Expr) -> Result<Expr, AllocError>
    ensures { IfOk result (λ whole. whole ≡ prefix_made mark a) }
{
    let a = keep(alloc, a)?;
    let node = match mark {
        Some(Mark::Not) => Node::Not(a),
        _ => Node::Negative(a),
    };
    Ok(Expr { node })
}

/// IS NULL, or IS NOT NULL.
pub(crate) fn is_null(alloc: Global, negated: bool, a: Expr) -> Result<Expr, AllocError>
    ensures { IfOk result (λ whole. whole ≡ is_null negated a) }
{
    let a = keep(alloc, a)?;
    Ok(Expr {
        node: Node::IsNull(negated, a),
    })
}

/// BETWEEN, or NOT BETWEEN.
pub(crate) fn between(
    alloc: Global,
    negated: bool,
    a: Expr,
    low: Expr,
    high: Expr,
) -> Result<Expr, AllocError>
    ensures { IfOk result (λ whole. whole ≡ between negated a low high) }
{
    let a = keep(alloc, a)?;
    let low = keep(alloc, low)?;
    let high = keep(alloc, high)?;
    Ok(Expr {
        node: Node::Between(negated, a, low, high),
    })
}

/// IN, or NOT IN.
pub(crate) fn in_list(
    alloc: Global,
    negated: bool,
    a: Expr,
    list: Exprs,
) -> Result<Expr, AllocError>
    ensures { IfOk result (λ whole. whole ≡ in_list negated a list) }
{
    let a = keep(alloc, a)?;
    let list = keep(alloc, list)?;
    Ok(Expr {
        node: Node::InList(negated, a, list),
    })
}

/// LIKE, or NOT LIKE.
pub(crate) fn like(alloc: Global, negated: bool, a: Expr, pattern: Expr) -> Result<Expr, AllocError>
    ensures { IfOk result (λ whole. whole ≡ like negated a pattern) }
{
    let a = keep(alloc, a)?;
    let pattern = keep(alloc, pattern)?;
    Ok(Expr {
        node: Node::Like(negated, a, pattern),
    })
}

/// CASE without ELSE.
pub(crate) fn choice(alloc: Global, arms: Arms) -> Result<Expr, AllocError>
    ensures { IfOk result (λ whole. whole ≡ choice arms) }
{
    let arms = keep(alloc, arms)?;
    Ok(Expr {
        node: Node::Case(arms, None),
    })
}

/// CASE with ELSE.
pub(crate) fn choice_else(alloc: Global, arms: Arms, other: Expr) -> Result<Expr, AllocError>
    ensures { IfOk result (λ whole. whole ≡ choice_else arms other) }
{
    let arms = keep(alloc, arms)?;
    let other = keep(alloc, other)?;
    Ok(Expr {
        node: Node::Case(arms, Some(other)),
    })
}

/// CAST to a kind.
pub(crate) fn cast(alloc: Global, a: Expr, kind: Kind) -> Result<Expr, AllocError>
    ensures { IfOk result (λ whole. whole ≡ cast a kind) }
{
    let a = keep(alloc, a)?;
    Ok(Expr {
        node: Node::Cast(a, kind),
    })
}

/// COALESCE.
pub(crate) fn coalesce(alloc: Global, list: Exprs) -> Result<Expr, AllocError>
    ensures { IfOk result (λ whole. whole ≡ coalesce list) }
{
    let list = keep(alloc, list)?;
    Ok(Expr {
        node: Node::Coalesce(list),
    })
}

/// COUNT(*).
pub(crate) fn count_rows() -> Expr
    ensures { result ≡ count_rows }
{
    Expr {
        node: Node::CountRows,
    }
}

/// An aggregate with an argument.
pub(crate) fn aggregate(alloc: Global, function: Aggregate, a: Expr) -> Result<Expr, AllocError>
    ensures { IfOk result (λ whole. whole ≡ aggregate function a) }
{
    let a = keep(alloc, a)?;
    Ok(Expr {
        node: Node::Aggregate(function, a),
    })
}

// An expression before others.
fn more(alloc: Global, a: Expr, rest: Exprs) -> Result<Exprs, AllocError>
    ensures { IfOk result (λ whole. whole ≡ more a rest) }
{
    let a = keep(alloc, a)?;
    let rest = keep(alloc, rest)?;
    Ok(Exprs {
        node: ExprsNode::More(a, rest),
    })
}

/// Expressions in a row.
pub(crate) fn trees(alloc: Global, list: List<Expr>) -> Result<Exprs, AllocError>
    ensures { IfOk result (λ row. row ≡ trees list) }
{
    let mut list = list;
    let mut row = Exprs {
        node: ExprsNode::End,
    };
    while let Some(a) = list.pop() {
        row = more(alloc, a, row)?;
    }
    Ok(row)
}

// A branch of CASE before others.
fn branch(alloc: Global, arm: (Expr, Expr), rest: Arms) -> Result<Arms, AllocError>
    ensures { IfOk result (λ whole. whole ≡ branch arm.0 arm.1 rest) }
{
    let (condition, value) = arm;
    let condition = keep(alloc, condition)?;
    let value = keep(alloc, value)?;
    let rest = keep(alloc, rest)?;
    Ok(Arms {
        node: ArmsNode::More(condition, value, rest),
    })
}

/// Branches of CASE in a row.
pub(crate) fn branches(alloc: Global, list: List<(Expr, Expr)>) -> Result<Arms, AllocError>
    ensures { IfOk result (λ row. row ≡ branches list) }
{
    let mut list = list;
    let mut row = Arms {
        node: ArmsNode::End,
    };
    while let Some(arm) = list.pop() {
        row = branch(alloc, arm, row)?;
    }
    Ok(row)
}
