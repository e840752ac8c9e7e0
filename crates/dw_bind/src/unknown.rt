//! Names that mean no column.
ghost use Rattle.std.specs.Prelude.{◌≡◌};
ghost use Rattle.std.specs.Option.{option_copied};
ghost use Rattle.dw_expr.specs.Sight.{first_unknown, references, references_all, references_in};
ghost use Rattle.dw_bind.specs.Steps.{first_name};

use crate::sight::Sight;
use dw_expr::{Arms, ArmsNode, Expr, Exprs, ExprsNode, Node};
use dw_value::Text;

/// The first of two names, or else the second.
fn first_name<'a>(a: Option<&'a Text>, b: Option<&'a Text>) -> Option<&'a Text>
    ensures { option_copied result ≡ first_name (option_copied a.entry) (option_copied b.entry) }
{
    match a {
        Some(name) => Some(name),
        None => b,
    }
}

/// The name of the first column in text order that means none in sight, or more than one.
#[cycle(unknown)]
#[tactic(auto, using(crate::proofs::Unknowns::first_unknown_append))]
pub(crate) fn unknown_in<'a>(sight: &Sight, expr: &'a Expr) -> Option<&'a Text>
    ensures { option_copied result ≡ first_unknown sight.now (references expr.now) }
{
    match &expr.node {
        Node::Column { source, name } => match sight.find(source, name) {
            Some(_) => None,
            None => Some(name),
        },
        Node::Literal(_) | Node::CountRows => None,
        Node::Negative(a)
        | Node::Not(a)
        | Node::IsNull(_, a)
        | Node::Cast(a, _)
        | Node::Aggregate(_, a) => unknown_in(sight, a),
        Node::Arithmetic(_, a, b)
        | Node::Joined(a, b)
        | Node::Compared(_, a, b)
        | Node::And(a, b)
        | Node::Or(a, b)
        | Node::Like(_, a, b) => first_name(unknown_in(sight, a), unknown_in(sight, b)),
        Node::Between(_, a, low, high) => {
            let bounds = first_name(unknown_in(sight, low), unknown_in(sight, high));
            first_name(unknown_in(sight, a), bounds)
        }
        Node::InList(_, a, list) => first_name(unknown_in(sight, a), unknown_in_all(sight, list)),
        Node::Case(arms, None) => unknown_in_arms(sight, arms),
        Node::Case(arms, Some(other)) => {
            first_name(unknown_in_arms(sight, arms), unknown_in(sight, other))
        }
        Node::Coalesce(list) => unknown_in_all(sight, list),
    }
}

/// The same in a row of expressions.
#[cycle(unknown)]
#[tactic(auto, using(crate::proofs::Unknowns::first_unknown_append))]
fn unknown_in_all<'a>(sight: &Sight, list: &'a Exprs) -> Option<&'a Text>
    ensures { option_copied result ≡ first_unknown sight.now (references_all list.now) }
{
    let mut rest = list;
    while let ExprsNode::More(a, others) = &rest.node {
        if let Some(name) = unknown_in(sight, a) {
            return Some(name);
        }
        rest = others;
    }
    None
}

/// The same in branches.
#[cycle(unknown)]
#[tactic(auto, using(crate::proofs::Unknowns::first_unknown_append))]
fn unknown_in_arms<'a>(sight: &Sight, arms: &'a Arms) -> Option<&'a Text>
    ensures { option_copied result ≡ first_unknown sight.now (references_in arms.now) }
{
    let mut rest = arms;
    while let ArmsNode::More(condition, value, others) = &rest.node {
        if let Some(name) = first_name(unknown_in(sight, condition), unknown_in(sight, value)) {
            return Some(name);
        }
        rest = others;
    }
    None
}
