//! Expressions as they are written.
ghost use Rattle.std.specs.Prelude.{◌≡◌, ◌↔◌, IsTrue, IfOk};
ghost use Rattle.std.specs.Cmp.{partial_equiv_from_equiv};
ghost use Rattle.dw_expr.specs.TreeCodes.{coded_tree};
ghost use Rattle.dw_expr.specs.Sameness.{same_by, same_by_equiv};

use dw_value::{Comparison, Kind, Op, Text};
use std::alloc::{AllocError, Global};
use std::marker::Model;

/// What an aggregate makes of the values of its argument that aren't NULL.
#[derive(Clone, Copy, Debug, PartialEq, Eq, Drop)]
pub enum Aggregate {
    /// `count(e)`: how many there are.
    Count,
    /// `count(distinct e)`: how many different ones there are.
    CountDistinct,
    /// `sum(e)`: their sum.
    Sum,
    /// `min(e)`: the least.
    Min,
    /// `max(e)`: the greatest.
    Max,
}

/// A literal, as it is written.
#[derive(Debug, Drop)]
pub enum Literal {
    /// NULL.
    Null,
    /// A number: that of its digits, whatever its point, and how many digits stood after the point, from 0 to 37.
    Number { coefficient: i128, scale: u8 },
    /// A text.
    Words { text: Text },
    /// DATE and a text, which need not be that of a date.
    Date { text: Text },
    /// TRUE or FALSE.
    Truth { value: bool },
}

/// An expression, after the value expressions and search conditions of the SQL standard. Parentheses leave no node, `!=`
/// is `<>`, `e::kind` is a CAST, and names are folded to lower case.
#[cycle(expr)]
#[derive(Debug, Drop)]
pub struct Expr {
    /// What stands at the head of the expression.
    pub node: Node,
}

/// The forms of an expression. The truth of a form with NOT within it (`is not null`, `not between`, `not in`,
/// `not like`) is whether NOT is written.
#[cycle(expr)]
#[derive(Debug, Drop)]
pub enum Node {
    /// `name` or `source.name`.
    Column { source: Option<Text>, name: Text },
    /// A literal without a sign.
    Literal(Literal),
    /// `- e`.
    Negative(Box<Expr>),
    /// `a + b`, and `-`, `*`, `/`, `%`.
    Arithmetic(Op, Box<Expr>, Box<Expr>),
    /// `a || b`.
    Joined(Box<Expr>, Box<Expr>),
    /// `a = b`, and `<>`, `<`, `<=`, `>`, `>=`.
    Compared(Comparison, Box<Expr>, Box<Expr>),
    /// `a and b`.
    And(Box<Expr>, Box<Expr>),
    /// `a or b`.
    Or(Box<Expr>, Box<Expr>),
    /// `not e`.
    Not(Box<Expr>),
    /// `e is [not] null`.
    IsNull(bool, Box<Expr>),
    /// `e [not] between low and high`.
    Between(bool, Box<Expr>, Box<Expr>, Box<Expr>),
    /// `e [not] in (e, ..)`.
    InList(bool, Box<Expr>, Box<Exprs>),
    /// `e [not] like pattern`.
    Like(bool, Box<Expr>, Box<Expr>),
    /// `case when condition then e .. [else e] end`.
    Case(Box<Arms>, Option<Box<Expr>>),
    /// `cast(e as kind)` or `e::kind`.
    Cast(Box<Expr>, Kind),
    /// `coalesce(e, ..)`.
    Coalesce(Box<Exprs>),
    /// `count(*)`.
    CountRows,
    /// `sum(e)`, and the other aggregates.
    Aggregate(Aggregate, Box<Expr>),
}

/// Expressions in a row.
#[cycle(expr)]
#[derive(Debug)]
pub struct Exprs {
    /// The first and the rest, or the end.
    pub node: ExprsNode,
}

/// The end of a row of expressions, or its first one and the rest.
#[cycle(expr)]
#[derive(Debug, Drop)]
pub enum ExprsNode {
    /// No expression.
    End,
    /// An expression before others.
    More(Box<Expr>, Box<Exprs>),
}

/// The branches of CASE.
#[cycle(expr)]
#[derive(Debug, Drop)]
pub struct Arms {
    /// The first and the rest, or the end.
    pub node: ArmsNode,
}

/// The end of the branches, or the first one, its condition and its result, and the rest.
#[cycle(expr)]
#[derive(Debug, Drop)]
pub enum ArmsNode {
    /// No branch.
    End,
    /// A branch before others.
    More(Box<Expr>, Box<Expr>, Box<Arms>),
}

impl Model for Expr {
    ghost use Rattle.dw_expr.specs.Tree.{Tree, tree_size};
    ghost use Rattle.dw_expr.specs.TreeCodes.{coded_tree};

    ghost Value = { Tree };

    ghost coded = { coded_tree };

    ghost use Rattle.dw_expr.specs.View.{tree_of};

    ghost view = { λ e. tree_of e.node };

    ghost size = { tree_size };
}

impl Model for Exprs {
    ghost use Rattle.dw_expr.specs.Tree.{Trees, trees_size};
    ghost use Rattle.dw_expr.specs.TreeCodes.{coded_trees};

    ghost Value = { Trees };

    ghost coded = { coded_trees };

    ghost use Rattle.dw_expr.specs.View.{trees_of};

    ghost view = { λ e. trees_of e.node };

    ghost size = { trees_size };
}

impl Model for Arms {
    ghost use Rattle.dw_expr.specs.Tree.{Branches, branches_size};
    ghost use Rattle.dw_expr.specs.TreeCodes.{coded_branches};

    ghost Value = { Branches };

    ghost coded = { coded_branches };

    ghost use Rattle.dw_expr.specs.View.{branches_of};

    ghost view = { λ e. branches_of e.node };

    ghost size = { branches_size };
}

/// A row is let go by a loop: a call of itself for each expression would need a stack as deep as the row is long.
impl Drop for Exprs {
    #[cycle(expr)]
    fn drop(mut self) {
        loop {
            match self {
                Exprs {
                    node: ExprsNode::End,
                } => return,
                Exprs {
                    node: ExprsNode::More(_, rest),
                } => self = Box::into_inner(rest),
            }
        }
    }
}

impl Literal {
    /// An equal literal. A text is copied on its own allocator.
    pub fn copy(&self) -> Result<Literal, AllocError>
        ensures { IfOk result (λ copy. copy ≡ self.now) }
    {
        match self {
            Literal::Null => Ok(Literal::Null),
            Literal::Number { coefficient, scale } => Ok(Literal::Number {
                coefficient: *coefficient,
                scale: *scale,
            }),
            Literal::Words { text } => Ok(Literal::Words { text: text.copy()? }),
            Literal::Date { text } => Ok(Literal::Date { text: text.copy()? }),
            Literal::Truth { value } => Ok(Literal::Truth { value: *value }),
        }
    }

    /// Whether two literals are equal.
    fn is_same(&self, other: &Literal) -> bool
        ensures { IsTrue result ↔ (self.now ≡ other.now) }
    {
        match (self, other) {
            (Literal::Null, Literal::Null) => true,
            (
                Literal::Number { coefficient, scale },
                Literal::Number {
                    coefficient: coefficient2,
                    scale: scale2,
                },
            ) => *coefficient == *coefficient2 && *scale == *scale2,
            (Literal::Words { text }, Literal::Words { text: text2 }) => *text == *text2,
            (Literal::Date { text }, Literal::Date { text: text2 }) => *text == *text2,
            (Literal::Truth { value }, Literal::Truth { value: value2 }) => *value == *value2,
            _ => false,
        }
    }
}

/// An equal source's name, or none where there is none.
fn copy_source(source: &Option<Text>) -> Result<Option<Text>, AllocError>
    ensures { IfOk result (λ copy. copy ≡ source.now) }
{
    match source {
        None => Ok(None),
        Some(name) => Ok(Some(name.copy()?)),
    }
}

/// Whether two columns have the same source's name, or both have none.
fn is_same_source(a: &Option<Text>, b: &Option<Text>) -> bool
    ensures { IsTrue result ↔ (a.now ≡ b.now) }
{
    match (a, b) {
        (None, None) => true,
        (Some(first), Some(second)) => *first == *second,
        _ => false,
    }
}

impl Expr {
    /// An equal expression, its nodes in memory of `alloc` and each text on the allocator that it has.
    #[cycle(copy)]
    pub fn copy(&self, alloc: Global) -> Result<Expr, AllocError>
        ensures { IfOk result (λ copy. copy ≡ self.now) }
    {
        let node = match &self.node {
            Node::Column { source, name } => Node::Column {
                source: copy_source(source)?,
                name: name.copy()?,
            },
            Node::Literal(written) => Node::Literal(written.copy()?),
            Node::Negative(a) => Node::Negative(a.boxed_copy(alloc)?),
            Node::Arithmetic(op, a, b) => {
                Node::Arithmetic(*op, a.boxed_copy(alloc)?, b.boxed_copy(alloc)?)
            }
            Node::Joined(a, b) => Node::Joined(a.boxed_copy(alloc)?, b.boxed_copy(alloc)?),
            Node::Compared(comparison, a, b) => {
                Node::Compared(*comparison, a.boxed_copy(alloc)?, b.boxed_copy(alloc)?)
            }
            Node::And(a, b) => Node::And(a.boxed_copy(alloc)?, b.boxed_copy(alloc)?),
            Node::Or(a, b) => Node::Or(a.boxed_copy(alloc)?, b.boxed_copy(alloc)?),
            Node::Not(a) => Node::Not(a.boxed_copy(alloc)?),
            Node::IsNull(negated, a) => Node::IsNull(*negated, a.boxed_copy(alloc)?),
            Node::Between(negated, a, low, high) => Node::Between(
                *negated,
                a.boxed_copy(alloc)?,
                low.boxed_copy(alloc)?,
                high.boxed_copy(alloc)?,
            ),
            Node::InList(negated, a, list) => Node::InList(
                *negated,
                a.boxed_copy(alloc)?,
                Box::new(alloc, list.copy(alloc)?)?,
            ),
            Node::Like(negated, a, pattern) => {
                Node::Like(*negated, a.boxed_copy(alloc)?, pattern.boxed_copy(alloc)?)
            }
            Node::Case(arms, None) => Node::Case(Box::new(alloc, arms.copy(alloc)?)?, None),
            Node::Case(arms, Some(other)) => Node::Case(
                Box::new(alloc, arms.copy(alloc)?)?,
                Some(other.boxed_copy(alloc)?),
            ),
            Node::Cast(a, kind) => Node::Cast(a.boxed_copy(alloc)?, *kind),
            Node::Coalesce(list) => Node::Coalesce(Box::new(alloc, list.copy(alloc)?)?),
            Node::CountRows => Node::CountRows,
            Node::Aggregate(function, a) => Node::Aggregate(*function, a.boxed_copy(alloc)?),
        };
        Ok(Expr { node })
    }

    /// An equal expression in a box of its own.
    #[cycle(copy)]
    fn boxed_copy(&self, alloc: Global) -> Result<Box<Expr>, AllocError>
        ensures { IfOk result (λ copy. copy.value ≡ self.now) }
    {
        let copy = self.copy(alloc)?;
        Ok(Box::new(alloc, copy)?)
    }

    /// Whether two expressions are equal.
    #[cycle(same)]
    fn is_same(&self, other: &Expr) -> bool
        ensures { IsTrue result ↔ (self.now ≡ other.now) }
    {
        match (&self.node, &other.node) {
            (
                Node::Column { source, name },
                Node::Column {
                    source: source2,
                    name: name2,
                },
            ) => is_same_source(source, source2) && *name == *name2,
            (Node::Literal(a), Node::Literal(a2)) => a.is_same(a2),
            (Node::Negative(a), Node::Negative(a2)) | (Node::Not(a), Node::Not(a2)) => {
                a.is_same(a2)
            }
            (Node::Arithmetic(op, a, b), Node::Arithmetic(op2, a2, b2)) => {
                *op == *op2 && a.is_same(a2) && b.is_same(b2)
            }
            (Node::Joined(a, b), Node::Joined(a2, b2))
            | (Node::And(a, b), Node::And(a2, b2))
            | (Node::Or(a, b), Node::Or(a2, b2)) => a.is_same(a2) && b.is_same(b2),
            (Node::Compared(comparison, a, b), Node::Compared(comparison2, a2, b2)) => {
                *comparison == *comparison2 && a.is_same(a2) && b.is_same(b2)
            }
            (Node::IsNull(negated, a), Node::IsNull(negated2, a2)) => {
                *negated == *negated2 && a.is_same(a2)
            }
            (Node::Between(negated, a, b, c), Node::Between(negated2, a2, b2, c2)) => {
                *negated == *negated2 && a.is_same(a2) && b.is_same(b2) && c.is_same(c2)
            }
            (Node::InList(negated, a, list), Node::InList(negated2, a2, list2)) => {
                *negated == *negated2 && a.is_same(a2) && list.is_same(list2)
            }
            (Node::Like(negated, a, b), Node::Like(negated2, a2, b2)) => {
                *negated == *negated2 && a.is_same(a2) && b.is_same(b2)
            }
            (Node::Case(arms, None), Node::Case(arms2, None)) => arms.is_same(arms2),
            (Node::Case(arms, Some(other)), Node::Case(arms2, Some(other2))) => {
                arms.is_same(arms2) && other.is_same(other2)
            }
            (Node::Cast(a, kind), Node::Cast(a2, kind2)) => *kind == *kind2 && a.is_same(a2),
            (Node::Coalesce(list), Node::Coalesce(list2)) => list.is_same(list2),
            (Node::CountRows, Node::CountRows) => true,
            (Node::Aggregate(function, a), Node::Aggregate(function2, a2)) => {
                *function == *function2 && a.is_same(a2)
            }
            _ => false,
        }
    }
}

impl Exprs {
    /// An equal list, its nodes in memory of `alloc` and each text on the allocator that it has.
    #[cycle(copy)]
    pub fn copy(&self, alloc: Global) -> Result<Exprs, AllocError>
        ensures { IfOk result (λ copy. copy ≡ self.now) }
    {
        match &self.node {
            ExprsNode::End => Ok(Exprs {
                node: ExprsNode::End,
            }),
            ExprsNode::More(first, rest) => {
                let first = first.boxed_copy(alloc)?;
                let rest = Box::new(alloc, rest.copy(alloc)?)?;
                Ok(Exprs {
                    node: ExprsNode::More(first, rest),
                })
            }
        }
    }

    /// Whether two lists are equal.
    #[cycle(same)]
    fn is_same(&self, other: &Exprs) -> bool
        ensures { IsTrue result ↔ (self.now ≡ other.now) }
    {
        match (&self.node, &other.node) {
            (ExprsNode::End, ExprsNode::End) => true,
            (ExprsNode::More(a, rest), ExprsNode::More(a2, rest2)) => {
                a.is_same(a2) && rest.is_same(rest2)
            }
            _ => false,
        }
    }
}

impl Arms {
    /// Equal branches, their nodes in memory of `alloc` and each text on the allocator that it has.
    #[cycle(copy)]
    pub fn copy(&self, alloc: Global) -> Result<Arms, AllocError>
        ensures { IfOk result (λ copy. copy ≡ self.now) }
    {
        match &self.node {
            ArmsNode::End => Ok(Arms {
                node: ArmsNode::End,
            }),
            ArmsNode::More(when, then, rest) => {
                let when = when.boxed_copy(alloc)?;
                let then = then.boxed_copy(alloc)?;
                let rest = Box::new(alloc, rest.copy(alloc)?)?;
                Ok(Arms {
                    node: ArmsNode::More(when, then, rest),
                })
            }
        }
    }

    /// Whether two rows of branches are equal.
    #[cycle(same)]
    fn is_same(&self, other: &Arms) -> bool
        ensures { IsTrue result ↔ (self.now ≡ other.now) }
    {
        match (&self.node, &other.node) {
            (ArmsNode::End, ArmsNode::End) => true,
            (ArmsNode::More(a, b, rest), ArmsNode::More(a2, b2, rest2)) => {
                a.is_same(a2) && b.is_same(b2) && rest.is_same(rest2)
            }
            _ => false,
        }
    }
}

/// Two expressions are equal exactly where a contract says that they are the same. It takes no memory.
impl PartialEq for Expr {
    ghost eq = { same_by coded_tree };

    ghost laws = { partial_equiv_from_equiv (same_by_equiv coded_tree) };

    fn eq(&self, other: &Expr) -> bool
        ensures answer { result ≡ same_by coded_tree self.now other.now }
        ensures meaning { IsTrue result ↔ (self.now ≡ other.now) }
    {
        self.is_same(other)
    }
}

impl Eq for Expr {
    ghost laws = { same_by_equiv coded_tree };
}
