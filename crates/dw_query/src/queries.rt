//! Queries and changes of one table's rows, as they are written and as they are bound.
use crate::filling::Target;
use dw_expr::{BoundExpr, Expr};
use dw_value::{List, Text};

/// An item of a query.
#[derive(Debug, Drop)]
pub enum Item {
    /// `*`: each column of the source, in order.
    All,
    /// An expression, and the name that was written for its column, folded to lower case.
    One { expr: Expr, name: Option<Text> },
}

/// A source of rows. Names are folded to lower case.
#[derive(Debug, Drop)]
pub struct Source {
    /// The table's name.
    pub table: Text,
    /// The alias: the one that was written, or the table's name.
    pub alias: Text,
}

/// SELECT.
#[derive(Debug, Drop)]
pub struct Query {
    /// What the answer's columns are, in order.
    pub items: List<Item>,
    /// What stands after FROM, if it does.
    pub source: Option<Source>,
    /// The condition after WHERE.
    pub keep: Option<Expr>,
}

/// `column = value` of an UPDATE.
#[derive(Debug, Drop)]
pub struct Assignment {
    /// The column's name, folded to lower case.
    pub column: Text,
    /// Its new value.
    pub value: Expr,
}

/// A query, bound to its source's columns.
#[derive(Debug, Drop)]
pub struct BoundQuery {
    /// The names of the answer's columns.
    pub names: List<Text>,
    /// Their values.
    pub items: List<BoundExpr>,
    /// The condition.
    pub keep: Option<BoundExpr>,
}

/// The tuples of an INSERT, bound to the columns that they are for.
#[derive(Debug, Drop)]
pub struct BoundTuples {
    /// The table's columns, each with the place among a tuple's expressions of the one that it is given.
    pub targets: List<Target>,
    /// The tuples.
    pub tuples: List<List<BoundExpr>>,
}

/// An UPDATE, bound to its table's columns.
#[derive(Debug, Drop)]
pub struct BoundChange {
    /// The table's columns, each with the place among the new values of its own.
    pub targets: List<Target>,
    /// The new values.
    pub sets: List<BoundExpr>,
    /// The condition.
    pub keep: Option<BoundExpr>,
}
