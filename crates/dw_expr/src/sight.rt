//! The columns that an expression may name.
use dw_value::{Kind, List, Text};

/// A column of a source.
#[derive(Debug, Drop)]
pub struct NamedColumn {
    /// The column's name, folded to lower case.
    pub name: Text,
    /// What the column takes.
    pub kind: Kind,
}

/// A source of rows: a table under its alias.
#[derive(Debug, Drop)]
pub struct NamedSource {
    /// The alias, or the table's own name where none is written; folded to lower case.
    pub alias: Text,
    /// The columns, in the table's order.
    pub columns: List<NamedColumn>,
}
