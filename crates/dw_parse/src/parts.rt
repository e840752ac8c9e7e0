//! What is written in a CREATE TABLE, and the words that tell it.

use dw_model::{Literal, StyleWord};
use dw_value::{Encoding, Kind, List, Text};

/// The first word of an option of a column.
#[derive(Debug, Clone, Copy, PartialEq, Eq, Drop)]
pub enum OptionWord {
    Null,
    Not,
    Default,
    Encode,
    DistKey,
    SortKey,
    Primary,
    Unique,
    References,
}

/// An option of a column.
#[derive(Debug, Drop)]
pub enum ColumnOption {
    Null,
    NotNull,
    Default { literal: Literal },
    Encode { encoding: Encoding },
    DistKey,
    SortKey,
    /// PRIMARY KEY, UNIQUE or REFERENCES, which has no effect.
    Constraint,
}

/// The first word of a constraint on a table itself.
#[derive(Debug, Clone, Copy, PartialEq, Eq, Drop)]
pub enum PartWord {
    Primary,
    Unique,
    Foreign,
}

/// What stands between the commas of a CREATE TABLE.
#[derive(Debug, Drop)]
pub enum Part {
    /// A column with its options in the order in which they are written.
    Column {
        name: Text,
        kind: Kind,
        options: List<ColumnOption>,
    },
    /// PRIMARY KEY, UNIQUE or FOREIGN KEY, with the names that stand after it in parentheses.
    Constraint {
        names: List<Text>,
    },
}

/// The first word of an attribute of a table.
#[derive(Debug, Clone, Copy, PartialEq, Eq, Drop)]
pub enum AttributeWord {
    DistStyle,
    DistKey,
    Compound,
    SortKey,
    Encode,
    Backup,
}

/// What stands after the parentheses of a CREATE TABLE.
#[derive(Debug, Drop)]
pub enum Attribute {
    /// DISTSTYLE.
    Style { style: StyleWord },
    /// DISTKEY with a name.
    DistKey { name: Text },
    /// SORTKEY with names.
    SortKey { names: List<Text> },
    /// SORTKEY AUTO, ENCODE AUTO or BACKUP, which has no effect.
    Idle,
}
