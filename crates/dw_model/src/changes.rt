//! What a statement changes.
use crate::answers::Answer;
use crate::tables::TableDef;
use dw_value::{List, Row, Text};

/// What a statement changes in a database.
#[derive(Debug, Drop)]
pub enum Change {
    /// Nothing.
    Unchanged,
    /// A table of this definition and without rows is made under this name.
    Creates {
        table: Text,
        def: TableDef,
    },
    /// The table of this name goes, with its rows.
    Drops {
        table: Text,
    },
    /// Rows of the table of this name go, and then others are added in the order in which they are appended. A row
    /// that goes names one equal row of the table: where it has several, all of them go together, or one by one.
    Alters {
        table: Text,
        gone: List<Row>,
        added: List<Row>,
    },
}

/// What a statement comes to that isn't refused.
#[derive(Debug, Drop)]
pub struct Outcome {
    /// What it answers.
    pub answer: Answer,
    /// What it changes.
    pub change: Change,
}
