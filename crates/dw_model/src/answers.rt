//! What statements answer.
use crate::databases::Database;
use crate::refusals::Refusal;
use dw_value::{Field, List, Text};

/// The words that a statement begins with, as a report prints them.
#[derive(Clone, Copy, Debug)]
pub enum Word {
    /// BEGIN, also where the statement says START TRANSACTION.
    Begin,
    /// COMMIT, also where the statement says END.
    Commit,
    /// ROLLBACK, also where the statement says ABORT.
    Rollback,
    /// CREATE TABLE.
    CreateTable,
    /// DROP TABLE.
    DropTable,
    /// LOCK, also where the statement says LOCK TABLE.
    LockTable,
    /// INSERT.
    Insert,
    /// SELECT.
    Select,
}

/// What a statement answers.
#[derive(Debug, Drop)]
pub enum Answer {
    /// Rows under the names of their columns.
    Rows {
        word: Word,
        names: List<Text>,
        rows: List<List<Field>>,
    },
    /// How many rows were changed.
    Count {
        word: Word,
        count: u64,
    },
    /// That it was carried out.
    Plain {
        word: Word,
    },
}

/// What a statement run alone on a database gives.
#[derive(Debug, Drop)]
pub enum Plain {
    /// The answer, and the database afterwards.
    Done { answer: Answer, next: Database },
    /// The refusal. The database stays as it is.
    Refused(Refusal),
}
