//! What a session sees in its open transaction.
use dw_model::{Change, Database};
use dw_value::List;

/// The database at the transaction's snapshot after its answered statements, and what each of them changes, in order.
#[derive(Debug, Drop)]
pub struct View {
    /// What the transaction's next statement is run on.
    pub database: Database,
    /// What each answered statement changed, the first one first.
    pub changes: List<Change>,
}
