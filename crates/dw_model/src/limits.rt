//! How many rows a table may have.
ghost use Rattle.std.specs.Prelude.{◌≡◌};
ghost use Rattle.std.specs.Option.{option_copied};
ghost use Rattle.dw_model.specs.Limits.{limit_refusal, written_table};

use crate::databases::Database;
use crate::refusals::Refusal;
use crate::statements::Statement;
use dw_value::Text;

/// The most rows that a table may have which a statement writes.
pub const MAX_ROWS: usize = 4_194_304;

/// The table whose rows a statement writes.
fn written_table(statement: &Statement) -> Option<&Text>
    ensures { option_copied result ≡ written_table statement.now }
{
    match statement {
        Statement::Create { spec } => Some(&spec.name),
        Statement::Drop { table } | Statement::Insert { table, .. } => Some(table),
        Statement::Begin
        | Statement::Commit
        | Statement::Rollback
        | Statement::Vacuum { .. }
        | Statement::Lock { .. }
        | Statement::Select { .. } => None,
    }
}

/// The refusal of a statement that leaves the database `next`: `Limit` exactly where the table that it writes then has
/// more than `MAX_ROWS` rows, with their number. It takes no memory.
pub fn limit_refusal(statement: &Statement, next: &Database) -> Option<Refusal>
    ensures { result ≡ limit_refusal statement.now next.now }
{
    let table = next.get(written_table(statement)?)?;
    let count = table.rows.len();
    if count > MAX_ROWS {
        return Some(Refusal::Limit {
            count: count as u64,
        });
    }
    None
}
