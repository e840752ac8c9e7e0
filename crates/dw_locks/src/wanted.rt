//! What a statement wants.
ghost use Rattle.std.specs.Prelude.{◌≡◌, map, IfOk, [], ◌∷◌};
ghost use Rattle.std.specs.Option.{option_copied};
ghost use Rattle.dw_journal.specs.Worlds.{read_in};
ghost use Rattle.dw_journal.specs.Locks.{wants_in, wants_of_statement, whole_lock};

use dw_journal::{Given, Mode, Want};
use dw_model::Statement;
use dw_value::{List, Text};
use std::alloc::{AllocError, Global};

/// The locks that a statement wants before it is opened. What the grammar refused wants none.
pub fn wants(alloc: Global, given: Option<&Given>) -> Result<List<Want>, AllocError>
    ensures { IfOk result (λ wants. wants ≡ wants_in (read_in (option_copied given.entry))) }
{
    match given {
        Some(Given::Read(statement)) => wants_of_statement(alloc, statement),
        Some(Given::Refused(_)) | None => Ok(List::new(alloc)),
    }
}

/// The locks that a statement wants: SELECT and VACUUM read a table, INSERT writes its rows, and CREATE TABLE, DROP TABLE
/// and LOCK stand alone at theirs.
fn wants_of_statement(alloc: Global, statement: &Statement) -> Result<List<Want>, AllocError>
    ensures { IfOk result (λ wants. wants ≡ wants_of_statement statement.now) }
{
    match statement {
        Statement::Begin | Statement::Commit | Statement::Rollback => Ok(List::new(alloc)),
        Statement::Vacuum { table } => only(alloc, table, Mode::AccessShare),
        Statement::Create { spec } => only(alloc, &spec.name, Mode::AccessExclusive),
        Statement::Drop { table } => only(alloc, table, Mode::AccessExclusive),
        Statement::Lock { tables } => whole_locks(alloc, tables.as_slice()),
        Statement::Insert { table, .. } => only(alloc, table, Mode::ShareRowExclusive),
        Statement::Select { query } => only(alloc, &query.table, Mode::AccessShare),
    }
}

/// One lock.
fn only(alloc: Global, table: &Text, mode: Mode) -> Result<List<Want>, AllocError>
    ensures { IfOk result (λ wants. wants ≡ record { table = table.now; mode = mode } ∷ []) }
{
    let mut wants = List::new(alloc);
    wants.push(Want {
        table: table.copy()?,
        mode,
    })?;
    Ok(wants)
}

/// Each of these tables for one alone.
fn whole_locks(alloc: Global, tables: &[Text]) -> Result<List<Want>, AllocError>
    ensures { IfOk result (λ wants. wants ≡ map whole_lock tables.now) }
{
    let mut wants = List::with_capacity(alloc, tables.len())?;
    for table in tables {
        wants.push(Want {
            table: table.copy()?,
            mode: Mode::AccessExclusive,
        })?;
    }
    Ok(wants)
}
