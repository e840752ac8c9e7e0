//! A statement run alone.
ghost use Rattle.std.specs.Prelude.{◌≡◌, IfOk};
ghost use Rattle.dw_model.specs.Alone.{alone, outcome_of, outcome_on};
ghost use Rattle.dw_model.specs.Bound.{bound_drop, bound_insert, bound_lock, bound_query, first_missing};
ghost use Rattle.dw_model.specs.Databases.{def_of, rows_of};
ghost use Rattle.dw_model.specs.Files.{Files};
ghost use Rattle.dw_model.specs.Refusals.{after_result};

use crate::bind::{columns_refusal, drop_refusal, lock_refusal};
use crate::create::{create, create_refusal};
use crate::insert::{insert, insert_refusal};
use crate::select::select;
use dw_model::{
    Answer, Change, Database, FileMap, Literal, Outcome, Plain, Query, Refusal, Statement, Word,
};
use dw_value::{List, Text};
use std::alloc::{AllocError, Global};

/// What a statement comes to on a database beside the files that were handed in: its answer with its change, or the
/// refusal that it meets, after the SQL standard and the Amazon Redshift guide in this project's profile. The
/// database stays as it is. The statements that begin and end blocks, and VACUUM, are not for a database: they are
/// refused with `Syntax`.
pub fn plain_outcome(
    alloc: Global,
    statement: &Statement,
    database: &Database,
    files: &FileMap,
) -> Result<Result<Outcome, Refusal>, AllocError>
    ensures { IfOk result (λ outcome. outcome ≡ outcome_on files.now statement.now database.now) }
{
    match statement {
        Statement::Begin | Statement::Commit | Statement::Rollback | Statement::Vacuum { .. } => Ok(
            Err(Refusal::Syntax { place: 0 }),
        ),
        Statement::Create { spec } => match create_refusal(spec, database)? {
            Some(refusal) => Ok(Err(refusal)),
            None => Ok(Ok(create(alloc, spec)?)),
        },
        Statement::Drop { table } => drop_outcome(table, database),
        Statement::Lock { tables } => lock_outcome(tables, database),
        Statement::Insert {
            table,
            columns,
            rows,
        } => insert_outcome(alloc, table, columns, rows, database),
        Statement::Select { query } => select_outcome(alloc, query, database),
    }
}

// What DROP TABLE comes to, whichever files there are.
fn drop_outcome(name: &Text, database: &Database) -> Result<Result<Outcome, Refusal>, AllocError>
    ensures { (files : Files) → IfOk result (λ outcome. outcome ≡
        after_result (outcome_of files (rows_of database.now))
        (bound_drop name.now (def_of database.now name.now))) }
{
    match drop_refusal(name, database)? {
        Some(refusal) => Ok(Err(refusal)),
        None => Ok(Ok(Outcome {
            answer: Answer::Plain {
                word: Word::DropTable,
            },
            change: Change::Drops {
                table: name.copy()?,
            },
        })),
    }
}

// What LOCK comes to, whichever files there are.
fn lock_outcome(
    tables: &List<Text>,
    database: &Database,
) -> Result<Result<Outcome, Refusal>, AllocError>
    ensures { (files : Files) → IfOk result (λ outcome. outcome ≡
        after_result (outcome_of files (rows_of database.now))
        (bound_lock (first_missing (def_of database.now) tables.now))) }
{
    match lock_refusal(tables.as_slice(), database)? {
        Some(refusal) => Ok(Err(refusal)),
        None => Ok(Ok(Outcome {
            answer: Answer::Plain {
                word: Word::LockTable,
            },
            change: Change::Unchanged,
        })),
    }
}

// What INSERT comes to, whichever files there are.
fn insert_outcome(
    alloc: Global,
    name: &Text,
    listed: &List<Text>,
    tuples: &List<List<Literal>>,
    database: &Database,
) -> Result<Result<Outcome, Refusal>, AllocError>
    ensures { (files : Files) → IfOk result (λ outcome. outcome ≡
        after_result (outcome_of files (rows_of database.now))
        (bound_insert name.now listed.now tuples.now (def_of database.now name.now))) }
{
    let Some(table) = database.get(name) else {
        return Ok(Err(Refusal::Unknown { name: name.copy()? }));
    };
    let columns = table.def.columns.as_slice();
    match insert_refusal(columns, listed, tuples.as_slice())? {
        Some(refusal) => Ok(Err(refusal)),
        None => insert(alloc, name, columns, listed.as_slice(), tuples.as_slice()),
    }
}

// What SELECT comes to, whichever files there are.
fn select_outcome(
    alloc: Global,
    query: &Query,
    database: &Database,
) -> Result<Result<Outcome, Refusal>, AllocError>
    ensures { (files : Files) → IfOk result (λ outcome. outcome ≡
        after_result (outcome_of files (rows_of database.now))
        (bound_query query.now (def_of database.now query.now.table))) }
{
    let Some(table) = database.get(&query.table) else {
        return Ok(Err(Refusal::Unknown {
            name: query.table.copy()?,
        }));
    };
    let columns = table.def.columns.as_slice();
    match columns_refusal(columns, query)? {
        Some(refusal) => Ok(Err(refusal)),
        None => Ok(Ok(select(alloc, columns, query, table.rows.as_slice())?)),
    }
}

/// The answer of a statement run alone on a database beside these files, and the database afterwards, or the refusal
/// that the statement meets. The database is copied; the given one stays as it is.
pub fn plain_run(
    alloc: Global,
    statement: &Statement,
    database: &Database,
    files: &FileMap,
) -> Result<Plain, AllocError>
    ensures { IfOk result (λ plain. plain ≡ alone files.now statement.now database.now) }
{
    match plain_outcome(alloc, statement, database, files)? {
        Ok(outcome) => {
            let Outcome { answer, change } = outcome;
            let mut next = database.copy()?;
            next.apply(&change)?;
            Ok(Plain::Done { answer, next })
        }
        Err(refusal) => Ok(Plain::Refused(refusal)),
    }
}
