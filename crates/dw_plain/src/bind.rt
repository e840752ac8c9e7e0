//! The names of a statement, looked up in a database.
ghost use Rattle.std.specs.Prelude.{◌≡◌, IfOk};
ghost use Rattle.std.specs.Option.{option_copied};
ghost use Rattle.std.specs.Result.{result_err};
ghost use Rattle.dw_model.specs.Binding.{columns_refusal, first_unknown, names_in, test_goes_with, tested_column};
ghost use Rattle.dw_model.specs.Bound.{bound_drop, bound_insert, bound_lock, bound_query, bound_refusal, first_missing};
ghost use Rattle.dw_model.specs.Databases.{def_of};

use crate::columns::{column_at, unknown_column};
use crate::create::create_refusal;
use crate::insert::insert_refusal;
use crate::literals::compares_with;
use dw_model::{Column, Database, Literal, Query, Refusal, Statement, Test};
use dw_value::{List, Text};
use std::alloc::AllocError;

/// The refusal of a statement whose names or kinds don't fit the database, and none where they do. The first of these
/// counts: an unknown table; a table that is there already, or a doubled column, of CREATE TABLE; an unknown column,
/// in the order in which the statement names them; what doesn't go together, as two keys of one sort, a default or an
/// encoding that isn't for its column, a tuple of another width, or a literal of another class than its column. The
/// order is this project's own. Statements that begin and end blocks, and VACUUM, are not for a database: they are
/// refused with `Syntax`.
pub fn bound_refusal(
    statement: &Statement,
    database: &Database,
) -> Result<Option<Refusal>, AllocError>
    ensures { IfOk result (λ refusal. refusal ≡ bound_refusal statement.now (def_of database.now)) }
{
    match statement {
        Statement::Begin | Statement::Commit | Statement::Rollback | Statement::Vacuum { .. } => Ok(
            Some(Refusal::Syntax { place: 0 }),
        ),
        Statement::Create { spec } => create_refusal(spec, database),
        Statement::Drop { table } => drop_refusal(table, database),
        Statement::Lock { tables } => lock_refusal(tables.as_slice(), database),
        Statement::Insert {
            table,
            columns,
            rows,
        } => tuples_refusal(table, columns, rows, database),
        Statement::Select { query } => query_refusal(query, database),
    }
}

/// What DROP TABLE is refused for.
pub(crate) fn drop_refusal(table: &Text, database: &Database) -> Result<Option<Refusal>, AllocError>
    ensures { IfOk result (λ refusal. refusal ≡
        result_err (bound_drop table.now (def_of database.now table.now))) }
{
    match database.get(table) {
        None => Ok(Some(Refusal::Unknown {
            name: table.copy()?,
        })),
        Some(_) => Ok(None),
    }
}

/// What LOCK is refused for.
pub(crate) fn lock_refusal(
    tables: &[Text],
    database: &Database,
) -> Result<Option<Refusal>, AllocError>
    ensures { IfOk result (λ refusal. refusal ≡
        result_err (bound_lock (first_missing (def_of database.now) tables.now))) }
{
    match missing_table(tables, database) {
        Some(name) => Ok(Some(Refusal::Unknown { name: name.copy()? })),
        None => Ok(None),
    }
}

// The first of these names that is no table.
fn missing_table<'a>(tables: &'a [Text], database: &Database) -> Option<&'a Text>
    ensures { option_copied result ≡ first_missing (def_of database.now) tables.now }
{
    for table in tables {
        if database.get(table).is_none() {
            return Some(table);
        }
    }
    None
}

fn tuples_refusal(
    table: &Text,
    listed: &List<Text>,
    tuples: &List<List<Literal>>,
    database: &Database,
) -> Result<Option<Refusal>, AllocError>
    ensures { IfOk result (λ refusal. refusal ≡
        result_err (bound_insert table.now listed.now tuples.now (def_of database.now table.now))) }
{
    match database.get(table) {
        None => Ok(Some(Refusal::Unknown {
            name: table.copy()?,
        })),
        Some(found) => insert_refusal(found.def.columns.as_slice(), listed, tuples.as_slice()),
    }
}

fn query_refusal(query: &Query, database: &Database) -> Result<Option<Refusal>, AllocError>
    ensures { IfOk result (λ refusal. refusal ≡
        result_err (bound_query query.now (def_of database.now query.now.table))) }
{
    match database.get(&query.table) {
        None => Ok(Some(Refusal::Unknown {
            name: query.table.copy()?,
        })),
        Some(found) => columns_refusal(found.def.columns.as_slice(), query),
    }
}

/// What a query of a table of these columns is refused for.
pub(crate) fn columns_refusal(
    columns: &[Column],
    query: &Query,
) -> Result<Option<Refusal>, AllocError>
    ensures { IfOk result (λ refusal. refusal ≡ columns_refusal columns.now query.now) }
{
    if let Some(name) = unknown_name(columns, query) {
        return Ok(Some(Refusal::Unknown { name: name.copy()? }));
    }
    if test_goes_with(columns, &query.keep) {
        Ok(None)
    } else {
        Ok(Some(Refusal::Clash))
    }
}

// The first name of a query that is no column.
#[tactic(auto, using(crate::proofs::BindLemmas::first_unknown_append))]
fn unknown_name<'a>(columns: &[Column], query: &'a Query) -> Option<&'a Text>
    ensures { option_copied result ≡ first_unknown columns.now (names_in query.now) }
{
    match unknown_column(columns, query.items.as_slice()) {
        Some(name) => Some(name),
        None => unknown_tested(columns, &query.keep),
    }
}

fn unknown_tested<'a>(columns: &[Column], keep: &'a Option<Test>) -> Option<&'a Text>
    ensures { option_copied result ≡ first_unknown columns.now (tested_column keep.now) }
{
    match keep {
        Some(test) => match column_at(columns, &test.column) {
            Some(_) => None,
            None => Some(&test.column),
        },
        None => None,
    }
}

fn test_goes_with(columns: &[Column], keep: &Option<Test>) -> bool
    ensures { result ≡ test_goes_with columns.now keep.now }
{
    match keep {
        None => true,
        Some(test) => match column_at(columns, &test.column) {
            Some(column) => compares_with(column.kind, &test.literal),
            None => false,
        },
    }
}
