//! SELECT of some columns of one table's rows.
ghost use Rattle.std.specs.Prelude.{◌≡◌, filter, map as mapped, option_map, IfOk};
ghost use Rattle.std.specs.Option.{option_copied};
ghost use Rattle.dw_model.specs.Alone.{select_outcome};
ghost use Rattle.dw_model.specs.Selection.{fields_of, kind_of, kinds_of, selected};
ghost use Rattle.dw_plain.specs.Places.{condition_of, found_at, holds_at, passes_at, place_of, values_at};

use crate::columns::{column_at, column_place};
use crate::literals::{compared_with, scale_of_literal};
use dw_model::{Answer, Change, Column, Outcome, Query, Test, Word};
use dw_value::{Comparison, Field, Kind, List, Row, Text, Truth, Value, show, sort_rows};
use std::alloc::{AllocError, Global};

/// A test whose column's place is known, and whose literal is turned into a value.
#[derive(Debug, Drop)]
pub(crate) struct Condition {
    /// The place of the column.
    place: Option<usize>,
    /// The scale of the column.
    scale: u8,
    /// How the column's value is compared.
    comparison: Comparison,
    /// What it is compared with.
    value: Value,
    /// The scale of that.
    value_scale: u8,
}

/// What SELECT from a table of these columns and rows comes to, once its names and kinds are known to fit: the items
/// of the rows that pass, in ascending order. It changes nothing.
pub(crate) fn select(
    alloc: Global,
    columns: &[Column],
    query: &Query,
    rows: &[Row],
) -> Result<Outcome, AllocError>
    ensures { IfOk result (λ outcome. outcome ≡ select_outcome columns.now query.now rows.now) }
{
    let rows = selected_rows(alloc, query, columns, rows)?;
    let kinds = kinds_of(alloc, columns, query.items.as_slice())?;
    let rows = shown_rows(alloc, kinds.as_slice(), rows.as_slice())?;
    let names = query.items.copy()?;
    Ok(Outcome {
        answer: Answer::Rows {
            word: Word::Select,
            names,
            rows,
        },
        change: Change::Unchanged,
    })
}

// The rows of the answer. Each name is looked up once, and the test's literal is turned into a value once.
fn selected_rows(
    alloc: Global,
    query: &Query,
    columns: &[Column],
    rows: &[Row],
) -> Result<List<Row>, AllocError>
    ensures { IfOk result (λ answer. answer ≡ selected query.now columns.now rows.now) }
{
    let places = places_of(alloc, columns, query.items.as_slice())?;
    let condition = condition_of(columns, &query.keep)?;
    sort_rows(kept_rows(alloc, places.as_slice(), &condition, rows)?)
}

// The values at these places of the rows that pass.
fn kept_rows(
    alloc: Global,
    places: &[Option<usize>],
    condition: &Option<Condition>,
    rows: &[Row],
) -> Result<List<Row>, AllocError>
    ensures { IfOk result (λ kept. kept ≡
        mapped (values_at places.now) (filter (passes_at condition.now) rows.now)) }
{
    let mut kept = List::new(alloc);
    for row in rows {
        if row_passes(condition, row) {
            kept.push(row_at(alloc, row, places)?)?;
        }
    }
    Ok(kept)
}

fn places_of(
    alloc: Global,
    columns: &[Column],
    names: &[Text],
) -> Result<Vec<Option<usize>>, AllocError>
    ensures { IfOk result (λ places. places.items ≡ mapped (place_of columns.now) names.now) }
{
    let mut places = Vec::with_capacity(alloc, names.len())?;
    for name in names {
        places.push(column_place(columns, name))?;
    }
    Ok(places)
}

fn condition_of(columns: &[Column], keep: &Option<Test>) -> Result<Option<Condition>, AllocError>
    ensures { IfOk result (λ condition. condition ≡ option_map (condition_of columns.now) keep.now) }
{
    match keep {
        None => Ok(None),
        Some(test) => Ok(Some(condition_of_test(columns, test)?)),
    }
}

fn condition_of_test(columns: &[Column], test: &Test) -> Result<Condition, AllocError>
    ensures { IfOk result (λ condition. condition ≡ condition_of columns.now test.now) }
{
    let kind = kind_of(columns, &test.column);
    let value = compared_with(kind, &test.literal)?;
    Ok(Condition {
        place: column_place(columns, &test.column),
        scale: kind.scale(),
        comparison: test.comparison,
        value: value.unwrap_or(Value::Null),
        value_scale: scale_of_literal(&test.literal),
    })
}

// The kind of the column of a name; a name that is no column counts as an INTEGER.
fn kind_of(columns: &[Column], name: &Text) -> Kind
    ensures { result ≡ kind_of columns.now name.now }
{
    match column_at(columns, name) {
        Some(column) => column.kind,
        None => Kind::Int,
    }
}

fn kinds_of(alloc: Global, columns: &[Column], names: &[Text]) -> Result<Vec<Kind>, AllocError>
    ensures { IfOk result (λ kinds. kinds.items ≡ kinds_of columns.now names.now) }
{
    let mut kinds = Vec::with_capacity(alloc, names.len())?;
    for name in names {
        kinds.push(kind_of(columns, name))?;
    }
    Ok(kinds)
}

fn row_passes(condition: &Option<Condition>, row: &Row) -> bool
    ensures { result ≡ passes_at condition.now row.now }
{
    match condition {
        None => true,
        Some(condition) => holds_at(condition, row),
    }
}

fn holds_at(condition: &Condition, row: &Row) -> bool
    ensures { result ≡ holds_at condition.now row.now }
{
    let value = value_at(row, condition.place).unwrap_or(&Value::Null);
    let truth = condition.comparison.holds(
        value,
        condition.scale,
        &condition.value,
        condition.value_scale,
    );
    matches!(truth, Truth::True)
}

// The value at a place of a row, if there is one.
fn value_at(row: &Row, place: Option<usize>) -> Option<&Value>
    ensures { option_copied result ≡ found_at row.now.values place }
{
    row.values.get(place?)
}

// The values at these places of a row, and NULL where there is none.
fn row_at(alloc: Global, row: &Row, places: &[Option<usize>]) -> Result<Row, AllocError>
    ensures { IfOk result (λ made. made ≡ values_at places.now row.now) }
{
    let mut values = List::with_capacity(alloc, places.len())?;
    for place in places {
        let value = match value_at(row, *place) {
            Some(value) => value.copy()?,
            None => Value::Null,
        };
        values.push(value)?;
    }
    Ok(Row { values })
}

fn shown_rows(alloc: Global, kinds: &[Kind], rows: &[Row]) -> Result<List<List<Field>>, AllocError>
    ensures { IfOk result (λ shown. shown ≡ mapped (fields_of kinds.now) rows.now) }
{
    let mut shown = List::with_capacity(alloc, rows.len())?;
    for row in rows {
        shown.push(shown_row(alloc, kinds, row)?)?;
    }
    Ok(shown)
}

// The values of a row as they are printed, each by its kind.
#[tactic(auto, using(crate::proofs::SelectLemmas::shown_past, crate::proofs::SelectLemmas::shown_unknown))]
fn shown_row(alloc: Global, kinds: &[Kind], row: &Row) -> Result<List<Field>, AllocError>
    ensures { IfOk result (λ fields. fields ≡ fields_of kinds.now row.now) }
{
    let mut fields = List::with_capacity(alloc, kinds.len())?;
    for (place, value) in row.values.as_slice().iter().enumerate() {
        match kinds.get(place) {
            Some(kind) => fields.push(show(alloc, value, *kind)?)?,
            None => return Ok(fields),
        }
    }
    Ok(fields)
}
