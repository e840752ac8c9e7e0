//! INSERT of tuples of literals.
ghost use Rattle.std.specs.Prelude.{◌≡◌, ◌<◌, get_or, length, position, slice_get, IfOk};
ghost use Rattle.std.specs.List.{list_all};
ghost use Rattle.std.specs.Option.{option_copied};
ghost use Rattle.dw_model.specs.declared.tables.Column.{Column as ColumnOf};
ghost use Rattle.dw_model.specs.Alone.{insert_outcome};
ghost use Rattle.dw_model.specs.Binding.{same_name};
ghost use Rattle.dw_model.specs.Inserting.{column_takes, given_to, insert_refusal, is_null, names_given, null_column, rows_made, tuple_goes_with, tuples_go_with, value_made, values_made};
ghost use Rattle.dw_plain.specs.Places.{has_null_at, places_given, takes_given};

use crate::columns::unknown_column;
use crate::literals::{held_literal, literal_goes_with};
use crate::names::{place_in, repeated_name};
use dw_model::{Answer, Change, Column, Literal, Outcome, Refusal, Word};
use dw_value::{List, Row, Text, Value};
use std::alloc::{AllocError, Global};

/// What INSERT of these tuples into a table of these columns is refused for: an unknown column in its list, then what
/// doesn't go together.
pub(crate) fn insert_refusal(
    columns: &[Column],
    listed: &List<Text>,
    tuples: &[List<Literal>],
) -> Result<Option<Refusal>, AllocError>
    ensures { IfOk result (λ refusal. refusal ≡ insert_refusal columns.now listed.now tuples.now) }
{
    if let Some(name) = unknown_column(columns, listed.as_slice()) {
        return Ok(Some(Refusal::Unknown { name: name.copy()? }));
    }
    if tuples_go_with(columns, listed, tuples)? {
        Ok(None)
    } else {
        Ok(Some(Refusal::Clash))
    }
}

// Whether no column is listed twice, and all tuples go with the columns.
fn tuples_go_with(
    columns: &[Column],
    listed: &List<Text>,
    tuples: &[List<Literal>],
) -> Result<bool, AllocError>
    ensures { IfOk result (λ go. go ≡ tuples_go_with columns.now listed.now tuples.now) }
{
    if repeated_name(listed.as_slice()).is_some() {
        return Ok(false);
    }
    let places = places_given(listed.allocator(), columns, listed.as_slice())?;
    Ok(all_go_with(columns, listed.as_slice(), places.as_slice(), tuples))
}

fn all_go_with(
    columns: &[Column],
    listed: &[Text],
    places: &[Option<usize>],
    tuples: &[List<Literal>],
) -> bool
    requires { places.now ≡ places_given columns.now listed.now }
    ensures { result ≡ list_all (tuple_goes_with columns.now (names_given columns.now listed.now)) tuples.now }
{
    for tuple in tuples {
        if !tuple_goes_with(columns, listed, places, tuple.as_slice()) {
            return false;
        }
    }
    true
}

// For each column the place among a tuple's literals of the one that is for it, if there is one.
fn places_given(
    alloc: Global,
    columns: &[Column],
    listed: &[Text],
) -> Result<Vec<Option<usize>>, AllocError>
    ensures { IfOk result (λ places. places.items ≡ places_given columns.now listed.now) }
{
    let mut places = Vec::with_capacity(alloc, columns.len())?;
    for column in columns {
        places.push(place_given(columns, listed, &column.name))?;
    }
    Ok(places)
}

#[tactic(auto, using(crate::proofs::PlaceLemmas::position_of_name))]
fn place_given(columns: &[Column], listed: &[Text], name: &Text) -> Option<usize>
    ensures { result ≡ position (same_name name.now) (names_given columns.now listed.now) }
{
    if listed.is_empty() {
        column_named(columns, name)
    } else {
        place_in(listed, name)
    }
}

fn column_named(columns: &[Column], name: &Text) -> Option<usize>
    ensures { result ≡ position (λ column. same_name name.now column.name) columns.now }
{
    columns.iter().position(|column| *name == column.name)
}

// How many literals a tuple has to have.
fn width(columns: &[Column], listed: &[Text]) -> usize
    ensures { result ≡ length (names_given columns.now listed.now) }
{
    if listed.is_empty() {
        columns.len()
    } else {
        listed.len()
    }
}

// The literal that a tuple has for the column at this place, if it has one.
fn literal_given<'a>(
    columns: &[Column],
    listed: &[Text],
    places: &[Option<usize>],
    place: usize,
    tuple: &'a [Literal],
) -> Option<&'a Literal>
    requires places { places.now ≡ places_given columns.now listed.now }
    requires within { place < length columns.now }
    ensures { (column : ColumnOf) → column ≡ get_or columns.now place column →
        option_copied result ≡ given_to (names_given columns.now listed.now) tuple.now column.name }
{
    tuple.get(places[place]?)
}

// Whether a tuple has a literal for each of the columns that it is for, and each may be assigned to its column.
fn tuple_goes_with(
    columns: &[Column],
    listed: &[Text],
    places: &[Option<usize>],
    tuple: &[Literal],
) -> bool
    requires { places.now ≡ places_given columns.now listed.now }
    ensures { result ≡ tuple_goes_with columns.now (names_given columns.now listed.now) tuple.now }
{
    tuple.len() == width(columns, listed) && all_take(columns, listed, places, tuple)
}

fn all_take(
    columns: &[Column],
    listed: &[Text],
    places: &[Option<usize>],
    tuple: &[Literal],
) -> bool
    requires { places.now ≡ places_given columns.now listed.now }
    ensures { result
        ≡ list_all (takes_given (names_given columns.now listed.now) tuple.now) columns.now }
{
    for (place, column) in columns.iter().enumerate() {
        if !column_takes(column, literal_given(columns, listed, places, place, tuple)) {
            return false;
        }
    }
    true
}

fn column_takes(column: &Column, literal: Option<&Literal>) -> bool
    ensures { result ≡ column_takes column.now (option_copied literal.entry) }
{
    match literal {
        None => true,
        Some(literal) => literal_goes_with(column.kind, literal),
    }
}

/// What INSERT of these tuples into a table of these columns comes to, once its names and kinds are known to fit: the
/// rows are added to the table in their order, each as the table holds it, or the statement is refused where a literal
/// doesn't fit, or where a column that takes no NULL would hold one.
pub(crate) fn insert(
    alloc: Global,
    name: &Text,
    columns: &[Column],
    listed: &[Text],
    tuples: &[List<Literal>],
) -> Result<Result<Outcome, Refusal>, AllocError>
    ensures { IfOk result (λ outcome. outcome ≡ insert_outcome name.now columns.now
        (rows_made columns.now (names_given columns.now listed.now) tuples.now)) }
{
    let places = places_given(alloc, columns, listed)?;
    let Some(added) = rows_made(alloc, columns, listed, places.as_slice(), tuples)? else {
        return Ok(Err(Refusal::Range));
    };
    if let Some(column) = null_column(columns, added.as_slice()) {
        return Ok(Err(Refusal::NullIn {
            column: column.copy()?,
        }));
    }
    Ok(Ok(Outcome {
        answer: Answer::Count {
            word: Word::Insert,
            count: added.len() as u64,
        },
        change: Change::Alters {
            table: name.copy()?,
            gone: List::new(alloc),
            added,
        },
    }))
}

// The rows that tuples make, or `None` where a literal doesn't fit.
fn rows_made(
    alloc: Global,
    columns: &[Column],
    listed: &[Text],
    places: &[Option<usize>],
    tuples: &[List<Literal>],
) -> Result<Option<List<Row>>, AllocError>
    requires { places.now ≡ places_given columns.now listed.now }
    ensures { IfOk result (λ rows. rows
        ≡ rows_made columns.now (names_given columns.now listed.now) tuples.now) }
{
    let mut rows = List::with_capacity(alloc, tuples.len())?;
    for tuple in tuples {
        match values_made(alloc, columns, listed, places, tuple.as_slice())? {
            Some(values) => rows.push(Row { values })?,
            None => return Ok(None),
        }
    }
    Ok(Some(rows))
}

// The values of the row that a tuple makes, or `None` where a literal doesn't fit.
fn values_made(
    alloc: Global,
    columns: &[Column],
    listed: &[Text],
    places: &[Option<usize>],
    tuple: &[Literal],
) -> Result<Option<List<Value>>, AllocError>
    requires { places.now ≡ places_given columns.now listed.now }
    ensures { IfOk result (λ values. values
        ≡ values_made (names_given columns.now listed.now) tuple.now columns.now) }
{
    let mut values = List::with_capacity(alloc, columns.len())?;
    for (place, column) in columns.iter().enumerate() {
        let literal = literal_given(columns, listed, places, place, tuple);
        match value_made(column, literal)? {
            Some(value) => values.push(value)?,
            None => return Ok(None),
        }
    }
    Ok(Some(values))
}

// What a column holds of a tuple: the literal, or its default; `None` where the literal doesn't fit.
fn value_made(column: &Column, literal: Option<&Literal>) -> Result<Option<Value>, AllocError>
    ensures { IfOk result (λ value. value ≡ value_made column.now (option_copied literal.entry)) }
{
    match literal {
        None => Ok(Some(column.default.copy()?)),
        Some(literal) => held_literal(column.kind, literal),
    }
}

// The first column, in the table's order, that takes no NULL and is NULL in one of these rows.
fn null_column<'a>(columns: &'a [Column], rows: &[Row]) -> Option<&'a Text>
    ensures { option_copied result ≡ null_column columns.now rows.now }
{
    for (place, column) in columns.iter().enumerate() {
        if column.not_null && has_null_at(rows, place) {
            return Some(&column.name);
        }
    }
    None
}

fn has_null_at(rows: &[Row], place: usize) -> bool
    ensures { result ≡ has_null_at place rows.now }
{
    rows.iter().any(|row| is_null_at(row, place))
}

fn is_null_at(row: &Row, place: usize) -> bool
    ensures { result ≡ is_null (slice_get row.now.values place) }
{
    match row.values.get(place) {
        Some(value) => value.is_null(),
        None => false,
    }
}
