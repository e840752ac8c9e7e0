//! Rows from lists of their columns' values, and the values of a column from rows.
ghost use Rattle.std.specs.Prelude.{◌≡◌, slice_index_or, IfOk};
ghost use Rattle.dw_value.specs.declared.values.Value.TheVariants.{Null};
ghost use Rattle.dw_slice.specs.Grid.{column_of, row_at, first_rows};

use dw_value::{List, Row, Value};
use std::alloc::{AllocError, Global};

/// A copy of the value at a place, or NULL past the last one.
fn value_at(values: &[Value], place: usize) -> Result<Value, AllocError>
    ensures { IfOk result (λ value. value ≡ slice_index_or values.now place Null) }
{
    match values.get(place) {
        Some(value) => Ok(value.copy()?),
        None => Ok(Value::Null),
    }
}

/// The values that rows have at a place.
#[tactic(auto, using(crate::proofs::Grids::one_more))]
pub fn column_of(alloc: Global, rows: &[Row], place: usize) -> Result<List<Value>, AllocError>
    ensures { IfOk result (λ values. values ≡ column_of rows.now place) }
{
    let mut values = Vec::with_capacity(alloc, rows.len())?;
    for row in rows {
        values.push(value_at(row.values.as_slice(), place)?)?;
    }
    Ok(List::from_vec(values))
}

/// The row that columns have at a place.
#[tactic(auto, using(crate::proofs::Grids::one_more))]
fn row_at(alloc: Global, columns: &[List<Value>], place: usize) -> Result<Row, AllocError>
    ensures { IfOk result (λ row. row ≡ row_at columns.now place) }
{
    let mut values = Vec::with_capacity(alloc, columns.len())?;
    for column in columns {
        values.push(value_at(column.as_slice(), place)?)?;
    }
    Ok(Row {
        values: List::from_vec(values),
    })
}

/// The first `count` rows of columns.
pub fn first_rows(
    alloc: Global,
    columns: &[List<Value>],
    count: usize,
) -> Result<Vec<Row>, AllocError>
    ensures { IfOk result (λ rows. rows.items ≡ first_rows columns.now count) }
{
    let mut rows = Vec::with_capacity(alloc, count)?;
    for place in 0..count {
        rows.push(row_at(alloc, columns, place)?)?;
    }
    Ok(rows)
}
