//! The rows that a statement puts into a table.
ghost use Rattle.std.specs.Prelude.{◌≡◌, ◌≤◌, length, IfOk, OnOk};
ghost use Rattle.dw_query.specs.Stages.{joined, single};
ghost use Rattle.dw_query.specs.Filling.{changed_rows, filled_from, filled_row, filled_tuples, given_kind, given_value, inserted_rows, rows_after, taken};
ghost use Rattle.dw_query.specs.Outcomes.{Gives, so_far};

use crate::stages::{item_rows, take_row, tuple_rows};
use crate::under_way::UnderWay;
use dw_expr::{BoundExpr, ExecFault};
use dw_value::{Fault, Kind, List, Row, Value, admit, sort_rows};
use std::alloc::{AllocError, Global};

/// A column of the rows that are put into a table.
#[derive(Clone, Copy, Debug, PartialEq, Eq, Drop)]
pub struct Target {
    /// What the column takes.
    pub kind: Kind,
    /// The place, from 0, of the expression that the column is given; none where it is given none, and takes its default
    /// or its old value.
    pub place: Option<u32>,
}

/// The kind of the expression at a place.
fn given_kind(exprs: &[BoundExpr], place: u32) -> Kind
    ensures { result ≡ given_kind exprs.now place }
{
    match exprs.get(place as usize) {
        Some(expr) => expr.kind(),
        None => Kind::Int,
    }
}

/// A copy of the value at a place, NULL past the last.
fn given_value(values: &[Value], place: usize) -> Result<Value, AllocError>
    ensures { IfOk result (λ value. value ≡ given_value values.now place) }
{
    match values.get(place) {
        Some(value) => value.copy(),
        None => Ok(Value::Null),
    }
}

/// What a column takes: its own of the values, assigned to its kind, or else what stands for it, the value at `column`
/// among the others.
fn taken(
    target: Target,
    exprs: &[BoundExpr],
    values: &[Value],
    others: &[Value],
    column: usize,
) -> Result<Value, ExecFault>
    ensures { Gives (taken exprs.now values.now (given_value others.now column) target.kind target.place) result }
{
    let Some(place) = target.place else {
        return Ok(given_value(others, column)?);
    };
    let value = given_value(values, place as usize)?;
    match admit(target.kind, value, given_kind(exprs, place)) {
        Ok(value) => Ok(value),
        Err(_) => Err(ExecFault::Refused(Fault::Range)),
    }
}

/// Takes what a column takes.
fn take_column(
    target: Target,
    exprs: &[BoundExpr],
    values: &[Value],
    others: &[Value],
    column: usize,
    row: &mut UnderWay<Value>,
) -> Result<(), AllocError>
    ensures { OnOk result (so_far row.new.made row.new.least ≡ joined (so_far row.old.made row.old.least)
        (single (taken exprs.now values.now (given_value others.now column) target.kind target.place))) }
{
    match taken(target, exprs, values, others, column) {
        Ok(value) => row.push(value),
        Err(ExecFault::Refused(fault)) => {
            row.fail(fault);
            Ok(())
        }
        Err(ExecFault::Memory) => Err(AllocError),
    }
}

/// The row of these columns, given the expressions with their values, and the values that stand for columns that are
/// given none.
fn filled_row(
    alloc: Global,
    targets: &[Target],
    exprs: &[BoundExpr],
    values: &[Value],
    others: &[Value],
) -> Result<Row, ExecFault>
    ensures { Gives (filled_row targets.now exprs.now values.now others.now) result }
{
    let mut row = UnderWay::new(alloc);
    for column in 0..targets.len() {
        take_column(targets[column], exprs, values, others, column, &mut row)?;
    }
    let values = row.finish()?;
    Ok(Row { values })
}

/// The rows of these columns, one for each tuple with its row of values.
fn filled_tuples(
    alloc: Global,
    targets: &[Target],
    defaults: &[Value],
    tuples: &[List<BoundExpr>],
    rows: &[Row],
) -> Result<List<Row>, ExecFault>
    ensures { Gives (filled_tuples targets.now defaults.now tuples.now rows.now) result }
{
    let mut filled = UnderWay::new(alloc);
    let count = tuples.len().min(rows.len());
    for place in 0..count {
        let tuple = tuples[place].as_slice();
        let values = rows[place].values.as_slice();
        take_row(
            filled_row(alloc, targets, tuple, values, defaults),
            &mut filled,
        )?;
    }
    filled.finish()
}

/// The rows that an INSERT of these tuples adds to a table, in order: all tuples are evaluated before the first value is
/// assigned, and of the faults of either the least is that of all. A column that is given none of a tuple's expressions
/// takes its default, which stands at its place among `defaults`. `Memory` may come in place of any answer.
pub fn inserted_rows(
    alloc: Global,
    targets: &[Target],
    defaults: &[Value],
    tuples: &[List<BoundExpr>],
) -> Result<List<Row>, ExecFault>
    ensures { Gives (inserted_rows targets.now defaults.now tuples.now) result }
{
    let rows = tuple_rows(alloc, tuples)?;
    filled_tuples(alloc, targets, defaults, tuples, rows.as_slice())
}

/// The rows of these columns, one for each old row with its row of new values.
fn changed_rows(
    alloc: Global,
    targets: &[Target],
    sets: &[BoundExpr],
    rows: &[Row],
    values: &[Row],
) -> Result<List<Row>, ExecFault>
    ensures { Gives (changed_rows targets.now sets.now rows.now values.now) result }
{
    let mut changed = UnderWay::new(alloc);
    let count = rows.len().min(values.len());
    for place in 0..count {
        let others = rows[place].values.as_slice();
        let new = values[place].values.as_slice();
        take_row(filled_row(alloc, targets, sets, new, others), &mut changed)?;
    }
    changed.finish()
}

/// The rows that an UPDATE puts in the place of these, in ascending order. All new values are evaluated on the old rows
/// before the first is assigned, and of the faults of either the least is that of all. A column that isn't set keeps its
/// value. `Memory` may come in place of any answer.
pub fn rows_after(
    alloc: Global,
    targets: &[Target],
    sets: &[BoundExpr],
    rows: &[Row],
) -> Result<List<Row>, ExecFault>
    ensures { Gives (rows_after targets.now sets.now rows.now) result }
{
    let values = item_rows(alloc, sets, rows)?;
    let changed = changed_rows(alloc, targets, sets, rows, values.as_slice())?;
    Ok(sort_rows(changed)?)
}
