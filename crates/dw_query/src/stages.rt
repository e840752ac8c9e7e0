//! The stages of a query of one source: WHERE, the items, the order.
ghost use Rattle.std.specs.Prelude.{◌≡◌, OnOk, Result};
ghost use Rattle.dw_value.specs.declared.kinds.Fault.{Fault as Reason};
ghost use Rattle.dw_value.specs.declared.values.Row.{Row as RowOf};
ghost use Rattle.dw_query.specs.Stages.{item_rows, items_of, joined, kept_row, kept_rows, row_on, selected_rows, single, tuple_row, tuple_rows, value_on};
ghost use Rattle.dw_query.specs.Outcomes.{Gives, so_far};

use crate::under_way::UnderWay;
use dw_expr::{BoundExpr, ExecFault, evaluate};
use dw_value::{List, Row, Value, sort_rows};
use std::alloc::{AllocError, Global};

/// Takes the value of an expression on a row.
fn take_value(
    alloc: Global,
    expr: &BoundExpr,
    row: &Row,
    values: &mut UnderWay<Value>,
) -> Result<(), AllocError>
    ensures { OnOk result (so_far values.new.made values.new.least
        ≡ joined (so_far values.old.made values.old.least) (value_on row.now.values expr.now)) }
{
    match evaluate(alloc, expr, row) {
        Ok(value) => values.push(value),
        Err(ExecFault::Refused(fault)) => {
            values.fail(fault);
            Ok(())
        }
        Err(ExecFault::Memory) => Err(AllocError),
    }
}

/// The row of the values of these expressions on a row.
pub(crate) fn row_on(alloc: Global, exprs: &[BoundExpr], row: &Row) -> Result<Row, ExecFault>
    ensures { Gives (row_on exprs.now row.now.values) result }
{
    let mut values = UnderWay::new(alloc);
    for expr in exprs {
        take_value(alloc, expr, row, &mut values)?;
    }
    let values = values.finish()?;
    Ok(Row { values })
}

/// Takes a row that was made, or its fault.
pub(crate) fn take_row(
    made: Result<Row, ExecFault>,
    rows: &mut UnderWay<Row>,
) -> Result<(), AllocError>
    ensures { (outcome : Result RowOf Reason) → Gives outcome made → OnOk result (so_far rows.new.made rows.new.least
        ≡ joined (so_far rows.old.made rows.old.least) (single outcome)) }
{
    match made {
        Ok(row) => rows.push(row),
        Err(ExecFault::Refused(fault)) => {
            rows.fail(fault);
            Ok(())
        }
        Err(ExecFault::Memory) => Err(AllocError),
    }
}

/// For each row the row of the values of these expressions on it, all evaluated: the least fault of any of them is that
/// of all. `Memory` may come in place of any answer.
pub fn item_rows(alloc: Global, exprs: &[BoundExpr], rows: &[Row]) -> Result<List<Row>, ExecFault>
    ensures { Gives (item_rows exprs.now rows.now) result }
{
    let mut items = UnderWay::new(alloc);
    for row in rows {
        take_row(row_on(alloc, exprs, row), &mut items)?;
    }
    items.finish()
}

/// The row of the values of each tuple's expressions, which are evaluated on a row without values. `Memory` may come in
/// place of any answer.
pub fn tuple_rows(alloc: Global, tuples: &[List<BoundExpr>]) -> Result<List<Row>, ExecFault>
    ensures { Gives (tuple_rows tuples.now) result }
{
    let mut rows = UnderWay::new(alloc);
    let nothing = Row {
        values: List::new(alloc),
    };
    for tuple in tuples {
        take_row(row_on(alloc, tuple.as_slice(), &nothing), &mut rows)?;
    }
    rows.finish()
}

/// Takes a row where the condition is true.
fn take_kept(
    alloc: Global,
    condition: &Option<BoundExpr>,
    row: &Row,
    kept: &mut UnderWay<Row>,
) -> Result<(), AllocError>
    ensures { OnOk result (so_far kept.new.made kept.new.least
        ≡ joined (so_far kept.old.made kept.old.least) (kept_row condition.now row.now)) }
{
    let Some(condition) = condition else {
        return kept.push(row.copy()?);
    };
    match evaluate(alloc, condition, row) {
        Ok(Value::Truth(true)) => kept.push(row.copy()?),
        Ok(_) => Ok(()),
        Err(ExecFault::Refused(fault)) => {
            kept.fail(fault);
            Ok(())
        }
        Err(ExecFault::Memory) => Err(AllocError),
    }
}

/// The rows on which the condition is true, or all where none is written, in order, as copies. It is evaluated on all
/// rows: the least fault is that of all. `Memory` may come in place of any answer.
pub fn kept_rows(
    alloc: Global,
    condition: &Option<BoundExpr>,
    rows: &[Row],
) -> Result<List<Row>, ExecFault>
    ensures { Gives (kept_rows condition.now rows.now) result }
{
    let mut kept = UnderWay::new(alloc);
    for row in rows {
        take_kept(alloc, condition, row, &mut kept)?;
    }
    kept.finish()
}

/// The rows of a query of one source without groups, in ascending order: for each row on which the condition is true the
/// row of the items' values. A fault of the condition comes before those of the items. `Memory` may come in place of any
/// answer.
pub fn selected_rows(
    alloc: Global,
    condition: &Option<BoundExpr>,
    items: &[BoundExpr],
    rows: &[Row],
) -> Result<List<Row>, ExecFault>
    ensures { Gives (selected_rows condition.now items.now rows.now) result }
{
    let kept = kept_rows(alloc, condition, rows)?;
    let made = item_rows(alloc, items, kept.as_slice())?;
    Ok(sort_rows(made)?)
}
