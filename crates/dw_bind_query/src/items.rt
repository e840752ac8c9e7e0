//! The items of a query.
ghost use Rattle.std.specs.Prelude.{◌≡◌, ◌+◌, Ok, IfOk, OnOk, map, length, List as Items, Option, Result};
ghost use Rattle.dw_expr.specs.declared.faults.BindFault.{BindFault as Reason};
ghost use Rattle.dw_expr.specs.BoundTree.{BoundTree};
ghost use Rattle.dw_expr.specs.BoundTree as b;
ghost use Rattle.dw_expr.specs.Sight.{columns_from, row_columns};
ghost use Rattle.dw_query.specs.Binding.{appended, beside, bound_item, bound_items, bound_query, column_itself, query_of};
ghost use Rattle.dw_bind_query.specs.Parts.{Gives, so_far};

use crate::conditions::bind_condition;
use crate::names::names_of_items;
use crate::parts::{Parts, take_expr, told};
use dw_bind::{Sight, bind_expression};
use dw_expr::{BindFault, BoundExpr, BoundNode, NamedSource, Wanted};
use dw_query::{BoundQuery, Item, Query};
use dw_value::{Kind, List, Text};
use std::alloc::{AllocError, Global};

/// A column of the joined row as an expression.
fn column_at(source: u32, place: u32, kind: Kind) -> BoundExpr
    ensures { result ≡ b.column source place kind }
{
    BoundExpr {
        node: BoundNode::Column {
            source,
            place,
            kind,
        },
    }
}

/// Takes the columns of the source of this number, of which the first has this place in the joined row, and gives the
/// place after the last.
fn take_source(
    number: u32,
    first: u32,
    source: &NamedSource,
    parts: &mut Parts<BoundExpr>,
) -> Result<u32, AllocError>
    ensures next { IfOk result (λ next. next ≡ first + length source.now.columns) }
    ensures taken { IfOk result (λ next. so_far parts.new.made parts.new.refusal
        ≡ appended (so_far parts.old.made parts.old.refusal)
        (Ok (map column_itself (columns_from number source.now.alias first source.now.columns)))) }
{
    let mut place = first;
    for column in source.columns.as_slice() {
        parts.push(column_at(number, place, column.kind))?;
        place = place.checked_add(1).ok_or(AllocError)?;
    }
    Ok(place)
}

/// Takes all columns of the joined row.
fn take_sources(sources: &[NamedSource], parts: &mut Parts<BoundExpr>) -> Result<(), AllocError>
    ensures { OnOk result (so_far parts.new.made parts.new.refusal
        ≡ appended (so_far parts.old.made parts.old.refusal) (Ok (map column_itself (row_columns sources.now)))) }
{
    let mut number: u32 = 0;
    let mut place = 0;
    for source in sources {
        place = take_source(number, place, source, parts)?;
        number = number.checked_add(1).ok_or(AllocError)?;
    }
    Ok(())
}

/// Takes an item: a `*` stands for all columns, and needs a source.
fn take_item(
    alloc: Global,
    sight: &Sight,
    item: &Item,
    parts: &mut Parts<BoundExpr>,
) -> Result<(), AllocError>
    ensures { OnOk result (so_far parts.new.made parts.new.refusal
        ≡ appended (so_far parts.old.made parts.old.refusal) (bound_item sight.now item.now)) }
{
    match item {
        Item::All if sight.sources().is_empty() => {
            parts.refuse(BindFault::Clash);
            Ok(())
        }
        Item::All => take_sources(sight.sources(), parts),
        Item::One { expr, .. } => take_expr(
            bind_expression(alloc, expr, sight, false, Wanted::Anything),
            parts,
        ),
    }
}

/// The items, bound one after another.
fn bind_items(alloc: Global, sight: &Sight, items: &[Item]) -> Result<List<BoundExpr>, BindFault>
    ensures { Gives (bound_items sight.now items.now) result }
{
    let mut parts = Parts::new(alloc);
    for item in items {
        take_item(alloc, sight, item, &mut parts)?;
    }
    parts.finish()
}

/// A query of these names.
fn query_of(
    names: List<Text>,
    items: Result<List<BoundExpr>, BindFault>,
    keep: Result<Option<BoundExpr>, BindFault>,
) -> Result<BoundQuery, BindFault>
    ensures { (due : Result (Items BoundTree) Reason) (kept : Result (Option BoundTree) Reason) →
        Gives due items → Gives kept keep → Gives (beside (query_of names) due kept) result }
{
    match items {
        Ok(items) => match keep {
            Ok(keep) => Ok(BoundQuery { names, items, keep }),
            Err(fault) => Err(fault),
        },
        Err(first) => match keep {
            Ok(_keep) => Err(first),
            Err(second) => Err(told(first, second)),
        },
    }
}

/// A query bound to the columns in sight: its items and their names, and its condition. The name of an item without one
/// is its column's, or its aggregate's, else `?column?`. A name that means no column in sight, or more than one, gives
/// `Unknown` with the first such name, of the items and then of the condition, whatever else is wrong; kinds that don't
/// go together, an aggregate, and a `*` without a source give `Clash`. `Memory` may come in place of any answer: for
/// want of memory, and where a place has no 32 bits.
pub fn bind_query(alloc: Global, sight: &Sight, query: &Query) -> Result<BoundQuery, BindFault>
    ensures { Gives (bound_query sight.now query.now) result }
{
    let names = names_of_items(alloc, sight, query.items.as_slice())?;
    let items = bind_items(alloc, sight, query.items.as_slice());
    let keep = bind_condition(alloc, sight, &query.keep);
    query_of(names, items, keep)
}
