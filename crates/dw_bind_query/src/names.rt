//! The names of an answer's columns.
ghost use Rattle.std.specs.Prelude.{◌≡◌, ◌++◌, IfOk, OnOk, map, flat_map};
ghost use Rattle.dw_expr.specs.Sight.{row_columns};
ghost use Rattle.dw_query.specs.Binding.{column_name, function_name, item_names, name_of};
ghost use Rattle.dw_query.specs.BindingRows.{name_in};

use dw_bind::Sight;
use dw_expr::{Aggregate, Expr, NamedColumn, NamedSource, Node};
use dw_query::Item;
use dw_value::{List, Text};
use std::alloc::{AllocError, Global};

/// The name of a column that an aggregate makes.
fn function_name(function: Aggregate) -> &'static str
    ensures { result.now ≡ function_name function }
{
    match function {
        Aggregate::Count | Aggregate::CountDistinct => "count",
        Aggregate::Sum => "sum",
        Aggregate::Min => "min",
        Aggregate::Max => "max",
    }
}

/// The name of an item without one.
fn name_of(alloc: Global, expr: &Expr) -> Result<Text, AllocError>
    ensures { IfOk result (λ name. name ≡ name_of expr.now) }
{
    match &expr.node {
        Node::Column { name, .. } => name.copy(),
        Node::CountRows => Text::from_str(alloc, "count"),
        Node::Aggregate(function, _) => Text::from_str(alloc, function_name(*function)),
        _ => Text::from_str(alloc, "?column?"),
    }
}

/// Appends the names of columns.
fn push_columns(columns: &[NamedColumn], names: &mut List<Text>) -> Result<(), AllocError>
    ensures { OnOk result (names.new ≡ names.old ++ map name_in columns.now) }
{
    for column in columns {
        names.push(column.name.copy()?)?;
    }
    Ok(())
}

/// Appends the names of all columns of the joined row.
#[tactic(auto, using(crate::proofs::Gathering::names_of_sources))]
fn push_sources(sources: &[NamedSource], names: &mut List<Text>) -> Result<(), AllocError>
    ensures { OnOk result (names.new ≡ names.old ++ map column_name (row_columns sources.now)) }
{
    for source in sources {
        push_columns(source.columns.as_slice(), names)?;
    }
    Ok(())
}

/// Appends the names that an item gives.
fn push_item(
    alloc: Global,
    sight: &Sight,
    item: &Item,
    names: &mut List<Text>,
) -> Result<(), AllocError>
    ensures { OnOk result (names.new ≡ names.old ++ item_names sight.now item.now) }
{
    match item {
        Item::All => push_sources(sight.sources(), names),
        Item::One {
            name: Some(name),
            ..
        } => names.push(name.copy()?),
        Item::One { expr, name: None } => names.push(name_of(alloc, expr)?),
    }
}

/// The names of the answer's columns.
pub(crate) fn names_of_items(
    alloc: Global,
    sight: &Sight,
    items: &[Item],
) -> Result<List<Text>, AllocError>
    ensures { IfOk result (λ names. names ≡ flat_map (item_names sight.now) items.now) }
{
    let mut names = List::new(alloc);
    for item in items {
        push_item(alloc, sight, item, &mut names)?;
    }
    Ok(names)
}
