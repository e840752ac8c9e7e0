//! Columns of a table, found by their names.
ghost use Rattle.std.specs.Prelude.{◌≡◌, IfOk, map};
ghost use Rattle.std.specs.Option.{option_copied};
ghost use Rattle.std.specs.List.{list_any};
ghost use Rattle.dw_expr.specs.Sight.{same_name};
ghost use Rattle.dw_query.specs.BindingRows.{column_named, first_missing, is_repeated, names_for, wanted_for};

use dw_expr::{NamedColumn, Wanted};
use dw_value::{List, Text};
use std::alloc::{AllocError, Global};

/// The column of a name.
pub(crate) fn column_named<'a>(columns: &'a [NamedColumn], name: &Text) -> Option<&'a NamedColumn>
    ensures { option_copied result ≡ column_named columns.now name.now }
{
    for column in columns {
        if *name == column.name {
            return Some(column);
        }
    }
    None
}

/// The first of these names that is no column.
pub(crate) fn first_missing<'a>(columns: &[NamedColumn], names: &'a [Text]) -> Option<&'a Text>
    ensures { option_copied result ≡ first_missing columns.now names.now }
{
    for name in names {
        if column_named(columns, name).is_none() {
            return Some(name);
        }
    }
    None
}

/// Whether a name stands in a list.
fn is_among(name: &Text, names: &[Text]) -> bool
    ensures { result ≡ list_any (same_name name.now) names.now }
{
    names.iter().any(|other| *name == *other)
}

/// Whether a name stands in a list twice.
pub(crate) fn is_repeated(names: &[Text]) -> bool
    ensures { result ≡ is_repeated names.now }
{
    let mut rest = names;
    while let [name, others @ ..] = rest {
        if is_among(name, others) {
            return true;
        }
        rest = others;
    }
    false
}

/// The names of the columns that a tuple is for: those that are listed, and without a list all in order.
pub(crate) fn names_for(
    alloc: Global,
    columns: &[NamedColumn],
    listed: &[Text],
) -> Result<List<Text>, AllocError>
    ensures { IfOk result (λ names. names ≡ names_for columns.now listed.now) }
{
    let mut names = List::new(alloc);
    if listed.is_empty() {
        for column in columns {
            names.push(column.name.copy()?)?;
        }
        return Ok(names);
    }
    copies(alloc, listed)
}

/// The same names.
fn copies(alloc: Global, names: &[Text]) -> Result<List<Text>, AllocError>
    ensures { IfOk result (λ copies. copies ≡ names.now) }
{
    let mut copies = List::new(alloc);
    for name in names {
        copies.push(name.copy()?)?;
    }
    Ok(copies)
}

/// What an expression for the column of a name has to be.
fn wanted_for(columns: &[NamedColumn], name: &Text) -> Wanted
    ensures { result ≡ wanted_for columns.now name.now }
{
    match column_named(columns, name) {
        Some(column) => Wanted::Assigned(column.kind),
        None => Wanted::Anything,
    }
}

/// What the expressions of a tuple for the columns of these names have to be.
pub(crate) fn wanted_by_names(
    alloc: Global,
    columns: &[NamedColumn],
    names: &[Text],
) -> Result<List<Wanted>, AllocError>
    ensures { IfOk result (λ wanted. wanted ≡ map (wanted_for columns.now) names.now) }
{
    let mut wanted = List::new(alloc);
    for name in names {
        wanted.push(wanted_for(columns, name))?;
    }
    Ok(wanted)
}
