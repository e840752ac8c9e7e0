//! What the parts of a CREATE TABLE make of the table.
ghost use Rattle.std.specs.Prelude.{◌≡◌, ◌++◌, [], ◌∷◌, map, filter, flat_map, IfOk};
ghost use Rattle.dw_parse.specs.Tables.{later, last_of, style_said, is_dist_key, is_sort_key, column_made, table_made};
ghost use Rattle.dw_parse.specs.Tables.{columns_in, dist_keys_in, sort_keys_in, names_in};
ghost use Rattle.dw_parse.specs.Tables.{dist_keys_of, sort_keys_of, names_of};

use crate::parts::{Attribute, ColumnOption, Part};
use dw_model::{ColumnSpec, TableSpec};
use dw_value::{Copied, Kind, List, Text};
use std::alloc::{AllocError, Global};

// The column that a name, a kind and options make.
#[tactic(auto, using(crate::proofs::TableLemmas::last_of_push))]
fn column_made(name: Text, kind: Kind, options: List<ColumnOption>) -> ColumnSpec
    ensures { result ≡ column_made name kind options }
{
    let mut not_null = false;
    let mut default = None;
    let mut encoding = None;
    for option in options.into_vec() {
        match option {
            ColumnOption::Null => not_null = false,
            ColumnOption::NotNull => not_null = true,
            ColumnOption::Default { literal } => default = Some(literal),
            ColumnOption::Encode { encoding: said } => encoding = Some(said),
            ColumnOption::DistKey | ColumnOption::SortKey | ColumnOption::Constraint => {}
        }
    }
    ColumnSpec {
        name,
        kind,
        not_null,
        default,
        encoding,
    }
}

// The name is pushed for each DISTKEY.
fn push_dist_keys(
    keys: &mut List<Text>,
    name: &Text,
    options: &List<ColumnOption>,
) -> Result<(), AllocError>
    ensures { IfOk result (λ done. keys.new ≡ keys.old ++ map (λ key. name.now) (filter is_dist_key options.now)) }
{
    for option in options.as_slice() {
        if matches!(option, ColumnOption::DistKey) {
            keys.push(name.copy()?)?;
        }
    }
    Ok(())
}

fn list_of_one(alloc: Global, name: &Text) -> Result<List<Text>, AllocError>
    ensures { IfOk result (λ list. list ≡ name.now ∷ []) }
{
    let mut list = List::new(alloc);
    list.push(name.copy()?)?;
    Ok(list)
}

// The list of the name alone is pushed for each SORTKEY.
fn push_sort_keys(
    alloc: Global,
    keys: &mut List<List<Text>>,
    name: &Text,
    options: &List<ColumnOption>,
) -> Result<(), AllocError>
    ensures { IfOk result (λ done. keys.new ≡ keys.old ++ map (λ key. name.now ∷ []) (filter is_sort_key options.now)) }
{
    for option in options.as_slice() {
        if matches!(option, ColumnOption::SortKey) {
            keys.push(list_of_one(alloc, name)?)?;
        }
    }
    Ok(())
}

// All names, after those that are there.
fn push_names(names: &mut List<Text>, more: &List<Text>) -> Result<(), AllocError>
    ensures { IfOk result (λ done. names.new ≡ names.old ++ more.now) }
{
    for name in more.as_slice() {
        names.push(name.copy()?)?;
    }
    Ok(())
}

// A table with one part more.
fn add_part(alloc: Global, spec: &mut TableSpec, part: Part) -> Result<(), AllocError>
    ensures name { IfOk result (λ done. spec.new.name ≡ spec.old.name) }
    ensures columns { IfOk result (λ done. spec.new.columns ≡ spec.old.columns ++ columns_in part) }
    ensures style { IfOk result (λ done. spec.new.style ≡ spec.old.style) }
    ensures dist_keys { IfOk result (λ done. spec.new.dist_keys ≡ spec.old.dist_keys ++ dist_keys_in part) }
    ensures sort_keys { IfOk result (λ done. spec.new.sort_keys ≡ spec.old.sort_keys ++ sort_keys_in part) }
    ensures named { IfOk result (λ done. spec.new.named ≡ spec.old.named ++ names_in part) }
{
    match part {
        Part::Column {
            name,
            kind,
            options,
        } => {
            push_dist_keys(&mut spec.dist_keys, &name, &options)?;
            push_sort_keys(alloc, &mut spec.sort_keys, &name, &options)?;
            spec.columns.push(column_made(name, kind, options))
        }
        Part::Constraint { names } => push_names(&mut spec.named, &names),
    }
}

// A table with one attribute more.
fn add_attribute(spec: &mut TableSpec, attribute: Attribute) -> Result<(), AllocError>
    ensures name { IfOk result (λ done. spec.new.name ≡ spec.old.name) }
    ensures columns { IfOk result (λ done. spec.new.columns ≡ spec.old.columns) }
    ensures style { IfOk result (λ done. spec.new.style ≡ later spec.old.style (style_said attribute)) }
    ensures dist_keys { IfOk result (λ done. spec.new.dist_keys ≡ spec.old.dist_keys ++ dist_keys_of attribute) }
    ensures sort_keys { IfOk result (λ done. spec.new.sort_keys ≡ spec.old.sort_keys ++ sort_keys_of attribute) }
    ensures named { IfOk result (λ done. spec.new.named ≡ spec.old.named ++ names_of attribute) }
{
    match attribute {
        Attribute::Style { style } => {
            spec.style = Some(style);
            Ok(())
        }
        Attribute::DistKey { name } => {
            spec.named.push(name.copy()?)?;
            spec.dist_keys.push(name)
        }
        Attribute::SortKey { names } => {
            push_names(&mut spec.named, &names)?;
            spec.sort_keys.push(names)
        }
        Attribute::Idle => Ok(()),
    }
}

// A table with more parts.
fn add_parts(alloc: Global, spec: &mut TableSpec, parts: List<Part>) -> Result<(), AllocError>
    ensures name { IfOk result (λ done. spec.new.name ≡ spec.old.name) }
    ensures columns { IfOk result (λ done. spec.new.columns ≡ spec.old.columns ++ flat_map columns_in parts) }
    ensures style { IfOk result (λ done. spec.new.style ≡ spec.old.style) }
    ensures dist_keys { IfOk result (λ done. spec.new.dist_keys ≡ spec.old.dist_keys ++ flat_map dist_keys_in parts) }
    ensures sort_keys { IfOk result (λ done. spec.new.sort_keys ≡ spec.old.sort_keys ++ flat_map sort_keys_in parts) }
    ensures named { IfOk result (λ done. spec.new.named ≡ spec.old.named ++ flat_map names_in parts) }
{
    for part in parts.into_vec() {
        add_part(alloc, spec, part)?;
    }
    Ok(())
}

// A table with more attributes.
fn add_attributes(spec: &mut TableSpec, attributes: List<Attribute>) -> Result<(), AllocError>
    ensures name { IfOk result (λ done. spec.new.name ≡ spec.old.name) }
    ensures columns { IfOk result (λ done. spec.new.columns ≡ spec.old.columns) }
    ensures style { IfOk result (λ done. spec.new.style ≡ later spec.old.style (last_of style_said attributes)) }
    ensures dist_keys { IfOk result (λ done.
        spec.new.dist_keys ≡ spec.old.dist_keys ++ flat_map dist_keys_of attributes) }
    ensures sort_keys { IfOk result (λ done.
        spec.new.sort_keys ≡ spec.old.sort_keys ++ flat_map sort_keys_of attributes) }
    ensures named { IfOk result (λ done. spec.new.named ≡ spec.old.named ++ flat_map names_of attributes) }
{
    for attribute in attributes.into_vec() {
        add_attribute(spec, attribute)?;
    }
    Ok(())
}

/// The table of this name that parts and attributes make.
#[tactic(auto, using(crate::proofs::TableLemmas::later_none))]
pub fn table_made(
    alloc: Global,
    name: Text,
    parts: List<Part>,
    attributes: List<Attribute>,
) -> Result<TableSpec, AllocError>
    ensures { IfOk result (λ spec. spec ≡ table_made name parts attributes) }
{
    let mut spec = TableSpec {
        name,
        columns: List::new(alloc),
        style: None,
        dist_keys: List::new(alloc),
        sort_keys: List::new(alloc),
        named: List::new(alloc),
    };
    add_parts(alloc, &mut spec, parts)?;
    add_attributes(&mut spec, attributes)?;
    Ok(spec)
}
