//! CREATE TABLE.
ghost use Rattle.std.specs.Prelude.{◌≡◌, not, map as mapped, IfOk};
ghost use Rattle.std.specs.List.{find, list_any};
ghost use Rattle.std.specs.Option.{option_copied};
ghost use Rattle.dw_model.specs.Alone.{create_outcome};
ghost use Rattle.dw_model.specs.Binding.{is_name_in};
ghost use Rattle.dw_model.specs.Creating.{clash_refusal, column_made, create_refusal, def_made, encoding_made, is_clash, is_style_clash, is_unfit, names_of, place_among, sort_made, style_made};
ghost use Rattle.dw_model.specs.Databases.{def_of};

use crate::literals::default_made;
use crate::names::{is_name_in, place_in, repeated_name};
use dw_model::{
    Answer, Change, Column, ColumnSpec, Database, Outcome, Refusal, StyleWord, TableDef, TableSpec,
    Word,
};
use dw_value::{Encoding, List, Style, Text, Value, allows};
use std::alloc::{AllocError, Global};

/// What CREATE TABLE is refused for: a name that is taken, a doubled column, an unknown column in a key or a
/// constraint, and what doesn't go together. The first of these counts.
pub(crate) fn create_refusal(
    spec: &TableSpec,
    database: &Database,
) -> Result<Option<Refusal>, AllocError>
    ensures { IfOk result (λ refusal. refusal ≡ create_refusal spec.now (def_of database.now spec.now.name)) }
{
    if database.get(&spec.name).is_some() {
        return Ok(Some(Refusal::Exists {
            name: spec.name.copy()?,
        }));
    }
    let names = column_names(spec.columns.as_slice(), spec.columns.allocator())?;
    if let Some(name) = repeated_name(names.as_slice()) {
        return Ok(Some(Refusal::Exists { name: name.copy()? }));
    }
    if let Some(name) = unknown_name(names.as_slice(), spec.named.as_slice()) {
        return Ok(Some(Refusal::Unknown { name: name.copy()? }));
    }
    clash_refusal(spec)
}

// Copies of the names of these columns.
fn column_names(columns: &[ColumnSpec], alloc: Global) -> Result<List<Text>, AllocError>
    ensures { IfOk result (λ names. names ≡ names_of columns.now) }
{
    let mut names = List::with_capacity(alloc, columns.len())?;
    for column in columns {
        names.push(column.name.copy()?)?;
    }
    Ok(names)
}

// The first of the names in keys and constraints that is none of these.
fn unknown_name<'a>(names: &[Text], named: &'a [Text]) -> Option<&'a Text>
    ensures { option_copied result ≡ find (λ name. not (is_name_in names.now name)) named.now }
{
    named.iter().find(|name| !is_name_in(names, *name))
}

fn clash_refusal(spec: &TableSpec) -> Result<Option<Refusal>, AllocError>
    ensures { IfOk result (λ refusal. refusal ≡ clash_refusal spec.now) }
{
    if is_clash(spec)? {
        Ok(Some(Refusal::Clash))
    } else {
        Ok(None)
    }
}

// Whether there are two keys of one sort, a style that doesn't go with the key, or an unfit column.
fn is_clash(spec: &TableSpec) -> Result<bool, AllocError>
    ensures { IfOk result (λ clash. clash ≡ is_clash spec.now) }
{
    if spec.dist_keys.len() > 1 || spec.sort_keys.len() > 1 {
        return Ok(true);
    }
    if is_style_clash(spec.style, spec.dist_keys.as_slice()) {
        return Ok(true);
    }
    has_unfit(spec.columns.as_slice())
}

// KEY without a key, and another style with one.
fn is_style_clash(style: Option<StyleWord>, keys: &[Text]) -> bool
    ensures { result ≡ is_style_clash style keys.now }
{
    match style {
        Some(StyleWord::Key) => keys.is_empty(),
        Some(StyleWord::Even | StyleWord::All) => !keys.is_empty(),
        None => false,
    }
}

fn has_unfit(columns: &[ColumnSpec]) -> Result<bool, AllocError>
    ensures { IfOk result (λ unfit. unfit ≡ list_any is_unfit columns.now) }
{
    for column in columns {
        if is_unfit(column)? {
            return Ok(true);
        }
    }
    Ok(false)
}

// Whether a column's default or encoding isn't for its kind.
fn is_unfit(column: &ColumnSpec) -> Result<bool, AllocError>
    ensures { IfOk result (λ unfit. unfit ≡ is_unfit column.now) }
{
    match default_made(column.kind, &column.default)? {
        Some(_) => Ok(!allows(encoding_made(column.encoding), column.kind)),
        None => Ok(true),
    }
}

// The encoding of a column: RAW where none is written.
fn encoding_made(written: Option<Encoding>) -> Encoding
    ensures { result ≡ encoding_made written }
{
    written.unwrap_or(Encoding::Raw)
}

/// What CREATE TABLE comes to, once its names are known to be new: a table without rows is made. Of more columns than
/// 2^32 the places can't be told, as if there were no memory for them.
pub(crate) fn create(alloc: Global, spec: &TableSpec) -> Result<Outcome, AllocError>
    ensures { IfOk result (λ outcome. outcome ≡ create_outcome spec.now.name (def_made spec.now)) }
{
    let def = def_made(alloc, spec)?;
    Ok(Outcome {
        answer: Answer::Plain {
            word: Word::CreateTable,
        },
        change: Change::Creates {
            table: spec.name.copy()?,
            def,
        },
    })
}

fn def_made(alloc: Global, spec: &TableSpec) -> Result<TableDef, AllocError>
    ensures { IfOk result (λ def. def ≡ def_made spec.now) }
{
    let names = column_names(spec.columns.as_slice(), alloc)?;
    Ok(TableDef {
        name: spec.name.copy()?,
        columns: columns_made(alloc, spec.columns.as_slice())?,
        style: style_made(names.as_slice(), spec.dist_keys.as_slice(), spec.style)?,
        sort: sort_made(alloc, names.as_slice(), spec.sort_keys.as_slice())?,
    })
}

fn columns_made(alloc: Global, columns: &[ColumnSpec]) -> Result<List<Column>, AllocError>
    ensures { IfOk result (λ made. made ≡ mapped column_made columns.now) }
{
    let mut made = List::with_capacity(alloc, columns.len())?;
    for column in columns {
        made.push(column_made(column)?)?;
    }
    Ok(made)
}

fn column_made(column: &ColumnSpec) -> Result<Column, AllocError>
    ensures { IfOk result (λ made. made ≡ column_made column.now) }
{
    let default = default_made(column.kind, &column.default)?;
    Ok(Column {
        name: column.name.copy()?,
        kind: column.kind,
        not_null: column.not_null,
        default: default.unwrap_or(Value::Null),
        encoding: encoding_made(column.encoding),
    })
}

// The style: by the key where there is one, else as it is written, else EVEN.
fn style_made(names: &[Text], keys: &[Text], style: Option<StyleWord>) -> Result<Style, AllocError>
    ensures { IfOk result (λ made. made ≡ style_made names.now keys.now style) }
{
    match keys.first() {
        Some(key) => Ok(Style::Key {
            column: place_among(names, key)?,
        }),
        None => match style {
            Some(StyleWord::All) => Ok(Style::All),
            Some(StyleWord::Even | StyleWord::Key) | None => Ok(Style::Even),
        },
    }
}

// The places of the sort key's columns.
fn sort_made(alloc: Global, names: &[Text], keys: &[List<Text>]) -> Result<List<u32>, AllocError>
    ensures { IfOk result (λ made. made ≡ sort_made names.now keys.now) }
{
    match keys.first() {
        Some(key) => places_among(alloc, names, key.as_slice()),
        None => Ok(List::new(alloc)),
    }
}

fn places_among(alloc: Global, names: &[Text], key: &[Text]) -> Result<List<u32>, AllocError>
    ensures { IfOk result (λ places. places ≡ mapped (place_among names.now) key.now) }
{
    let mut places = List::with_capacity(alloc, key.len())?;
    for name in key {
        places.push(place_among(names, name)?)?;
    }
    Ok(places)
}

// The place of a column of this name, from 0. A place that has no 32 bits is told as want of memory.
fn place_among(names: &[Text], name: &Text) -> Result<u32, AllocError>
    ensures { IfOk result (λ place. place ≡ place_among names.now name.now) }
{
    match u32::try_from(place_in(names, name).unwrap_or(0)) {
        Ok(place) => Ok(place),
        Err(_) => Err(AllocError),
    }
}
