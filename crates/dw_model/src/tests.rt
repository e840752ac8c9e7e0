//! Databases after one step after another, as texts.
use crate::changes::Change;
use crate::databases::{Database, Entry};
use crate::tables::{Column, Table, TableDef};
use dw_value::{Encoding, Kind, List, Row, Style, Text, Value};
use std::alloc::{AllocError, Global};
use std::test::Fail;

fn definition(alloc: Global, column: &str) -> Result<TableDef, AllocError> {
    let mut columns = List::new(alloc);
    columns.push(Column {
        name: Text::from_str(alloc, column)?,
        kind: Kind::Int,
        not_null: true,
        default: Value::Number(7),
        encoding: Encoding::Delta,
    })?;
    Ok(TableDef {
        name: Text::from_str(alloc, "t")?,
        columns,
        style: Style::Even,
        sort: List::new(alloc),
    })
}

// Puts a table without rows, with this column, under a name.
fn put(alloc: Global, database: &mut Database, name: Text, column: &str) -> Result<(), AllocError> {
    let def = definition(alloc, column)?;
    let table = Table {
        def,
        rows: List::new(alloc),
    };
    database.put(name, table)
}

fn row(alloc: Global, digit: u8) -> Result<Row, AllocError> {
    let mut values = List::new(alloc);
    values.push(Value::Number(i128::from(digit)))?;
    Ok(Row { values })
}

// A row for each byte.
fn rows(alloc: Global, digits: &str) -> Result<List<Row>, AllocError> {
    let mut rows = List::new(alloc);
    for digit in digits.as_bytes() {
        rows.push(row(alloc, *digit)?)?;
    }
    Ok(rows)
}

// A database of one table, `a`, with a column `w`.
fn other(alloc: Global) -> Result<Database, AllocError> {
    let mut other = Database::new(alloc);
    put(alloc, &mut other, Text::from_str(alloc, "a")?, "w")?;
    Ok(other)
}

fn alter(alloc: Global, table: Text, gone: &str, added: &str) -> Result<Change, AllocError> {
    let gone = rows(alloc, gone)?;
    let added = rows(alloc, added)?;
    Ok(Change::Alters { table, gone, added })
}

fn create(alloc: Global, table: Text, column: &str) -> Result<Change, AllocError> {
    let def = definition(alloc, column)?;
    Ok(Change::Creates { table, def })
}

// A step on the table of a name: `a` and `b` are a column, or the rows that go and those that come.
fn step(
    alloc: Global,
    database: &mut Database,
    form: &str,
    name: Text,
    a: &str,
    b: &str,
) -> Result<(), AllocError> {
    match form {
        "put" => put(alloc, database, name, a),
        "share" => database.share(&name, &other(alloc)?),
        "remove" => {
            database.remove(&name);
            Ok(())
        }
        "create" => database.apply(&create(alloc, name, a)?),
        "drop" => database.apply(&Change::Drops { table: name }),
        "alter" => database.apply(&alter(alloc, name, a, b)?),
        _ => database.apply(&Change::Unchanged),
    }
}

fn push_row(text: &mut String, row: &Row) -> Result<(), AllocError> {
    if let Some(Value::Number(number)) = row.values.get(0) {
        let digit = char::from(u8::try_from(*number).unwrap_or(b'-'));
        text.push(digit)?;
    }
    Ok(())
}

// An entry as its name, that of its first column and its rows.
fn push_entry(text: &mut String, entry: &Entry) -> Result<(), AllocError> {
    text.push_str(entry.name.as_str())?;
    text.push('.')?;
    if let Some(column) = entry.table.def.columns.get(0) {
        text.push_str(column.name.as_str())?;
    }
    for row in entry.table.rows.as_slice() {
        push_row(text, row)?;
    }
    text.push(' ')
}

fn text_of(alloc: Global, database: &Database) -> Result<String, AllocError> {
    let mut text = String::new(alloc);
    for entry in database.as_slice() {
        push_entry(&mut text, entry)?;
    }
    Ok(text)
}

#[test]
fn databases_keep_their_tables(rt: HostRuntime) -> Result<(), Fail> {
    let alloc = rt.alloc();
    let mut database = Database::new(alloc);
    for (form, name, a, b, len, has, wanted) in [
        ("none", "b", "", "", 0, false, ""),
        ("put", "b", "x", "", 1, true, "b.x "),
        ("put", "a", "y", "", 2, true, "a.y b.x "),
        ("put", "b", "z", "", 2, true, "a.y b.z "),
        ("create", "c", "v", "", 3, true, "a.y b.z c.v "),
        ("share", "d", "", "", 3, false, "a.y b.z c.v "),
        ("share", "b", "", "", 2, false, "a.y c.v "),
        ("share", "a", "", "", 2, true, "a.w c.v "),
        ("alter", "b", "", "1", 2, false, "a.w c.v "),
        ("alter", "c", "", "3121", 2, true, "a.w c.v1123 "),
        ("alter", "c", "134", "4", 2, true, "a.w c.v124 "),
        ("remove", "bb", "", "", 2, false, "a.w c.v124 "),
        ("remove", "a", "", "", 1, false, "c.v124 "),
        ("alter", "c", "412", "", 1, true, "c.v "),
        ("drop", "c", "", "", 0, false, ""),
    ] {
        let name = Text::from_str(alloc, name)?;
        step(alloc, &mut database, form, name.copy()?, a, b)?;
        database = database.copy()?;
        assert_eq!(rt; database.len(), len);
        assert_eq!(rt; database.is_empty(), len == 0);
        assert_eq!(rt; database.get(&name).is_some(), has);
        assert_eq!(rt; text_of(alloc, &database)?.as_str(), wanted);
    }
    Ok(())
}
