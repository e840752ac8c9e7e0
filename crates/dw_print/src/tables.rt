//! The tables of a database.
ghost use Rattle.std.specs.Prelude.{◌≡◌, ◌++◌, flat_map, OnOk};
ghost use Rattle.dw_model.specs.Entries.{pairs_of};
ghost use Rattle.dw_print.specs.Rows.{row_line};
ghost use Rattle.dw_print.specs.Tables.{table_lines, named_lines, tables_lines};

use crate::fields::{write_field, write_number, write_text};
use crate::rows::write_row_line;
use dw_model::{Column, Database, Entry, Table};
use dw_value::{Row, Text};
use std::alloc::AllocError;

/// Writes how many tables there are, and each of them, in byte order of names.
pub fn write_tables(out: &mut Vec<u8>, database: &Database) -> Result<(), AllocError>
    ensures { OnOk result (out.new.items ≡ out.old.items ++ tables_lines database.now) }
{
    write_number(out, "tables ", database.len())?;
    write_text(out, "\n")?;
    write_entries(out, database.as_slice())
}

/// Writes each of these tables.
fn write_entries(out: &mut Vec<u8>, entries: &[Entry]) -> Result<(), AllocError>
    ensures { OnOk result (out.new.items ≡ out.old.items ++ flat_map named_lines (pairs_of entries.now)) }
{
    for entry in entries {
        write_table(out, &*entry.name, &*entry.table)?;
    }
    Ok(())
}

/// Writes a table: its name, how many rows it has, and the rows.
fn write_table(out: &mut Vec<u8>, name: &Text, table: &Table) -> Result<(), AllocError>
    ensures { OnOk result (out.new.items ≡ out.old.items ++ table_lines name.now table.now) }
{
    write_field(out, "table ", name.as_bytes())?;
    write_number(out, " rows ", table.rows.len())?;
    write_text(out, "\n")?;
    write_rows(out, table.def.columns.as_slice(), table.rows.as_slice())
}

/// Writes the rows of a table with these columns, each as a line.
fn write_rows(out: &mut Vec<u8>, columns: &[Column], rows: &[Row]) -> Result<(), AllocError>
    ensures { OnOk result (out.new.items ≡ out.old.items ++ flat_map (row_line columns.now) rows.now) }
{
    for row in rows {
        write_row_line(out, columns, row)?;
    }
    Ok(())
}
