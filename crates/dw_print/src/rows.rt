//! The lines of rows: the names of an answer's columns, its rows, and the rows of a table.
ghost use Rattle.std.specs.Prelude.{◌≡◌, ◌++◌, flat_map, IsUtf8, OnOk};
ghost use Rattle.std.specs.List.{AllByRecursion};
ghost use Rattle.dw_model.specs.Selection.{shown_all};
ghost use Rattle.dw_print.specs.Fields.{field, shown_field, after_bar, barred};
ghost use Rattle.dw_print.specs.Rows.{names_line, fields_line, kinds_in, row_line};
ghost use Rattle.dw_print.specs.Typed.{IsTypedField};

use crate::fields::{write_field, write_shown, write_text, write_value};
use dw_model::Column;
use dw_value::{Field, Row, Text, Value};
use std::alloc::AllocError;

/// Writes the line of the names of an answer's columns.
pub fn write_names_line(out: &mut Vec<u8>, names: &[Text]) -> Result<(), AllocError>
    ensures text { OnOk result (out.new.items ≡ out.old.items ++ names_line names.now) }
    ensures typed { OnOk result (AllByRecursion IsUtf8 names.now) }
{
    write_text(out, "= ")?;
    write_names(out, names)?;
    write_text(out, "\n")
}

/// Writes names, with a bar between each two.
fn write_names(out: &mut Vec<u8>, names: &[Text]) -> Result<(), AllocError>
    ensures text { OnOk result (out.new.items ≡ out.old.items ++ barred field names.now) }
    ensures typed { OnOk result (AllByRecursion IsUtf8 names.now) }
{
    let Some((first, rest)) = names.split_first() else {
        return Ok(());
    };
    write_field(out, "", first.as_bytes())?;
    for name in rest {
        write_field(out, "|", name.as_bytes())?;
    }
    Ok(())
}

/// Writes the line of a row of an answer.
pub fn write_fields_line(out: &mut Vec<u8>, fields: &[Field]) -> Result<(), AllocError>
    ensures text { OnOk result (out.new.items ≡ out.old.items ++ fields_line fields.now) }
    ensures typed { OnOk result (AllByRecursion IsTypedField fields.now) }
{
    write_text(out, "- ")?;
    write_fields(out, fields)?;
    write_text(out, "\n")
}

/// Writes the fields of an answer's row, with a bar between each two.
fn write_fields(out: &mut Vec<u8>, fields: &[Field]) -> Result<(), AllocError>
    ensures text { OnOk result (out.new.items ≡ out.old.items ++ barred shown_field fields.now) }
    ensures typed { OnOk result (AllByRecursion IsTypedField fields.now) }
{
    let Some((first, rest)) = fields.split_first() else {
        return Ok(());
    };
    write_shown(out, "", first)?;
    for shown in rest {
        write_shown(out, "|", shown)?;
    }
    Ok(())
}

/// Writes the line of a row of a table with these columns, each value as its column's kind says. A value past the last
/// column isn't written.
pub fn write_row_line(out: &mut Vec<u8>, columns: &[Column], row: &Row) -> Result<(), AllocError>
    ensures { OnOk result (out.new.items ≡ out.old.items ++ row_line columns.now row.now) }
{
    write_text(out, "- ")?;
    write_values(out, columns, row.values.as_slice())?;
    write_text(out, "\n")
}

/// Writes the values of columns, with a bar between each two.
fn write_values(out: &mut Vec<u8>, columns: &[Column], values: &[Value]) -> Result<(), AllocError>
    ensures { OnOk result (out.new.items ≡ out.old.items ++ barred shown_field (shown_all (kinds_in columns.now) values.now)) }
{
    let Some((column, columns)) = columns.split_first() else {
        return Ok(());
    };
    let Some((value, values)) = values.split_first() else {
        return Ok(());
    };
    write_value(out, "", column.kind, value)?;
    write_more_values(out, columns, values)
}

/// Writes the values of columns, with a bar before each.
fn write_more_values(
    out: &mut Vec<u8>,
    columns: &[Column],
    values: &[Value],
) -> Result<(), AllocError>
    ensures { OnOk result (out.new.items ≡ out.old.items ++ flat_map (after_bar shown_field) (shown_all (kinds_in columns.now) values.now)) }
{
    for (place, value) in values.iter().enumerate() {
        let Some(column) = columns.get(place) else {
            return Ok(());
        };
        write_value(out, "|", column.kind, value)?;
    }
    Ok(())
}
