//! The whole report: the line of the shape, the events, the tables, and the serial order.
ghost use Rattle.std.specs.Prelude.{◌≡◌, ◌++◌, OnOk, IfOk};
ghost use Rattle.dw_print.specs.Report.{header, serial_line, report_of};
ghost use Rattle.dw_print.specs.Typed.{IsOfTypes, IsTypedShape};

use crate::events::write_events;
use crate::fields::{write_number, write_text};
use crate::tables::write_tables;
use dw_journal::{Journal, Shape};
use dw_model::Database;
use dw_value::List;
use std::alloc::{AllocError, Global};

/// The report of a journal, as text: a line for the shape, the lines of the events, numbered from 1, the tables of
/// `database`, and the line of the stamps in `serial`, each line ended by a line feed. It is the report of the journal
/// where `database` is the committed one after the last event and `serial` has the stamps of the committed transactions
/// in serial order. In names and values a backslash, a bar, a line feed and a carriage return stand as `\\`, `\|`, `\n`
/// and `\r`, so none of them ends a line or a field, and NULL stands as `\N`, which no value does.
///
/// The only error is want of memory. The form of the lines is this project's own.
pub fn report_text(
    alloc: Global,
    journal: &Journal,
    database: &Database,
    serial: &List<u64>,
) -> Result<List<u8>, AllocError>
    ensures text { IfOk result (λ bytes. bytes ≡ report_of journal.now database.now serial.now) }
    ensures typed { IfOk result (λ bytes. IsOfTypes journal.now) }
{
    let mut out = Vec::new(alloc);
    write_header(&mut out, &journal.shape)?;
    write_events(&mut out, journal.events.as_slice())?;
    write_tables(&mut out, database)?;
    write_serial(&mut out, serial.as_slice())?;
    Ok(List::from_vec(out))
}

/// Writes the first line, the shape of the warehouse.
fn write_header(out: &mut Vec<u8>, shape: &Shape) -> Result<(), AllocError>
    ensures text { OnOk result (out.new.items ≡ out.old.items ++ header shape.now) }
    ensures typed { OnOk result (IsTypedShape shape.now) }
{
    let Shape {
        nodes,
        slices,
        clusters,
        slots,
        sessions,
    } = *shape;
    write_number(out, "warehouse nodes ", nodes)?;
    write_number(out, " slices ", slices)?;
    write_number(out, " clusters ", clusters)?;
    write_number(out, " slots ", slots)?;
    write_number(out, " sessions ", sessions)?;
    write_text(out, "\n")?;
    Ok(())
}

/// Writes the serial order of the committed transactions, given as their stamps.
pub(crate) fn write_serial(out: &mut Vec<u8>, stamps: &[u64]) -> Result<(), AllocError>
    ensures { OnOk result (out.new.items ≡ out.old.items ++ serial_line stamps.now) }
{
    write_text(out, "serial")?;
    for place in 0..stamps.len() {
        write_number(out, " ", stamps[place])?;
    }
    write_text(out, "\n")
}
