//! The journal of a report as it is read.
ghost use Rattle.std.specs.Prelude.{◌≡◌, ◌-◌, ◌+◌, length, take, IfOk};
ghost use Rattle.dw_read_report.specs.Reading.{Gives, after, names_at, number_at, row_at};
ghost use Rattle.dw_read_report.specs.EventReading.{head_at};
ghost use Rattle.dw_read_report.specs.ReportReading.{GivesLines, all_events_at, ends_journal, event_after, event_at, fault_at};
ghost use Rattle.dw_read_report.specs.ReportReading.{GivesReport, IsPrintedIn};
ghost use Rattle.dw_read_report.specs.ReportReading.{journal_at, line_feeds, lined, rows_at, shape_at};

use crate::faults::{LineFault, PartFault, ReportFault};
use crate::read_events::{Head, read_head};
use crate::read_fields::{read_names, read_row};
use crate::read_parts::{after_label, read_label, read_number};
use dw_journal::{Event, Journal, Shape};
use dw_model::{Answer, Word};
use dw_value::{Field, List, Text};
use std::alloc::Global;

/// A report that was read up to the end of its journal.
#[derive(Debug, Drop)]
pub struct ReadReport {
    /// The journal.
    pub journal: Journal,
    /// The number of the first line after it, from 1.
    pub line: u64,
    /// Where that line begins: so many bytes come before it. What stands there, if anything, begins with `tables`.
    pub place: usize,
}

/// The fault of a line that begins so many bytes before the end.
fn fault_at(fault: LineFault, left: usize) -> PartFault
    ensures { result ≡ fault_at fault left }
{
    match fault {
        LineFault::Bad => PartFault::Bad { left },
        LineFault::Memory => PartFault::Memory,
    }
}

/// The line of a row of an answer.
fn row_line(alloc: Global, bytes: &[u8]) -> Result<(List<Field>, &[u8]), PartFault>
    ensures { GivesLines (λ x. (x.0, x.1.now)) result (lined row_at bytes.now) }
{
    match read_row(alloc, bytes) {
        Ok(read) => Ok(read),
        Err(fault) => Err(fault_at(fault, bytes.len())),
    }
}

/// The line of the names of an answer's columns.
fn names_line(alloc: Global, bytes: &[u8]) -> Result<(List<Text>, &[u8]), PartFault>
    ensures { GivesLines (λ x. (x.0, x.1.now)) result (lined names_at bytes.now) }
{
    match read_names(alloc, bytes) {
        Ok(read) => Ok(read),
        Err(fault) => Err(fault_at(fault, bytes.len())),
    }
}

/// The first line of the event of this number.
fn head_line(alloc: Global, number: u64, bytes: &[u8]) -> Result<(Head, &[u8]), PartFault>
    ensures { GivesLines (λ x. (x.0, x.1.now)) result (lined (head_at number) bytes.now) }
{
    match read_head(alloc, number, bytes) {
        Ok(read) => Ok(read),
        Err(fault) => Err(fault_at(fault, bytes.len())),
    }
}

/// A number from `least` to `most`, after a label.
fn read_limited<'a>(
    bytes: &'a [u8],
    label: &str,
    least: u32,
    most: u32,
) -> Result<(u32, &'a [u8]), LineFault>
    ensures { Gives (λ x. (x.0, x.1.now)) result (after label.now (number_at least most) bytes.now) }
{
    let rest = read_label(bytes, label)?;
    let (value, rest) = read_number(rest, u64::from(least), u64::from(most))?;
    Ok((value as u32, rest))
}

/// The shape of the warehouse.
#[tactic(auto, unfolding(crate::specs::ReportReading::shape_at))]
fn read_shape(bytes: &[u8]) -> Result<(Shape, &[u8]), LineFault>
    ensures { Gives (λ x. (x.0, x.1.now)) result (shape_at bytes.now) }
{
    let (nodes, rest) = read_limited(bytes, "warehouse nodes ", 1, 16)?;
    let (slices, rest) = read_limited(rest, " slices ", 1, 16)?;
    let (clusters, rest) = read_limited(rest, " clusters ", 0, 9)?;
    let (slots, rest) = read_limited(rest, " slots ", 1, 50)?;
    let (sessions, rest) = read_limited(rest, " sessions ", 1, 64)?;
    let rest = read_label(rest, "\n")?;
    let shape = Shape {
        nodes,
        slices,
        clusters,
        slots,
        sessions,
    };
    Ok((shape, rest))
}

/// The first line: the shape of the warehouse.
fn shape_line(bytes: &[u8]) -> Result<(Shape, &[u8]), PartFault>
    ensures { GivesLines (λ x. (x.0, x.1.now)) result (lined shape_at bytes.now) }
{
    match read_shape(bytes) {
        Ok(read) => Ok(read),
        Err(fault) => Err(fault_at(fault, bytes.len())),
    }
}

/// So many rows of an answer, a line each.
fn read_rows(
    alloc: Global,
    count: u64,
    bytes: &[u8],
) -> Result<(List<List<Field>>, &[u8]), PartFault>
    ensures { GivesLines (λ x. (x.0, x.1.now)) result (rows_at count bytes.now) }
{
    let mut rows = List::new(alloc);
    let mut rest = bytes;
    for _ in 0..count {
        let (row, next) = row_line(alloc, rest)?;
        rows.push(row)?;
        rest = next;
    }
    Ok((rows, rest))
}

/// The event that begins with this line.
fn read_event_after(alloc: Global, head: Head, bytes: &[u8]) -> Result<(Event, &[u8]), PartFault>
    ensures { GivesLines (λ x. (x.0, x.1.now)) result (event_after head bytes.now) }
{
    match head {
        Head::Whole(event) => Ok((event, bytes)),
        Head::WithRows {
            session,
            statement,
            count,
        } => {
            let (names, rest) = names_line(alloc, bytes)?;
            let (rows, rest) = read_rows(alloc, count, rest)?;
            let word = Word::Select;
            let answer = Answer::Rows { word, names, rows };
            let event = Event::Answer {
                session,
                statement,
                answer,
            };
            Ok((event, rest))
        }
    }
}

/// The event of this number.
#[tactic(auto, unfolding(crate::specs::ReportReading::event_at))]
fn read_event(alloc: Global, number: u64, bytes: &[u8]) -> Result<(Event, &[u8]), PartFault>
    ensures { GivesLines (λ x. (x.0, x.1.now)) result (event_at number bytes.now) }
{
    let (head, rest) = head_line(alloc, number, bytes)?;
    read_event_after(alloc, head, rest)
}

/// Whether the journal ends before these bytes: they are none, or begin with `tables`.
fn ends_journal(bytes: &[u8]) -> bool
    ensures { result ≡ ends_journal bytes.now }
{
    bytes.is_empty() || after_label(bytes, "tables").is_some()
}

/// All events, numbered from 1.
#[tactic(auto, unfolding(crate::specs::ReportReading::all_events_at))]
fn read_all_events(alloc: Global, bytes: &[u8]) -> Result<(List<Event>, &[u8]), PartFault>
    ensures { GivesLines (λ x. (x.0, x.1.now)) result (all_events_at bytes.now) }
{
    let mut events = List::new(alloc);
    let mut rest = bytes;
    for index in 0..bytes.len() {
        if ends_journal(rest) {
            return Ok((events, rest));
        }
        let (event, next) = read_event(alloc, index as u64 + 1, rest)?;
        events.push(event)?;
        rest = next;
    }
    Ok((events, rest))
}

/// The journal of a report.
#[tactic(auto, unfolding(crate::specs::ReportReading::journal_at))]
fn read_journal(alloc: Global, bytes: &[u8]) -> Result<(Journal, &[u8]), PartFault>
    ensures { GivesLines (λ x. (x.0, x.1.now)) result (journal_at bytes.now) }
{
    let (shape, rest) = shape_line(bytes)?;
    let (events, rest) = read_all_events(alloc, rest)?;
    Ok((Journal { shape, events }, rest))
}

/// The number of the line that begins after these bytes.
fn line_after(bytes: &[u8]) -> u64
    ensures { result ≡ 1 + line_feeds bytes.now }
{
    let mut line = 1u64;
    for byte in bytes {
        if *byte == b'\n' {
            line += 1;
        }
    }
    line
}

/// Reads the journal of a report: its first line, the shape of the warehouse, and its events, numbered from 1, up to the
/// first line that stands where an event may stand and begins with `tables`, or to the end of the bytes.
///
/// The lines are exactly those that `report_text` writes, each with its line feed: numbers are plain decimals without
/// signs and without zeros in front, and fit their types; those of the first line are within their limits, 1 to 16 nodes,
/// 1 to 16 slices of each, 0 to 9 clusters, 1 to 50 slots and 1 to 64 sessions; texts are in UTF-8; an answer with rows
/// has a name at least, each of its rows a field at least, and as many rows as its first line says. The names and the
/// fields may differ in number.
///
/// `Bad` comes for the first line that isn't so, also where it is wanting; `Memory` where memory ran out. The time is
/// linear in the bytes. The form of the lines is this project's own.
pub fn read_report(alloc: Global, bytes: &[u8]) -> Result<ReadReport, ReportFault>
    ensures found { IfOk result (λ read. IsPrintedIn bytes.now read) }
    ensures exact { GivesReport result bytes.now (journal_at bytes.now) }
{
    read_up_to_end(alloc, bytes)
}

/// The journal, with the place and the number of the line after it, or the number of the first bad line.
fn read_up_to_end(alloc: Global, bytes: &[u8]) -> Result<ReadReport, ReportFault>
    ensures exact { GivesReport result bytes.now (journal_at bytes.now) }
{
    match read_journal(alloc, bytes) {
        Ok((journal, rest)) => {
            let place = bytes.len().saturating_sub(rest.len());
            let line = line_after(&bytes[..place]);
            Ok(ReadReport {
                journal,
                line,
                place,
            })
        }
        Err(PartFault::Bad { left }) => {
            let place = bytes.len().saturating_sub(left);
            let line = line_after(&bytes[..place]);
            Err(ReportFault::Bad { line })
        }
        Err(PartFault::Memory) => Err(ReportFault::Memory),
    }
}
