//! The lines of a journal's events: one function a kind of event.
ghost use Rattle.std.specs.Prelude.{◌≡◌, ◌++◌, length, OnOk};
ghost use Rattle.std.specs.List.{AllByRecursion};
ghost use Rattle.dw_print.specs.Events.{start, bare_line, pass_line, wait_line, route_text, open_line, answer_lines, commit_line};
ghost use Rattle.dw_print.specs.Events.{object_text, violation_line, refuse_line, sweep_line, slice_line, sweep_end_line};
ghost use Rattle.dw_print.specs.Events.{refresh_line, end_line, event_lines, journal_lines};
ghost use Rattle.dw_print.specs.Typed.{IsLong, IsShort, IsTypedEvent, IsTypedObject, IsTypedRoute};

use crate::answers::{write_answer, write_word};
use crate::fields::{write_field, write_number, write_refusal, write_sessions, write_text};
use dw_journal::{Event, Route};
use dw_model::{Answer, Object, Refusal, Word};
use dw_value::Text;
use std::alloc::AllocError;

/// Writes what stands first in a line of a session's statement: the event's number, `kind` as it is, and the statement.
fn write_start(
    out: &mut Vec<u8>,
    number: u64,
    kind: &str,
    session: u32,
    statement: u32,
) -> Result<(), AllocError>
    ensures { OnOk result (out.new.items ≡ out.old.items ++ start number kind.now session statement) }
{
    write_number(out, "", number)?;
    write_number(out, kind, session)?;
    write_number(out, " ", statement)
}

/// Writes an event of a kind that has nothing more to say.
fn write_bare(
    out: &mut Vec<u8>,
    number: u64,
    kind: &str,
    session: u32,
    statement: u32,
) -> Result<(), AllocError>
    ensures text { OnOk result (out.new.items ≡ out.old.items ++ bare_line number kind.now session statement) }
    ensures typed { OnOk result (IsShort session × IsShort statement) }
{
    write_start(out, number, kind, session, statement)?;
    write_text(out, "\n")
}

/// Writes that a session's statement has nothing to do.
fn write_pass(
    out: &mut Vec<u8>,
    number: u64,
    session: u32,
    statement: u32,
    word: Word,
) -> Result<(), AllocError>
    ensures text { OnOk result (out.new.items ≡ out.old.items ++ pass_line number session statement word) }
    ensures typed { OnOk result (IsTypedEvent (Event.Pass session statement word)) }
{
    write_start(out, number, " pass ", session, statement)?;
    write_text(out, " ")?;
    write_word(out, word)?;
    write_text(out, "\n")
}

/// Writes that a session's statement waits for these sessions.
fn write_wait(
    out: &mut Vec<u8>,
    number: u64,
    session: u32,
    statement: u32,
    holders: &[u32],
) -> Result<(), AllocError>
    ensures text { OnOk result (out.new.items ≡ out.old.items ++ wait_line number session statement holders.now) }
    ensures typed { OnOk result (IsTypedEvent (Event.Wait session statement holders.now)) }
{
    write_start(out, number, " wait ", session, statement)?;
    write_text(out, " for")?;
    write_sessions(out, holders)?;
    write_text(out, "\n")
}

/// Writes where a statement is worked on.
fn write_route(out: &mut Vec<u8>, route: Route) -> Result<(), AllocError>
    ensures text { OnOk result (out.new.items ≡ out.old.items ++ route_text route) }
    ensures typed { OnOk result (IsTypedRoute route) }
{
    match route {
        Route::Main => write_text(out, "main"),
        Route::Cluster(cluster) => write_number(out, "cluster ", cluster),
    }
}

/// Writes that a session's statement is opened.
fn write_open(
    out: &mut Vec<u8>,
    number: u64,
    session: u32,
    statement: u32,
    snapshot: u64,
    route: Route,
) -> Result<(), AllocError>
    ensures text { OnOk result (out.new.items ≡ out.old.items ++ open_line number session statement snapshot route) }
    ensures typed { OnOk result (IsTypedEvent (Event.Opened session statement snapshot route)) }
{
    write_start(out, number, " open ", session, statement)?;
    write_number(out, " snapshot ", snapshot)?;
    write_text(out, " ")?;
    write_route(out, route)?;
    write_text(out, "\n")
}

/// Writes that a session's statement is answered, with the answer.
fn write_reply(
    out: &mut Vec<u8>,
    number: u64,
    session: u32,
    statement: u32,
    answer: &Answer,
) -> Result<(), AllocError>
    ensures text { OnOk result (out.new.items ≡ out.old.items ++ answer_lines number session statement answer.now) }
    ensures typed { OnOk result (IsTypedEvent (Event.Answer session statement answer.now)) }
{
    write_start(out, number, " answer ", session, statement)?;
    write_text(out, " ")?;
    write_answer(out, answer)
}

/// Writes that a session's transaction is committed, with its stamp and its watermarks.
fn write_commit(
    out: &mut Vec<u8>,
    number: u64,
    session: u32,
    statement: u32,
    stamp: u64,
    low: u64,
    high: u64,
) -> Result<(), AllocError>
    ensures text { OnOk result (out.new.items ≡ out.old.items ++ commit_line number session statement stamp low high) }
    ensures typed { OnOk result (IsTypedEvent (Event.Commit session statement stamp low high)) }
{
    write_start(out, number, " commit ", session, statement)?;
    write_number(out, " stamp ", stamp)?;
    write_number(out, " low ", low)?;
    write_number(out, " high ", high)?;
    write_text(out, "\n")
}

/// Writes an object of a table.
fn write_object(out: &mut Vec<u8>, object: &Object) -> Result<(), AllocError>
    ensures text { OnOk result (out.new.items ≡ out.old.items ++ object_text object.now) }
    ensures typed { OnOk result (IsTypedObject object.now) }
{
    match object {
        Object::Def(name) => write_field(out, "def(", name.as_bytes())?,
        Object::Rows(name) => write_field(out, "rows(", name.as_bytes())?,
    }
    write_text(out, ")")
}

/// Writes that a session's transaction can't be committed, with its watermarks and the object that it names.
fn write_violation(
    out: &mut Vec<u8>,
    number: u64,
    session: u32,
    statement: u32,
    low: u64,
    high: u64,
    object: &Object,
) -> Result<(), AllocError>
    ensures text { OnOk result (out.new.items ≡ out.old.items ++ violation_line number session statement low high object.now) }
    ensures typed { OnOk result (IsTypedEvent (Event.Violation session statement low high object.now)) }
{
    write_start(out, number, " violation ", session, statement)?;
    write_number(out, " low ", low)?;
    write_number(out, " high ", high)?;
    write_text(out, " ")?;
    write_object(out, object)?;
    write_text(out, "\n")
}

/// Writes that a session's statement is refused.
fn write_refuse(
    out: &mut Vec<u8>,
    number: u64,
    session: u32,
    statement: u32,
    refusal: &Refusal,
) -> Result<(), AllocError>
    ensures text { OnOk result (out.new.items ≡ out.old.items ++ refuse_line number session statement refusal.now) }
    ensures typed { OnOk result (IsTypedEvent (Event.Refuse session statement refusal.now)) }
{
    write_start(out, number, " refuse ", session, statement)?;
    write_number(out, " ", refusal.number())?;
    write_text(out, " ")?;
    write_refusal(out, refusal)?;
    write_text(out, "\n")
}

/// Writes that a session's vacuum of a table begins.
fn write_sweep(
    out: &mut Vec<u8>,
    number: u64,
    session: u32,
    statement: u32,
    table: &Text,
) -> Result<(), AllocError>
    ensures text { OnOk result (out.new.items ≡ out.old.items ++ sweep_line number session statement table.now) }
    ensures typed { OnOk result (IsTypedEvent (Event.VacuumBegin session statement table.now)) }
{
    write_start(out, number, " vacuum ", session, statement)?;
    write_field(out, " begin ", table.as_bytes())?;
    write_text(out, "\n")
}

/// Writes that a session's vacuum has rebuilt a slice.
fn write_slice(
    out: &mut Vec<u8>,
    number: u64,
    session: u32,
    statement: u32,
    slice: u32,
    horizon: u64,
) -> Result<(), AllocError>
    ensures text { OnOk result (out.new.items ≡ out.old.items ++ slice_line number session statement slice horizon) }
    ensures typed { OnOk result (IsTypedEvent (Event.VacuumSlice session statement slice horizon)) }
{
    write_start(out, number, " vacuum ", session, statement)?;
    write_number(out, " slice ", slice)?;
    write_number(out, " horizon ", horizon)?;
    write_text(out, "\n")
}

/// Writes that a session's vacuum has rebuilt all slices.
fn write_sweep_end(
    out: &mut Vec<u8>,
    number: u64,
    session: u32,
    statement: u32,
) -> Result<(), AllocError>
    ensures text { OnOk result (out.new.items ≡ out.old.items ++ sweep_end_line number session statement) }
    ensures typed { OnOk result (IsTypedEvent (Event.VacuumEnd session statement)) }
{
    write_start(out, number, " vacuum ", session, statement)?;
    write_text(out, " end\n")
}

/// Writes that a cluster is refreshed.
fn write_refresh(out: &mut Vec<u8>, number: u64, cluster: u32, stamp: u64) -> Result<(), AllocError>
    ensures text { OnOk result (out.new.items ≡ out.old.items ++ refresh_line number cluster stamp) }
    ensures typed { OnOk result (IsTypedEvent (Event.Refresh cluster stamp)) }
{
    write_number(out, "", number)?;
    write_number(out, " refresh ", cluster)?;
    write_number(out, " stamp ", stamp)?;
    write_text(out, "\n")
}

/// Writes that a session's script is at its end.
fn write_end(out: &mut Vec<u8>, number: u64, session: u32) -> Result<(), AllocError>
    ensures text { OnOk result (out.new.items ≡ out.old.items ++ end_line number session) }
    ensures typed { OnOk result (IsTypedEvent (Event.End session)) }
{
    write_number(out, "", number)?;
    write_number(out, " end ", session)?;
    write_text(out, "\n")
}

/// Writes the event of this number.
fn write_event(out: &mut Vec<u8>, number: u64, event: &Event) -> Result<(), AllocError>
    ensures text { OnOk result (out.new.items ≡ out.old.items ++ event_lines number event.now) }
    ensures typed { OnOk result (IsTypedEvent event.now) }
{
    match event {
        Event::Begin { session, statement } => {
            write_bare(out, number, " begin ", *session, *statement)
        }
        Event::Pass {
            session,
            statement,
            word,
        } => write_pass(out, number, *session, *statement, *word),
        Event::Wait {
            session,
            statement,
            holders,
        } => write_wait(out, number, *session, *statement, holders.as_slice()),
        Event::Opened {
            session,
            statement,
            snapshot,
            route,
        } => write_open(out, number, *session, *statement, *snapshot, *route),
        Event::Answer {
            session,
            statement,
            answer,
        } => write_reply(out, number, *session, *statement, answer),
        Event::Commit {
            session,
            statement,
            stamp,
            low,
            high,
        } => write_commit(out, number, *session, *statement, *stamp, *low, *high),
        Event::Violation {
            session,
            statement,
            low,
            high,
            object,
        } => write_violation(out, number, *session, *statement, *low, *high, object),
        Event::Refuse {
            session,
            statement,
            refusal,
        } => write_refuse(out, number, *session, *statement, refusal),
        Event::Rollback { session, statement } => {
            write_bare(out, number, " rollback ", *session, *statement)
        }
        Event::VacuumBegin {
            session,
            statement,
            table,
        } => write_sweep(out, number, *session, *statement, table),
        Event::VacuumSlice {
            session,
            statement,
            slice,
            horizon,
        } => write_slice(out, number, *session, *statement, *slice, *horizon),
        Event::VacuumEnd { session, statement } => {
            write_sweep_end(out, number, *session, *statement)
        }
        Event::Refresh { cluster, stamp } => write_refresh(out, number, *cluster, *stamp),
        Event::End { session } => write_end(out, number, *session),
    }
}

/// Writes the events of a journal, the oldest first, which are numbered from 1.
pub fn write_events(out: &mut Vec<u8>, events: &[Event]) -> Result<(), AllocError>
    ensures text { OnOk result (out.new.items ≡ out.old.items ++ journal_lines 1 events.now) }
    ensures typed { OnOk result (AllByRecursion IsTypedEvent events.now) }
    ensures numbers { IsLong (length events.now) }
{
    for (index, event) in events.iter().enumerate() {
        write_event(out, index as u64 + 1, event)?;
    }
    Ok(())
}
