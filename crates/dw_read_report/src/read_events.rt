//! The lines of a journal's events as they are read.
ghost use Rattle.std.specs.Prelude.{◌≡◌};
ghost use Rattle.dw_read_report.specs.Reading.{Gives};
ghost use Rattle.dw_read_report.specs.EventReading.{answer_after, answer_at, answer_word_at, begin_at, commit_at, end_at};
ghost use Rattle.dw_read_report.specs.EventReading.{head_after, head_at, kind_at, open_at, pass_at, pass_word_at, rarer_kind_at};
ghost use Rattle.dw_read_report.specs.EventReading.{refresh_at, refuse_at, rollback_at, route_at, step_at, vacuum_after, vacuum_at};
ghost use Rattle.dw_read_report.specs.EventReading.{violation_at, wait_at};

use crate::faults::LineFault;
use crate::read_fields::{read_sessions, read_text};
use crate::read_parts::{
    after_label, read_label, read_long, read_long_after, read_number, read_short, read_short_after,
    read_statement,
};
use crate::read_refusals::{read_object, read_refusal};
use dw_journal::{Event, Route};
use dw_model::{Answer, Word};
use std::alloc::Global;

/// What stands second in a line: the kind of its event.
#[derive(Clone, Copy, Debug)]
pub enum Kind {
    /// `begin`: a block begins.
    Begin,
    /// `pass`: a statement has nothing to do.
    Pass,
    /// `wait`: a statement waits for sessions.
    Wait,
    /// `open`: a statement is opened.
    Open,
    /// `answer`: a statement is answered.
    Answer,
    /// `commit`: a transaction is committed.
    Commit,
    /// `violation`: a transaction can't be committed.
    Violation,
    /// `refuse`: a statement is refused.
    Refuse,
    /// `rollback`: a block ends without a trace.
    Rollback,
    /// `vacuum`: a vacuum begins, has rebuilt a slice, or ends.
    Vacuum,
    /// `refresh`: a cluster is refreshed.
    Refresh,
    /// `end`: a session's script is at its end.
    End,
}

/// What a line of a vacuum says.
#[derive(Clone, Copy, Debug)]
pub enum Step {
    /// `begin`: it begins with this table.
    Begin,
    /// `slice`: a slice is rebuilt.
    Slice,
    /// `end`: all slices are rebuilt.
    End,
}

/// The first line of an event.
#[derive(Debug, Drop)]
pub enum Head {
    /// It is the whole event.
    Whole(Event),
    /// It is of an answer, of which the line of the names and so many rows follow.
    WithRows {
        session: u32,
        statement: u32,
        count: u64,
    },
}

/// The kind of an event, with the spaces around it.
#[tactic(auto, unfolding(crate::specs::EventReading::kind_at))]
fn read_kind(bytes: &[u8]) -> Result<(Kind, &[u8]), LineFault>
    ensures { Gives (λ x. (x.0, x.1.now)) result (kind_at bytes.now) }
{
    if let Some(rest) = after_label(bytes, " begin ") {
        return Ok((Kind::Begin, rest));
    }
    if let Some(rest) = after_label(bytes, " pass ") {
        return Ok((Kind::Pass, rest));
    }
    if let Some(rest) = after_label(bytes, " wait ") {
        return Ok((Kind::Wait, rest));
    }
    if let Some(rest) = after_label(bytes, " open ") {
        return Ok((Kind::Open, rest));
    }
    if let Some(rest) = after_label(bytes, " answer ") {
        return Ok((Kind::Answer, rest));
    }
    if let Some(rest) = after_label(bytes, " commit ") {
        return Ok((Kind::Commit, rest));
    }
    read_rarer_kind(bytes)
}

/// The kinds that are rarer.
#[tactic(auto, unfolding(crate::specs::EventReading::rarer_kind_at))]
fn read_rarer_kind(bytes: &[u8]) -> Result<(Kind, &[u8]), LineFault>
    ensures { Gives (λ x. (x.0, x.1.now)) result (rarer_kind_at bytes.now) }
{
    if let Some(rest) = after_label(bytes, " violation ") {
        return Ok((Kind::Violation, rest));
    }
    if let Some(rest) = after_label(bytes, " refuse ") {
        return Ok((Kind::Refuse, rest));
    }
    if let Some(rest) = after_label(bytes, " rollback ") {
        return Ok((Kind::Rollback, rest));
    }
    if let Some(rest) = after_label(bytes, " vacuum ") {
        return Ok((Kind::Vacuum, rest));
    }
    if let Some(rest) = after_label(bytes, " refresh ") {
        return Ok((Kind::Refresh, rest));
    }
    if let Some(rest) = after_label(bytes, " end ") {
        return Ok((Kind::End, rest));
    }
    Err(LineFault::Bad)
}

/// The words of a statement that may have nothing to do.
#[tactic(auto, unfolding(crate::specs::EventReading::pass_word_at))]
fn read_pass_word(bytes: &[u8]) -> Result<(Word, &[u8]), LineFault>
    ensures { Gives (λ x. (x.0, x.1.now)) result (pass_word_at bytes.now) }
{
    if let Some(rest) = after_label(bytes, "BEGIN") {
        return Ok((Word::Begin, rest));
    }
    if let Some(rest) = after_label(bytes, "COMMIT") {
        return Ok((Word::Commit, rest));
    }
    let rest = read_label(bytes, "ROLLBACK")?;
    Ok((Word::Rollback, rest))
}

/// Where a statement is worked on.
#[tactic(auto, unfolding(crate::specs::EventReading::route_at))]
fn read_route(bytes: &[u8]) -> Result<(Route, &[u8]), LineFault>
    ensures { Gives (λ x. (x.0, x.1.now)) result (route_at bytes.now) }
{
    if let Some(rest) = after_label(bytes, "main") {
        return Ok((Route::Main, rest));
    }
    let (cluster, rest) = read_short_after(bytes, "cluster ")?;
    Ok((Route::Cluster(cluster), rest))
}

/// The rest of a line that says that a block begins.
#[tactic(auto, unfolding(crate::specs::EventReading::begin_at))]
fn read_begin(bytes: &[u8]) -> Result<(Event, &[u8]), LineFault>
    ensures { Gives (λ x. (x.0, x.1.now)) result (begin_at bytes.now) }
{
    let ((session, statement), rest) = read_statement(bytes)?;
    let rest = read_label(rest, "\n")?;
    Ok((Event::Begin { session, statement }, rest))
}

/// The rest of a line that says that a statement has nothing to do.
#[tactic(auto, unfolding(crate::specs::EventReading::pass_at))]
fn read_pass(bytes: &[u8]) -> Result<(Event, &[u8]), LineFault>
    ensures { Gives (λ x. (x.0, x.1.now)) result (pass_at bytes.now) }
{
    let ((session, statement), rest) = read_statement(bytes)?;
    let rest = read_label(rest, " ")?;
    let (word, rest) = read_pass_word(rest)?;
    let rest = read_label(rest, "\n")?;
    Ok((
        Event::Pass {
            session,
            statement,
            word,
        },
        rest,
    ))
}

/// The rest of a line that says that a statement waits.
#[tactic(auto, unfolding(crate::specs::EventReading::wait_at))]
fn read_wait(alloc: Global, bytes: &[u8]) -> Result<(Event, &[u8]), LineFault>
    ensures { Gives (λ x. (x.0, x.1.now)) result (wait_at bytes.now) }
{
    let ((session, statement), rest) = read_statement(bytes)?;
    let rest = read_label(rest, " for")?;
    let (holders, rest) = read_sessions(alloc, rest)?;
    let rest = read_label(rest, "\n")?;
    Ok((
        Event::Wait {
            session,
            statement,
            holders,
        },
        rest,
    ))
}

/// The rest of a line that says that a statement is opened.
#[tactic(auto, unfolding(crate::specs::EventReading::open_at))]
fn read_open(bytes: &[u8]) -> Result<(Event, &[u8]), LineFault>
    ensures { Gives (λ x. (x.0, x.1.now)) result (open_at bytes.now) }
{
    let ((session, statement), rest) = read_statement(bytes)?;
    let (snapshot, rest) = read_long_after(rest, " snapshot ")?;
    let rest = read_label(rest, " ")?;
    let (route, rest) = read_route(rest)?;
    let rest = read_label(rest, "\n")?;
    Ok((
        Event::Opened {
            session,
            statement,
            snapshot,
            route,
        },
        rest,
    ))
}

/// The rest of a line that says that a transaction is committed.
#[tactic(auto, unfolding(crate::specs::EventReading::commit_at))]
fn read_commit(bytes: &[u8]) -> Result<(Event, &[u8]), LineFault>
    ensures { Gives (λ x. (x.0, x.1.now)) result (commit_at bytes.now) }
{
    let ((session, statement), rest) = read_statement(bytes)?;
    let (stamp, rest) = read_long_after(rest, " stamp ")?;
    let (low, rest) = read_long_after(rest, " low ")?;
    let (high, rest) = read_long_after(rest, " high ")?;
    let rest = read_label(rest, "\n")?;
    Ok((
        Event::Commit {
            session,
            statement,
            stamp,
            low,
            high,
        },
        rest,
    ))
}

/// The rest of a line that says that a transaction can't be committed.
#[tactic(auto, unfolding(crate::specs::EventReading::violation_at))]
fn read_violation(alloc: Global, bytes: &[u8]) -> Result<(Event, &[u8]), LineFault>
    ensures { Gives (λ x. (x.0, x.1.now)) result (violation_at bytes.now) }
{
    let ((session, statement), rest) = read_statement(bytes)?;
    let (low, rest) = read_long_after(rest, " low ")?;
    let (high, rest) = read_long_after(rest, " high ")?;
    let rest = read_label(rest, " ")?;
    let (object, rest) = read_object(alloc, rest)?;
    let rest = read_label(rest, "\n")?;
    Ok((
        Event::Violation {
            session,
            statement,
            low,
            high,
            object,
        },
        rest,
    ))
}

/// The rest of a line that says that a statement is refused.
#[tactic(auto, unfolding(crate::specs::EventReading::refuse_at))]
fn read_refuse(alloc: Global, bytes: &[u8]) -> Result<(Event, &[u8]), LineFault>
    ensures { Gives (λ x. (x.0, x.1.now)) result (refuse_at bytes.now) }
{
    let ((session, statement), rest) = read_statement(bytes)?;
    let rest = read_label(rest, " ")?;
    let (refusal, rest) = read_refusal(alloc, rest)?;
    let rest = read_label(rest, "\n")?;
    Ok((
        Event::Refuse {
            session,
            statement,
            refusal,
        },
        rest,
    ))
}

/// The rest of a line that says that a block ends without a trace.
#[tactic(auto, unfolding(crate::specs::EventReading::rollback_at))]
fn read_rollback(bytes: &[u8]) -> Result<(Event, &[u8]), LineFault>
    ensures { Gives (λ x. (x.0, x.1.now)) result (rollback_at bytes.now) }
{
    let ((session, statement), rest) = read_statement(bytes)?;
    let rest = read_label(rest, "\n")?;
    Ok((Event::Rollback { session, statement }, rest))
}

/// The rest of a line that says that a cluster is refreshed.
#[tactic(auto, unfolding(crate::specs::EventReading::refresh_at))]
fn read_refresh(bytes: &[u8]) -> Result<(Event, &[u8]), LineFault>
    ensures { Gives (λ x. (x.0, x.1.now)) result (refresh_at bytes.now) }
{
    let (cluster, rest) = read_short(bytes)?;
    let (stamp, rest) = read_long_after(rest, " stamp ")?;
    let rest = read_label(rest, "\n")?;
    Ok((Event::Refresh { cluster, stamp }, rest))
}

/// The rest of a line that says that a session's script is at its end.
#[tactic(auto, unfolding(crate::specs::EventReading::end_at))]
fn read_end(bytes: &[u8]) -> Result<(Event, &[u8]), LineFault>
    ensures { Gives (λ x. (x.0, x.1.now)) result (end_at bytes.now) }
{
    let (session, rest) = read_short(bytes)?;
    let rest = read_label(rest, "\n")?;
    Ok((Event::End { session }, rest))
}

/// The step of a vacuum.
#[tactic(auto, unfolding(crate::specs::EventReading::step_at))]
fn read_step(bytes: &[u8]) -> Result<(Step, &[u8]), LineFault>
    ensures { Gives (λ x. (x.0, x.1.now)) result (step_at bytes.now) }
{
    if let Some(rest) = after_label(bytes, " begin ") {
        return Ok((Step::Begin, rest));
    }
    if let Some(rest) = after_label(bytes, " slice ") {
        return Ok((Step::Slice, rest));
    }
    let rest = read_label(bytes, " end")?;
    Ok((Step::End, rest))
}

/// The rest of a vacuum's step.
fn read_vacuum_after(
    alloc: Global,
    step: Step,
    session: u32,
    statement: u32,
    bytes: &[u8],
) -> Result<(Event, &[u8]), LineFault>
    ensures { Gives (λ x. (x.0, x.1.now)) result (vacuum_after step session statement bytes.now) }
{
    match step {
        Step::Begin => {
            let (table, rest) = read_text(alloc, bytes)?;
            let rest = read_label(rest, "\n")?;
            Ok((
                Event::VacuumBegin {
                    session,
                    statement,
                    table,
                },
                rest,
            ))
        }
        Step::Slice => {
            let (slice, rest) = read_short(bytes)?;
            let (horizon, rest) = read_long_after(rest, " horizon ")?;
            let rest = read_label(rest, "\n")?;
            Ok((
                Event::VacuumSlice {
                    session,
                    statement,
                    slice,
                    horizon,
                },
                rest,
            ))
        }
        Step::End => {
            let rest = read_label(bytes, "\n")?;
            Ok((Event::VacuumEnd { session, statement }, rest))
        }
    }
}

/// The rest of a line of a vacuum.
#[tactic(auto, unfolding(crate::specs::EventReading::vacuum_at))]
fn read_vacuum(alloc: Global, bytes: &[u8]) -> Result<(Event, &[u8]), LineFault>
    ensures { Gives (λ x. (x.0, x.1.now)) result (vacuum_at bytes.now) }
{
    let ((session, statement), rest) = read_statement(bytes)?;
    let (step, rest) = read_step(rest)?;
    read_vacuum_after(alloc, step, session, statement, rest)
}

/// The words that an answer begins with.
#[tactic(auto, unfolding(crate::specs::EventReading::answer_word_at))]
fn read_answer_word(bytes: &[u8]) -> Result<(Word, &[u8]), LineFault>
    ensures { Gives (λ x. (x.0, x.1.now)) result (answer_word_at bytes.now) }
{
    if let Some(rest) = after_label(bytes, " CREATE TABLE") {
        return Ok((Word::CreateTable, rest));
    }
    if let Some(rest) = after_label(bytes, " DROP TABLE") {
        return Ok((Word::DropTable, rest));
    }
    if let Some(rest) = after_label(bytes, " LOCK TABLE") {
        return Ok((Word::LockTable, rest));
    }
    if let Some(rest) = after_label(bytes, " INSERT ") {
        return Ok((Word::Insert, rest));
    }
    let rest = read_label(bytes, " SELECT ")?;
    Ok((Word::Select, rest))
}

/// The rest of the first line of an answer with these words.
fn read_answer_after(
    word: Word,
    session: u32,
    statement: u32,
    bytes: &[u8],
) -> Result<(Head, &[u8]), LineFault>
    ensures { Gives (λ x. (x.0, x.1.now)) result (answer_after word session statement bytes.now) }
{
    let (answer, rest) = match word {
        Word::Select => {
            let (count, rest) = read_long(bytes)?;
            let rest = read_label(rest, "\n")?;
            return Ok((
                Head::WithRows {
                    session,
                    statement,
                    count,
                },
                rest,
            ));
        }
        Word::Insert => {
            let (count, rest) = read_long(bytes)?;
            (Answer::Count { word, count }, read_label(rest, "\n")?)
        }
        _ => (Answer::Plain { word }, read_label(bytes, "\n")?),
    };
    Ok((
        Head::Whole(Event::Answer {
            session,
            statement,
            answer,
        }),
        rest,
    ))
}

/// The rest of the first line of an answer.
#[tactic(auto, unfolding(crate::specs::EventReading::answer_at))]
fn read_answer(bytes: &[u8]) -> Result<(Head, &[u8]), LineFault>
    ensures { Gives (λ x. (x.0, x.1.now)) result (answer_at bytes.now) }
{
    let ((session, statement), rest) = read_statement(bytes)?;
    let (word, rest) = read_answer_word(rest)?;
    read_answer_after(word, session, statement, rest)
}

/// The rest of a line of this kind.
fn read_head_after(alloc: Global, kind: Kind, bytes: &[u8]) -> Result<(Head, &[u8]), LineFault>
    ensures { Gives (λ x. (x.0, x.1.now)) result (head_after kind bytes.now) }
{
    let (event, rest) = match kind {
        Kind::Answer => return read_answer(bytes),
        Kind::Begin => read_begin(bytes)?,
        Kind::Pass => read_pass(bytes)?,
        Kind::Wait => read_wait(alloc, bytes)?,
        Kind::Open => read_open(bytes)?,
        Kind::Commit => read_commit(bytes)?,
        Kind::Violation => read_violation(alloc, bytes)?,
        Kind::Refuse => read_refuse(alloc, bytes)?,
        Kind::Rollback => read_rollback(bytes)?,
        Kind::Vacuum => read_vacuum(alloc, bytes)?,
        Kind::Refresh => read_refresh(bytes)?,
        Kind::End => read_end(bytes)?,
    };
    Ok((Head::Whole(event), rest))
}

/// The first line of the event of this number.
#[tactic(auto, unfolding(crate::specs::EventReading::head_at))]
pub fn read_head(alloc: Global, number: u64, bytes: &[u8]) -> Result<(Head, &[u8]), LineFault>
    ensures { Gives (λ x. (x.0, x.1.now)) result (head_at number bytes.now) }
{
    let (_, rest) = read_number(bytes, number, number)?;
    let (kind, rest) = read_kind(rest)?;
    read_head_after(alloc, kind, rest)
}
