//! The steps of an opening, an answer, a commit and a refresh that are right.
ghost use Rattle.std.specs.Prelude.{◌≡◌, ◌<◌, slice_get, vec_len, Some, OnOk, IfOk};
ghost use Rattle.dw_model.specs.Objects.{IsAscendingObjects, reads_of, with_objects, writes_of};
ghost use Rattle.dw_journal.specs.declared.Event.TheVariants as kinds;
ghost use Rattle.dw_journal.specs.declared.Route.{Route as Way};
ghost use Rattle.dw_journal.specs.Worlds.{statement_at};
ghost use Rattle.dw_journal.specs.History.{session_of, with_event};
ghost use Rattle.dw_journal.specs.Legal.{IsLegalCommit, snapshot_due};
ghost use Rattle.dw_judge.specs.Changes.{IsJudged, begun_in, widened_by};
ghost use Rattle.dw_judge.specs.Summaries.{StandsFor};
ghost use Rattle.dw_judge.specs.Verdicts.{history_before};

use crate::answering::{Answered, judge_answer};
use crate::happened::happened;
use crate::moves::taken_out;
use crate::sessions::OpenOne;
use crate::summaries::Summary;
use dw_commit::{View, install};
use dw_journal::{Certified, Event, Journal, Route, Taken, World};
use dw_model::{Answer, Database, Statement, add_objects};
use dw_value::List;
use std::alloc::{AllocError, Global};

/// A statement that is run on what its session sees has been opened. Where no transaction was open, one begins, and
/// sees the committed database. It takes the statement's objects.
pub(crate) fn open(
    alloc: Global,
    world: &World,
    journal: &Journal,
    place: usize,
    summary: &mut Summary,
    event: &Event,
    session: u32,
    statement: u32,
    snapshot: u64,
    route: Route,
    given: &Statement,
) -> Result<(), AllocError>
    requires is { event.now ≡ kinds.Opened session statement snapshot route }
    requires here { slice_get journal.now.events place ≡ Some event.now }
    requires within { session < vec_len summary.old.sessions }
    requires stands { StandsFor journal.now.events (history_before world.now journal.now place) summary.old }
    requires due { snapshot ≡ snapshot_due (history_before world.now journal.now place) session }
    requires given { statement_at world.now session statement ≡ Some given.now }
    ensures { OnOk result (StandsFor journal.now.events
        (with_event (history_before world.now journal.now place) event.now) summary.new) }
{
    let _route = route;
    let _statement = statement;
    let transaction = taken_out(&mut summary.sessions, session);
    let one = begun(alloc, snapshot, &summary.database, transaction)?;
    let one = widened(alloc, one, given)?;
    happened(world, journal, place, summary, event, session, Some(one));
    Ok(())
}

/// The open transaction, or one that begins.
fn begun(
    alloc: Global,
    snapshot: u64,
    database: &Database,
    transaction: Option<OpenOne>,
) -> Result<OpenOne, AllocError>
    ensures { IfOk result (λ one. one ≡ begun_in snapshot database.now transaction) }
{
    match transaction {
        Some(one) => Ok(one),
        None => {
            let database = database.copy()?;
            Ok(OpenOne {
                taken: Taken {
                    snapshot,
                    reads: List::new(alloc),
                    writes: List::new(alloc),
                },
                view: View {
                    database,
                    changes: List::new(alloc),
                },
            })
        }
    }
}

/// The transaction with the statement's objects.
fn widened(alloc: Global, one: OpenOne, statement: &Statement) -> Result<OpenOne, AllocError>
    requires reads { IsAscendingObjects one.taken.reads }
    requires writes { IsAscendingObjects one.taken.writes }
    ensures { IfOk result (λ wide. wide ≡ widened_by statement.now one) }
{
    let OpenOne { taken, view } = one;
    let Taken {
        snapshot,
        mut reads,
        mut writes,
    } = taken;
    add_objects(&mut reads, statement.reads(alloc)?)?;
    add_objects(&mut writes, statement.writes(alloc)?)?;
    Ok(OpenOne {
        taken: Taken {
            snapshot,
            reads,
            writes,
        },
        view,
    })
}

/// The answer of an open statement: whether it is legal, and where it is, it has happened.
pub(crate) fn answer(
    alloc: Global,
    world: &World,
    journal: &Journal,
    place: usize,
    summary: &mut Summary,
    event: &Event,
    session: u32,
    statement: u32,
    answer: &Answer,
) -> Result<bool, AllocError>
    requires is { event.now ≡ kinds.Answer session statement answer.now }
    requires here { slice_get journal.now.events place ≡ Some event.now }
    requires within { session < vec_len summary.old.sessions }
    requires stands { StandsFor journal.now.events (history_before world.now journal.now place) summary.old }
    ensures { IfOk result (IsJudged journal.now.events (history_before world.now journal.now place) event.now
        summary.new) }
{
    let transaction = taken_out(&mut summary.sessions, session);
    match judge_answer(
        alloc,
        world,
        session,
        statement,
        &summary.database,
        transaction,
        answer,
    )? {
        Answered::Legal(next) => {
            happened(world, journal, place, summary, event, session, next);
            Ok(true)
        }
        Answered::NotLegal => Ok(false),
    }
}

/// A commit that is legal has happened: it is certified with its low watermark, and what it leaves is the committed
/// database.
pub(crate) fn commit(
    world: &World,
    journal: &Journal,
    place: usize,
    summary: &mut Summary,
    event: &Event,
    session: u32,
    statement: u32,
    stamp: u64,
    low: u64,
    high: u64,
) -> Result<(), AllocError>
    requires is { event.now ≡ kinds.Commit session statement stamp low high }
    requires here { slice_get journal.now.events place ≡ Some event.now }
    requires within { session < vec_len summary.old.sessions }
    requires stands { StandsFor journal.now.events (history_before world.now journal.now place) summary.old }
    requires legal { IsLegalCommit (history_before world.now journal.now place) session stamp low high }
    ensures { OnOk result (StandsFor journal.now.events
        (with_event (history_before world.now journal.now place) event.now) summary.new) }
{
    let _statement = statement;
    let _stamp = stamp;
    let _high = high;
    let Some(one) = taken_out(&mut summary.sessions, session) else {
        unreachable!()
    };
    let OpenOne { taken, view } = one;
    let next = install(&view, &taken, &summary.database)?;
    summary.commits.push(Certified { low, taken })?;
    summary.database = next;
    happened(world, journal, place, summary, event, session, None);
    Ok(())
}
