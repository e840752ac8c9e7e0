//! One event, judged: whether it is legal, and where it is, what is kept afterwards.
ghost use Rattle.std.specs.Prelude.{◌≡◌, ◌<◌, ◌≤◌, slice_get, vec_len, Some, IfOk};
ghost use Rattle.std.specs.Bool.{Decides};
ghost use Rattle.dw_journal.specs.declared.Event.TheVariants as kinds;
ghost use Rattle.dw_journal.specs.History.{session_of};
ghost use Rattle.dw_journal.specs.Locks.{lock_state};
ghost use Rattle.dw_journal.specs.Legal.{IsLegalAfter};
ghost use Rattle.dw_locks.specs.LockTable.{StandsForLocks};
ghost use Rattle.dw_judge.specs.Changes.{EndsTransaction, IsJudged, LeavesTransaction};
ghost use Rattle.dw_judge.specs.Summaries.{StandsFor};
ghost use Rattle.dw_judge.specs.Verdicts.{history_before};

use crate::legal::{is_legal_commit, is_legal_refresh};
use crate::moves::{end, go_on};
use crate::opening::is_legal_opened;
use crate::openings::{commit, open};
use crate::refreshing::refresh;
use crate::scripts::statement_at;
use crate::summaries::Summary;
use dw_journal::{Event, Journal, Route, World};
use dw_locks::Locks;
use std::alloc::{AllocError, Global};

/// An event that leaves its session's transaction as it is has happened, if it is legal.
pub(crate) fn go_on_if(
    legal: bool,
    world: &World,
    journal: &Journal,
    place: usize,
    summary: &mut Summary,
    event: &Event,
    session: u32,
)
    requires own { session_of event.now ≡ Some session }
    requires here { slice_get journal.now.events place ≡ Some event.now }
    requires within { session < vec_len summary.old.sessions }
    requires stands { StandsFor journal.now.events (history_before world.now journal.now place) summary.old }
    requires leaves { LeavesTransaction event.now }
    requires legal { Decides legal (IsLegalAfter (history_before world.now journal.now place) event.now) }
    ensures { IsJudged journal.now.events (history_before world.now journal.now place) event.now summary.new legal }
{
    if legal {
        go_on(world, journal, place, summary, event, session);
    }
}

/// An event that ends its session's transaction has happened, if it is legal.
pub(crate) fn end_if(
    legal: bool,
    world: &World,
    journal: &Journal,
    place: usize,
    summary: &mut Summary,
    event: &Event,
    session: u32,
)
    requires own { session_of event.now ≡ Some session }
    requires here { slice_get journal.now.events place ≡ Some event.now }
    requires within { session < vec_len summary.old.sessions }
    requires stands { StandsFor journal.now.events (history_before world.now journal.now place) summary.old }
    requires ends { EndsTransaction event.now }
    requires legal { Decides legal (IsLegalAfter (history_before world.now journal.now place) event.now) }
    ensures { IsJudged journal.now.events (history_before world.now journal.now place) event.now summary.new legal }
{
    if legal {
        end(world, journal, place, summary, event, session);
    }
}

/// An opening has happened, if it is legal.
pub(crate) fn open_if(
    alloc: Global,
    world: &World,
    journal: &Journal,
    place: usize,
    summary: &mut Summary,
    locks: &Locks,
    event: &Event,
    session: u32,
    statement: u32,
    snapshot: u64,
    route: Route,
) -> Result<bool, AllocError>
    requires is { event.now ≡ kinds.Opened session statement snapshot route }
    requires here { slice_get journal.now.events place ≡ Some event.now }
    requires within { session < vec_len summary.old.sessions }
    requires locks { StandsForLocks locks.now (lock_state (history_before world.now journal.now place)) }
    requires stands { StandsFor journal.now.events (history_before world.now journal.now place) summary.old }
    ensures { IfOk result (IsJudged journal.now.events (history_before world.now journal.now place) event.now
        summary.new) }
{
    let legal = is_legal_opened(
        alloc, world, journal, place, summary, locks, session, statement, snapshot, route,
    )?;
    if !legal {
        return Ok(false);
    }
    let Some(given) = statement_at(world, session, statement as u64) else {
        unreachable!()
    };
    open(
        alloc, world, journal, place, summary, event, session, statement, snapshot, route, given,
    )?;
    Ok(true)
}

/// A commit has happened, if it is legal.
pub(crate) fn commit_if(
    world: &World,
    journal: &Journal,
    place: usize,
    summary: &mut Summary,
    event: &Event,
    session: u32,
    statement: u32,
    stamp: u64,
    low: u64,
    high: u64,
) -> Result<bool, AllocError>
    requires is { event.now ≡ kinds.Commit session statement stamp low high }
    requires here { slice_get journal.now.events place ≡ Some event.now }
    requires within { session < vec_len summary.old.sessions }
    requires stands { StandsFor journal.now.events (history_before world.now journal.now place) summary.old }
    ensures { IfOk result (IsJudged journal.now.events (history_before world.now journal.now place) event.now
        summary.new) }
{
    let legal = is_legal_commit(world, journal, place, summary, session, stamp, low, high);
    if !legal {
        return Ok(false);
    }
    commit(
        world, journal, place, summary, event, session, statement, stamp, low, high,
    )?;
    Ok(true)
}

/// A refresh has happened, if it is legal.
pub(crate) fn refresh_if(
    world: &World,
    journal: &Journal,
    place: usize,
    summary: &mut Summary,
    event: &Event,
    cluster: u32,
    stamp: u64,
) -> Result<bool, AllocError>
    requires is { event.now ≡ kinds.Refresh cluster stamp }
    requires stands { StandsFor journal.now.events (history_before world.now journal.now place) summary.old }
    ensures { IfOk result (IsJudged journal.now.events (history_before world.now journal.now place) event.now
        summary.new) }
{
    let legal = is_legal_refresh(world, journal, place, summary, cluster, stamp);
    if !legal {
        return Ok(false);
    }
    refresh(world, journal, place, summary, event, cluster, stamp)?;
    Ok(true)
}
