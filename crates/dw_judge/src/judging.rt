//! The judge: one pass over the events of a journal.
ghost use Rattle.std.specs.Prelude.{◌≡◌, ◌<◌, ◌≤◌, ℕ, true, false, length, slice_get, Some, None, IfOk, IfSome};
ghost use Rattle.dw_journal.specs.Worlds.{session_count};
ghost use Rattle.dw_journal.specs.Follows.{FollowsAfter};
ghost use Rattle.dw_journal.specs.History.{is_end};
ghost use Rattle.dw_journal.specs.Locks.{lock_state};
ghost use Rattle.dw_locks.specs.LockTable.{StandsForLocks};
ghost use Rattle.dw_judge.specs.declared.sessions.Session.{Session as Kept};
ghost use Rattle.dw_judge.specs.Changes.{IsJudged};
ghost use Rattle.dw_judge.specs.Readings.{newest_kept};
ghost use Rattle.dw_judge.specs.Summaries.{StandsFor};
ghost use Rattle.dw_judge.specs.Verdicts.{IsVerdict, history_before};

use crate::follows::follows;
use crate::legal::{is_legal_slice, is_legal_sweep, is_legal_violation};
use crate::locking::keep_locks;
use crate::openings::answer;
use crate::refusing::is_legal_refusal;
use crate::sessions::{Session, newest};
use crate::stepping::{commit_if, end_if, go_on_if, open_if, refresh_if};
use crate::summaries::Summary;
use crate::verdicts::Verdict;
use crate::waits::is_legal_wait;
use dw_journal::{Event, Journal, World};
use dw_locks::Locks;
use std::alloc::{AllocError, Global};

/// The verdict on a journal beside its world, which has at most 64 scripts: that it is right, with the committed tables
/// that it leaves, or the first event that isn't due or isn't legal. The journal may be any; events are judged one after
/// another, and each commit is compared with all commits before it. An `Err` comes only for want of memory.
pub fn judge(alloc: Global, world: &World, journal: &Journal) -> Result<Verdict, AllocError>
    requires { session_count world.now ≤ 64 }
    ensures { IfOk result (IsVerdict world.now journal.now) }
{
    let sessions = world.scripts.len();
    if journal.shape.sessions as usize != sessions {
        return Ok(Verdict::NotFollows { event: 0 });
    }
    let mut summary = Summary::new(alloc, sessions)?;
    let mut locks = Locks::new(alloc, journal.shape.sessions)?;
    let events = journal.events.as_slice();
    for place in 0..events.len() {
        let event = &events[place];
        if !follows(world, journal, place, &summary, event) {
            return Ok(Verdict::NotFollows {
                event: place as u64 + 1,
            });
        }
        let legal = step(alloc, world, journal, place, &mut summary, &locks, event)?;
        if !legal {
            return Ok(Verdict::NotLegal {
                event: place as u64 + 1,
            });
        }
        keep_locks(alloc, world, &mut locks, event)?;
    }
    match wanting(events, summary.sessions.as_slice()) {
        Some(_) => Ok(Verdict::NotFollows {
            event: events.len() as u64,
        }),
        None => {
            let Summary { database, .. } = summary;
            Ok(Verdict::Passes { database })
        }
    }
}

/// The first session whose script isn't at its end. The background worker has none.
fn wanting(events: &[Event], sessions: &[Session]) -> Option<usize>
    ensures none { result ≡ None → (session : ℕ) → 1 ≤ session → (kept : Kept) →
        slice_get sessions.now session ≡ Some kept → is_end (newest_kept events.now kept) ≡ true }
    ensures some { IfSome result (λ session. (1 ≤ session) × (session < length sessions.now)
        × ((kept : Kept) → slice_get sessions.now session ≡ Some kept → is_end (newest_kept events.now kept) ≡ false)) }
{
    for session in 1..sessions.len() {
        if !has_ended(events, &sessions[session]) {
            return Some(session);
        }
    }
    None
}

/// Whether a session's script is at its end.
fn has_ended(events: &[Event], kept: &Session) -> bool
    ensures { result ≡ is_end (newest_kept events.now kept.now) }
{
    match newest(events, kept.newest) {
        Some(event) => matches!(event, Event::End { .. }),
        None => false,
    }
}

/// Judges an event that follows, beside the locks that are held. Where it is legal, the summary then stands for the
/// history with it.
fn step(
    alloc: Global,
    world: &World,
    journal: &Journal,
    place: usize,
    summary: &mut Summary,
    locks: &Locks,
    event: &Event,
) -> Result<bool, AllocError>
    requires few { session_count world.now ≤ 64 }
    requires here { slice_get journal.now.events place ≡ Some event.now }
    requires stands { StandsFor journal.now.events (history_before world.now journal.now place) summary.old }
    requires locks { StandsForLocks locks.now (lock_state (history_before world.now journal.now place)) }
    requires follows { FollowsAfter (history_before world.now journal.now place) event.now }
    ensures { IfOk result (IsJudged journal.now.events (history_before world.now journal.now place) event.now
        summary.new) }
{
    match event {
        Event::Begin { session, .. }
        | Event::Pass { session, .. }
        | Event::VacuumEnd { session, .. } => {
            go_on_if(true, world, journal, place, summary, event, *session);
            Ok(true)
        }
        Event::Rollback { session, .. } | Event::End { session } => {
            end_if(true, world, journal, place, summary, event, *session);
            Ok(true)
        }
        Event::Wait {
            session,
            statement,
            holders,
        } => {
            let legal = is_legal_wait(
                alloc, world, journal, place, summary, locks, *session, *statement, holders,
            )?;
            go_on_if(legal, world, journal, place, summary, event, *session);
            Ok(legal)
        }
        Event::VacuumBegin { session, table, .. } => {
            let legal = is_legal_sweep(
                alloc, world, journal, place, summary, locks, *session, table,
            )?;
            go_on_if(legal, world, journal, place, summary, event, *session);
            Ok(legal)
        }
        Event::VacuumSlice {
            session,
            horizon,
            ..
        } => {
            let legal = is_legal_slice(world, journal, place, summary, *session, *horizon);
            go_on_if(legal, world, journal, place, summary, event, *session);
            Ok(legal)
        }
        Event::Violation {
            session,
            low,
            high,
            object,
            ..
        } => {
            let legal = is_legal_violation(
                world, journal, place, summary, *session, *low, *high, object,
            );
            end_if(legal, world, journal, place, summary, event, *session);
            Ok(legal)
        }
        Event::Refuse {
            session,
            statement,
            refusal,
        } => {
            let legal = is_legal_refusal(
                alloc, world, journal, place, summary, locks, *session, *statement, refusal,
            )?;
            end_if(legal, world, journal, place, summary, event, *session);
            Ok(legal)
        }
        Event::Opened {
            session,
            statement,
            snapshot,
            route,
        } => open_if(
            alloc, world, journal, place, summary, locks, event, *session, *statement, *snapshot,
            *route,
        ),
        Event::Answer {
            session,
            statement,
            answer: given,
        } => answer(
            alloc, world, journal, place, summary, event, *session, *statement, given,
        ),
        Event::Commit {
            session,
            statement,
            stamp,
            low,
            high,
        } => commit_if(
            world, journal, place, summary, event, *session, *statement, *stamp, *low, *high,
        ),
        Event::Refresh { cluster, stamp } => {
            refresh_if(world, journal, place, summary, event, *cluster, *stamp)
        }
    }
}
