//! Whether a wait is legal.
ghost use Rattle.std.specs.Prelude.{◌≡◌, ◌<◌, ◌&&◌, not, [], ◌∷◌, vec_len, Some, IfOk};
ghost use Rattle.std.specs.Bool.{Decides};
ghost use Rattle.std.specs.Option.{option_copied};
ghost use Rattle.dw_journal.specs.Locks.{lock_state};
ghost use Rattle.dw_journal.specs.Turns.{call_of};
ghost use Rattle.dw_journal.specs.Legal.{IsLegalWait};
ghost use Rattle.dw_locks.specs.LockTable.{StandsForLocks};
ghost use Rattle.dw_judge.specs.Dues.{turn_kept};
ghost use Rattle.dw_judge.specs.Summaries.{StandsFor};
ghost use Rattle.dw_judge.specs.Verdicts.{history_before};
ghost use Rattle.dw_judge.specs.Waiting.{calls_for_vacuum, is_same_wait, is_wait_by, takes_vacuum};

use crate::asking::has_to_wait;
use crate::dues::Due;
use crate::follows::due_kept;
use crate::scripts::given;
use crate::sessions::newest;
use crate::summaries::{Summary, sweeper_of};
use dw_journal::{Event, Given, Journal, World};
use dw_locks::Locks;
use dw_model::Statement;
use dw_value::List;
use std::alloc::{AllocError, Global};

/// Whether the wait is legal: the statement has to wait for just these holders of locks in its way, or it is a VACUUM's,
/// while that of the background worker runs, and it isn't told twice in a row.
pub(crate) fn is_legal_wait(
    alloc: Global,
    world: &World,
    journal: &Journal,
    place: usize,
    summary: &Summary,
    locks: &Locks,
    session: u32,
    statement: u32,
    holders: &List<u32>,
) -> Result<bool, AllocError>
    requires locks { StandsForLocks locks.now (lock_state (history_before world.now journal.now place)) }
    requires stands { StandsFor journal.now.events (history_before world.now journal.now place) summary.now }
    requires within { session < vec_len summary.now.sessions }
    ensures { IfOk result (λ legal. Decides legal
        (IsLegalWait (history_before world.now journal.now place) session statement holders.now)) }
{
    let kept = &summary.sessions[session as usize];
    let due = due_kept(world, journal, session, kept);
    let takes = takes_vacuum(world, session, due);
    let sweeper = sweeper_of(summary.sessions.as_slice());
    let alone = is_worker_alone(holders);
    let last = newest(journal.events.as_slice(), kept.newest);
    let again = is_same_wait(last, session, statement, holders);
    let given = given(world, session, statement as u64);
    let waits = has_to_wait(alloc, locks, session, given, holders)?;
    Ok(is_wait_due(takes, sweeper, alone, waits, again))
}

/// Whether a wait is due, by whether a VACUUM is taken and whose vacuum runs, and isn't told again.
fn is_wait_due(takes: bool, sweeper: Option<usize>, alone: bool, waits: bool, again: bool) -> bool
    ensures { result ≡ (is_wait_by takes sweeper alone waits && not again) }
{
    is_wait_by(takes, sweeper, alone, waits) && !again
}

/// Whether a wait is for those that it has to be for.
fn is_wait_by(takes: bool, sweeper: Option<usize>, alone: bool, waits: bool) -> bool
    ensures { result ≡ is_wait_by takes sweeper alone waits }
{
    if !takes {
        return waits;
    }
    match sweeper {
        Some(session) => session == 0 && alone,
        None => waits,
    }
}

/// Whether a VACUUM is to be taken.
fn takes_vacuum(world: &World, session: u32, due: Due) -> bool
    ensures { result ≡ takes_vacuum (turn_kept world.now session due) }
{
    match due {
        Due::Take(k) => match given(world, session, k) {
            Some(given) => calls_for_vacuum(given),
            None => false,
        },
        _ => false,
    }
}

fn calls_for_vacuum(given: &Given) -> bool
    ensures { result ≡ calls_for_vacuum (call_of given.now) }
{
    match given {
        Given::Refused(_) => false,
        Given::Read(statement) => match statement {
            Statement::Vacuum { .. } => true,
            _ => false,
        },
    }
}

/// Whether these are the background worker alone.
fn is_worker_alone(holders: &List<u32>) -> bool
    ensures { Decides result (holders.now ≡ 0 ∷ []) }
{
    if holders.len() != 1 {
        return false;
    }
    holders.as_slice()[0] == 0
}

/// Whether an event is the wait of this statement for these sessions.
fn is_same_wait(event: Option<&Event>, session: u32, statement: u32, holders: &List<u32>) -> bool
    ensures { result ≡ is_same_wait (option_copied event.entry) session statement holders.now }
{
    match event {
        Some(event) => is_wait_of(event, session, statement, holders),
        None => false,
    }
}

fn is_wait_of(event: &Event, session: u32, statement: u32, holders: &List<u32>) -> bool
    ensures { result ≡ is_same_wait (Some event.now) session statement holders.now }
{
    match event {
        Event::Wait {
            session: other,
            statement: waiting,
            holders: named,
        } => *other == session && *waiting == statement && named == holders,
        _ => false,
    }
}
