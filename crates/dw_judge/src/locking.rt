//! What an event that is right makes of the table of locks.
ghost use Rattle.std.specs.Prelude.{◌≡◌, ◌<◌, [], length, IfOk, OnOk};
ghost use Rattle.dw_journal.specs.History.{session_of};
ghost use Rattle.dw_journal.specs.Locks.{wants_of};
ghost use Rattle.dw_locks.specs.LockTable.{table_blockers};
ghost use Rattle.dw_judge.specs.Locking.{HasEntry, IsUnblocked, locks_after, with_grant};

use crate::asking::sweep_wants;
use crate::scripts::given;
use dw_journal::{Event, Want, World};
use dw_locks::{Locks, wants};
use dw_value::List;
use std::alloc::{AllocError, Global};

/// An event has happened that is right. An opening and the begin of a vacuum are granted their locks, which nobody stands
/// in the way of; a wait is for those of its statement; the end of a transaction or of a vacuum releases what its session
/// held.
pub(crate) fn keep_locks(
    alloc: Global,
    world: &World,
    locks: &mut Locks,
    event: &Event,
) -> Result<(), AllocError>
    requires entry { HasEntry (session_of event.now) locks.old }
    requires free { IsUnblocked world.now event.now locks.old }
    ensures { OnOk result (locks.new ≡ locks_after world.now event.now locks.old) }
{
    match event {
        Event::Opened {
            session,
            statement,
            ..
        } => {
            let wants = wants_of(alloc, world, *session, *statement)?;
            grant(locks, *session, &wants)
        }
        Event::Wait {
            session,
            statement,
            ..
        } => {
            let wants = wants_of(alloc, world, *session, *statement)?;
            locks.wait(*session, &wants)
        }
        Event::VacuumBegin { session, table, .. } => {
            let wants = sweep_wants(alloc, table)?;
            grant(locks, *session, &wants)
        }
        Event::Begin { session, .. }
        | Event::Pass { session, .. }
        | Event::Answer { session, .. }
        | Event::VacuumSlice { session, .. } => go_on(alloc, locks, *session),
        Event::Commit { session, .. }
        | Event::Violation { session, .. }
        | Event::Refuse { session, .. }
        | Event::Rollback { session, .. }
        | Event::VacuumEnd { session, .. }
        | Event::End { session } => {
            locks.release(*session);
            Ok(())
        }
        Event::Refresh { .. } => Ok(()),
    }
}

/// The locks that a statement of a session wants.
fn wants_of(
    alloc: Global,
    world: &World,
    session: u32,
    statement: u32,
) -> Result<List<Want>, AllocError>
    ensures { IfOk result (λ wants. wants ≡ wants_of world.now session statement) }
{
    wants(alloc, given(world, session, statement as u64))
}

/// The session is granted these locks, which nobody stands in the way of, and waits no more.
fn grant(locks: &mut Locks, session: u32, wants: &List<Want>) -> Result<(), AllocError>
    requires within { session < length locks.old }
    requires free { table_blockers locks.old session wants.now ≡ [] }
    ensures { OnOk result (locks.new ≡ with_grant session wants.now locks.old) }
{
    let _granted = locks.request(session, wants)?;
    Ok(())
}

/// The session waits no more, and holds what it held.
fn go_on(alloc: Global, locks: &mut Locks, session: u32) -> Result<(), AllocError>
    requires within { session < length locks.old }
    ensures { OnOk result (locks.new ≡ with_grant session [] locks.old) }
{
    grant(locks, session, &List::new(alloc))
}
