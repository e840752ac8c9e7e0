//! What an event that is right makes of what is kept.
ghost use Rattle.std.specs.Prelude.{drop, ◌≡◌, ◌<◌, ◌≤◌, suc, Some, length, slice_get, unwrap_or, option_map, vec_len};
ghost use Rattle.std.specs.List.{filter_map, slice_set};
ghost use Rattle.dw_journal.specs.History.{session_of, with_event};
ghost use Rattle.dw_journal.specs.Transactions.{least_of};
ghost use Rattle.dw_judge.specs.declared.sessions.Session.{Session as Kept};
ghost use Rattle.dw_judge.specs.Readings.{snapshot_kept};
ghost use Rattle.dw_judge.specs.Changes.{IsReady, session_after};
ghost use Rattle.dw_judge.specs.Summaries.{StandsFor};
ghost use Rattle.dw_judge.specs.Verdicts.{history_before};

use crate::sessions::{OpenOne, Session, block_after, statements_after, sweeps_after};
use crate::summaries::{Summary, horizon_of};
use dw_journal::{Event, Journal, World};

impl Session {
    /// The session has this event, which stands at this place, and now has this transaction.
    fn advance(&mut self, world: &World, event: &Event, place: usize, transaction: Option<OpenOne>)
        ensures { self.new ≡ session_after world.now event.now place transaction self.old }
    {
        self.taken = statements_after(event, self.taken);
        self.block = block_after(world, event, self.block);
        self.newest = Some(place);
        self.sweeps = sweeps_after(event, self.sweeps);
        self.transaction = transaction;
    }
}

/// The event of a session, which stands at this place, has happened. The session now has this transaction.
pub(crate) fn happened(
    world: &World,
    journal: &Journal,
    place: usize,
    summary: &mut Summary,
    event: &Event,
    session: u32,
    transaction: Option<OpenOne>,
)
    requires own { session_of event.now ≡ Some session }
    requires here { slice_get journal.now.events place ≡ Some event.now }
    requires within { session < vec_len summary.old.sessions }
    requires ready { IsReady journal.now.events (history_before world.now journal.now place) event.now session
        transaction summary.old }
    ensures { StandsFor journal.now.events (with_event (history_before world.now journal.now place) event.now)
        summary.new }
{
    let _events = &journal.events;
    put(
        world,
        &mut summary.sessions,
        session,
        event,
        place,
        transaction,
    );
    mark(
        &summary.sessions,
        &mut summary.horizons,
        summary.commits.len() as u64,
        session,
    );
}

/// The session has this event.
fn put(
    world: &World,
    sessions: &mut Vec<Session>,
    session: u32,
    event: &Event,
    place: usize,
    transaction: Option<OpenOne>,
)
    requires within { session < vec_len sessions.old }
    ensures kept { (kept : Kept) → slice_get sessions.old.items session ≡ Some kept
        → sessions.new.items ≡ slice_set sessions.old.items session
        (session_after world.now event.now place transaction kept) }
    ensures len { vec_len sessions.new ≡ vec_len sessions.old }
{
    sessions[session as usize].advance(world, event, place, transaction);
}

/// The horizon is now that of these sessions, after so many commits.
fn mark(sessions: &Vec<Session>, horizons: &mut Vec<u64>, commits: u64, session: u32)
    requires within { session < vec_len horizons.old }
    requires some { 1 ≤ vec_len sessions.now }
    ensures { horizons.new.items ≡ slice_set horizons.old.items session
        (unwrap_or (least_of (filter_map snapshot_kept (drop 1 sessions.now.items))) commits) }
{
    horizons[session as usize] = horizon_of(&sessions.as_slice()[1..], commits);
}
