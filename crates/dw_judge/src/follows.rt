//! Whether an event follows from the scripts.
ghost use Rattle.std.specs.Prelude.{◌≡◌, is_some};
ghost use Rattle.std.specs.Bool.{Decides};
ghost use Rattle.dw_journal.specs.Follows.{FollowsAfter};
ghost use Rattle.dw_journal.specs.Turns.{turn_after};
ghost use Rattle.dw_judge.specs.Dues.{turn_between, turn_kept};
ghost use Rattle.dw_judge.specs.Readings.{newest_kept};
ghost use Rattle.dw_judge.specs.Summaries.{StandsFor};
ghost use Rattle.dw_judge.specs.Verdicts.{history_before};

use crate::dues::{Due, due_of, is_due};
use crate::sessions::{Session, newest};
use crate::summaries::Summary;
use dw_journal::{Event, Journal, World};

/// Whether the event follows from the scripts after those before this place, for which the summary stands.
pub(crate) fn follows(
    world: &World,
    journal: &Journal,
    place: usize,
    summary: &Summary,
    event: &Event,
) -> bool
    requires stands { StandsFor journal.now.events (history_before world.now journal.now place) summary.now }
    ensures { Decides result (FollowsAfter (history_before world.now journal.now place) event.now) }
{
    let Some(session) = event.session() else {
        return true;
    };
    if session as usize >= summary.sessions.len() {
        return false;
    }
    let kept = &summary.sessions[session as usize];
    let due = due_kept(world, journal, session, kept);
    is_due(world, session, kept.block, has_open(kept), due, event)
}

/// Whether a transaction is open.
fn has_open(kept: &Session) -> bool
    ensures { result ≡ is_some kept.now.transaction }
{
    match &kept.transaction {
        Some(_) => true,
        None => false,
    }
}

/// What is due of a session of which this is kept.
pub(crate) fn due_kept(world: &World, journal: &Journal, session: u32, kept: &Session) -> Due
    ensures { turn_kept world.now session result ≡ turn_after journal.now.shape kept.now.block
        (newest_kept journal.now.events kept.now) (turn_between world.now session kept.now.taken) }
{
    let newest = newest(journal.events.as_slice(), kept.newest);
    due_of(
        world,
        journal.shape,
        session,
        kept.block,
        kept.taken,
        newest,
    )
}
