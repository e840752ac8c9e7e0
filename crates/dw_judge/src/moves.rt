//! The step of an event that is right, kind by kind.
ghost use Rattle.std.specs.Prelude.{◌≡◌, ◌<◌, ◌∷◌, [], ◌++◌, slice_get, vec_len, reverse, Some, None, IfOk, OnOk};
ghost use Rattle.std.specs.List.{slice_set};
ghost use Rattle.dw_journal.specs.History.{session_of, with_event};
ghost use Rattle.dw_journal.specs.Worlds.{statement_at};
ghost use Rattle.dw_judge.specs.declared.sessions.Session.{Session as Kept};
ghost use Rattle.dw_judge.specs.Changes.{EndsTransaction, LeavesTransaction};
ghost use Rattle.dw_judge.specs.Summaries.{StandsFor};
ghost use Rattle.dw_judge.specs.Verdicts.{history_before};

use crate::happened::happened;
use crate::sessions::{OpenOne, Session};
use crate::summaries::Summary;
use dw_journal::{Event, Journal, World};
use std::mem;

/// An event that leaves its session's transaction as it is, and commits and refreshes nothing, has happened.
pub(crate) fn go_on(
    world: &World,
    journal: &Journal,
    place: usize,
    summary: &mut Summary,
    event: &Event,
    session: u32,
)
    requires own { session_of event.now ≡ Some session }
    requires here { slice_get journal.now.events place ≡ Some event.now }
    requires within { session < vec_len summary.old.sessions }
    requires stands { StandsFor journal.now.events (history_before world.now journal.now place) summary.old }
    requires leaves { LeavesTransaction event.now }
    ensures { StandsFor journal.now.events (with_event (history_before world.now journal.now place) event.now)
        summary.new }
{
    let transaction = taken_out(&mut summary.sessions, session);
    happened(world, journal, place, summary, event, session, transaction);
}

/// An event that ends its session's transaction, if it had one, and commits nothing, has happened.
pub(crate) fn end(
    world: &World,
    journal: &Journal,
    place: usize,
    summary: &mut Summary,
    event: &Event,
    session: u32,
)
    requires own { session_of event.now ≡ Some session }
    requires here { slice_get journal.now.events place ≡ Some event.now }
    requires within { session < vec_len summary.old.sessions }
    requires stands { StandsFor journal.now.events (history_before world.now journal.now place) summary.old }
    requires ends { EndsTransaction event.now }
    ensures { StandsFor journal.now.events (with_event (history_before world.now journal.now place) event.now)
        summary.new }
{
    let _transaction = taken_out(&mut summary.sessions, session);
    happened(world, journal, place, summary, event, session, None);
}

/// The transaction of a session, which then has none.
pub(crate) fn taken_out(sessions: &mut Vec<Session>, session: u32) -> Option<OpenOne>
    requires { session < vec_len sessions.old }
    ensures taken { (kept : Kept) → slice_get sessions.old.items session ≡ Some kept → result ≡ kept.transaction }
    ensures left { (kept : Kept) → slice_get sessions.old.items session ≡ Some kept
        → sessions.new.items ≡ slice_set sessions.old.items session (record kept { transaction = None }) }
    ensures len { vec_len sessions.new ≡ vec_len sessions.old }
{
    mem::replace(&mut sessions[session as usize].transaction, None)
}
