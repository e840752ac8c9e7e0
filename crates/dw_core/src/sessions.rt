//! What is kept of each session, and how its events change that.
ghost use Rattle.std.specs.Prelude.{◌≡◌, ◌-◌, ◌+◌, ◌<◌, ◌≤◌, ◌++◌, [], ◌∷◌, ℕ, Some, None, length, slice_get, vec_len, vec_capacity};
ghost use Rattle.std.specs.Option.{option_copied};
ghost use Rattle.std.specs.List.{slice_set};
ghost use Rattle.dw_journal.specs.Worlds.{given_at, read_in};
ghost use Rattle.dw_journal.specs.History.{statements_after};
ghost use Rattle.dw_journal.specs.Blocks.{block_after, block_refused, passed_in};
ghost use Rattle.dw_core.specs.Changes.{answered_stage, ends_transaction, locks_after, session_after, stage_after};
ghost use Rattle.dw_core.specs.declared.sessions.Session.{Session as Kept};
ghost use Rattle.dw_journal.specs.declared.BlockState.TheVariants as blocks;
ghost use Rattle.dw_core.specs.declared.sessions.Stage.TheVariants as stage;

use crate::transactions::Transaction;
use dw_journal::{BlockState, Event, Given, World, place_of};
use dw_locks::Locks;
use dw_model::{Refusal, Statement, Word};
use dw_value::List;

/// How far a session has come with the last statement that it took.
#[derive(Clone, Copy, Debug, PartialEq, Eq)]
pub(crate) enum Stage {
    /// It is done with, and the next one is to be taken.
    Between,
    /// It is open.
    Opened,
    /// It is answered outside a block, and its commit is due.
    Answered,
    /// The script is at its end.
    Ended,
}

/// What is kept of a session.
#[derive(Debug, Drop)]
pub(crate) struct Session {
    /// How many statements of its script it has taken.
    pub(crate) taken: u32,
    pub(crate) stage: Stage,
    pub(crate) block: BlockState,
    /// Its open transaction.
    pub(crate) transaction: Option<Transaction>,
    /// Whom it waits for, where its newest event is a wait.
    pub(crate) waits: Option<List<u32>>,
}

impl Session {
    /// A session that has done nothing yet.
    pub(crate) fn fresh() -> Session
        ensures { result ≡ record {
          taken = 0;
          stage = stage.Between;
          block = blocks.Outside;
          transaction = None;
          waits = None;
        } }
    {
        Session {
            taken: 0,
            stage: Stage::Between,
            block: BlockState::Outside,
            transaction: None,
            waits: None,
        }
    }

    /// The session has this event. What an opened statement takes has been kept before, and so has whom it waits for.
    fn advance(&mut self, world: &World, event: &Event)
        ensures { self.new ≡ session_after world.now event.now self.old }
    {
        self.taken = statements_after(event, self.taken);
        self.block = block_after(world, event, self.block);
        self.stage = stage_after(event, self.block);
        if ends_transaction(event) {
            self.transaction = None;
        }
        if !matches!(event, Event::Wait { .. }) {
            self.waits = None;
        }
    }
}

/// The event is put after the others, for which there is room, and its session has it. Where its transaction ends, its
/// locks are released.
pub(crate) fn put(
    world: &World,
    locks: &mut Locks,
    sessions: &mut Vec<Session>,
    events: &mut Vec<Event>,
    session: u32,
    event: Event,
)
    requires first { 1 ≤ session }
    requires within { session - 1 < vec_len sessions.old }
    requires locked { session < length locks.old }
    requires room { vec_len events.old < vec_capacity events.old }
    ensures locks { locks.new ≡ locks_after event session locks.old }
    ensures kept { (kept : Kept) → slice_get sessions.old.items (session - 1) ≡ Some kept
        → sessions.new.items ≡ slice_set sessions.old.items (session - 1) (session_after world.now event kept) }
    ensures items { events.new.items ≡ events.old.items ++ event ∷ [] }
    ensures len { vec_len events.new ≡ vec_len events.old + 1 }
    ensures capacity { vec_capacity events.old ≤ vec_capacity events.new }
{
    if ends_transaction(&event) {
        locks.release(session);
    }
    sessions[place_of(session)].advance(world, &event);
    let _ = events.push(event);
}

/// The statement of this number of a session's script, from 1. Session 0 has no script, and there is no statement 0.
pub(crate) fn given(world: &World, session: u32, number: usize) -> Option<&Given>
    ensures { option_copied result ≡ given_at world.now session number }
{
    if session == 0 || number == 0 {
        return None;
    }
    match world.scripts.get(place_of(session)) {
        Some(script) => script.get(number - 1),
        None => None,
    }
}

/// How many statements a session has taken once it has this event.
fn statements_after(event: &Event, before: u32) -> u32
    ensures { result ≡ statements_after event.now before }
{
    match event {
        Event::Begin { statement, .. }
        | Event::Pass { statement, .. }
        | Event::Opened { statement, .. }
        | Event::Answer { statement, .. }
        | Event::Commit { statement, .. }
        | Event::Violation { statement, .. }
        | Event::Refuse { statement, .. }
        | Event::Rollback { statement, .. }
        | Event::VacuumBegin { statement, .. }
        | Event::VacuumSlice { statement, .. }
        | Event::VacuumEnd { statement, .. } => *statement,
        Event::Wait { .. } | Event::Refresh { .. } | Event::End { .. } => before,
    }
}

/// Where a session stands once it has this event.
fn block_after(world: &World, event: &Event, before: BlockState) -> BlockState
    ensures { result ≡ block_after world.now event.now before }
{
    match event {
        Event::Begin { .. } => BlockState::Within,
        Event::Pass { word, .. } => block_passed(*word, before),
        Event::Refuse {
            session,
            statement,
            refusal,
        } => block_refused(given(world, *session, *statement as usize), refusal, before),
        Event::Commit { .. }
        | Event::Violation { .. }
        | Event::Rollback { .. }
        | Event::End { .. } => BlockState::Outside,
        Event::Wait { .. }
        | Event::Opened { .. }
        | Event::Answer { .. }
        | Event::VacuumBegin { .. }
        | Event::VacuumSlice { .. }
        | Event::VacuumEnd { .. }
        | Event::Refresh { .. } => before,
    }
}

/// Where a session stands once a word passes.
fn block_passed(word: Word, before: BlockState) -> BlockState
    ensures { result ≡ passed_in word before }
{
    if matches!(word, Word::Commit) {
        BlockState::Outside
    } else {
        before
    }
}

/// Where a session stands once this statement is refused.
fn block_refused(given: Option<&Given>, refusal: &Refusal, before: BlockState) -> BlockState
    ensures { result ≡ block_refused (read_in (option_copied given.entry)) refusal.now before }
{
    let is_commit = matches!(given, Some(Given::Read(Statement::Commit)));
    if is_commit && matches!(refusal, Refusal::Memory) {
        return BlockState::Outside;
    }
    match before {
        BlockState::Outside => BlockState::Outside,
        BlockState::Within | BlockState::Aborted => BlockState::Aborted,
    }
}

/// How far a session has come once it has this event, after which it stands in this block.
fn stage_after(event: &Event, block: BlockState) -> Stage
    ensures { result ≡ stage_after event.now block }
{
    match event {
        Event::Opened { .. } => Stage::Opened,
        Event::Answer { .. } => answered_stage(block),
        Event::End { .. } => Stage::Ended,
        _ => Stage::Between,
    }
}

/// How far a session has come once its open statement is answered.
fn answered_stage(block: BlockState) -> Stage
    ensures { result ≡ answered_stage block }
{
    match block {
        BlockState::Outside => Stage::Answered,
        BlockState::Within | BlockState::Aborted => Stage::Between,
    }
}

/// Whether the session's transaction ends with this event.
fn ends_transaction(event: &Event) -> bool
    ensures { result ≡ ends_transaction event.now }
{
    matches!(
        event,
        Event::Commit { .. }
            | Event::Violation { .. }
            | Event::Refuse { .. }
            | Event::Rollback { .. }
            | Event::End { .. }
    )
}
