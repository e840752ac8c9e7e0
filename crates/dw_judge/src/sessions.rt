//! What is kept of each session, and what an event of it makes of that.
ghost use Rattle.std.specs.Prelude.{◌≡◌, false, Some, None, slice_get, option_and_then};
ghost use Rattle.std.specs.Option.{option_copied};
ghost use Rattle.dw_journal.specs.Worlds.{read_in};
ghost use Rattle.dw_journal.specs.History.{statements_after};
ghost use Rattle.dw_journal.specs.Blocks.{block_after, block_refused, passed_in};
ghost use Rattle.dw_journal.specs.declared.BlockState.TheVariants as blocks;
ghost use Rattle.dw_judge.specs.Summaries.{sweeps_after};

use crate::scripts::given;
use dw_commit::View;
use dw_journal::{BlockState, Event, Given, Taken, World};
use dw_model::{Refusal, Statement, Word};

/// What is kept of an open transaction.
#[derive(Debug, Drop)]
pub(crate) struct OpenOne {
    /// What it took, the open statement's objects among it.
    pub(crate) taken: Taken,
    /// What it sees.
    pub(crate) view: View,
}

/// What is kept of a session.
#[derive(Debug, Drop)]
pub(crate) struct Session {
    /// How many statements of its script it has taken.
    pub(crate) taken: u32,
    pub(crate) block: BlockState,
    /// The place of its newest event.
    pub(crate) newest: Option<usize>,
    /// Whether its vacuum runs.
    pub(crate) sweeps: bool,
    /// Its open transaction.
    pub(crate) transaction: Option<OpenOne>,
}

impl Session {
    /// A session that has done nothing yet.
    pub(crate) fn fresh() -> Session
        ensures { result
            ≡ record { taken = 0; block = blocks.Outside; newest = None; sweeps = false; transaction = None } }
    {
        Session {
            taken: 0,
            block: BlockState::Outside,
            newest: None,
            sweeps: false,
            transaction: None,
        }
    }
}

/// The newest event of a session among these.
pub(crate) fn newest<'a>(events: &'a [Event], place: Option<usize>) -> Option<&'a Event>
    ensures { option_copied result ≡ option_and_then (slice_get events.now) place }
{
    match place {
        Some(place) => events.get(place),
        None => None,
    }
}

/// How many statements a session has taken once it has this event.
pub(crate) fn statements_after(event: &Event, before: u32) -> u32
    ensures { result ≡ statements_after event.now before }
{
    match event {
        Event::Begin { statement, .. }
        | Event::Pass { statement, .. }
        | Event::Opened { statement, .. }
        | Event::Answer { statement, .. }
        | Event::Commit { statement, .. }
        | Event::Violation { statement, .. }
        | Event::Refuse { statement, .. }
        | Event::Rollback { statement, .. }
        | Event::VacuumBegin { statement, .. }
        | Event::VacuumSlice { statement, .. }
        | Event::VacuumEnd { statement, .. } => *statement,
        Event::Wait { .. } | Event::Refresh { .. } | Event::End { .. } => before,
    }
}

/// Where a session stands once it has this event.
pub(crate) fn block_after(world: &World, event: &Event, before: BlockState) -> BlockState
    ensures { result ≡ block_after world.now event.now before }
{
    match event {
        Event::Begin { .. } => BlockState::Within,
        Event::Pass { word, .. } => block_passed(*word, before),
        Event::Refuse {
            session,
            statement,
            refusal,
        } => block_refused(given(world, *session, *statement as u64), refusal, before),
        Event::Commit { .. }
        | Event::Violation { .. }
        | Event::Rollback { .. }
        | Event::End { .. } => BlockState::Outside,
        Event::Wait { .. }
        | Event::Opened { .. }
        | Event::Answer { .. }
        | Event::VacuumBegin { .. }
        | Event::VacuumSlice { .. }
        | Event::VacuumEnd { .. }
        | Event::Refresh { .. } => before,
    }
}

/// Where a session stands once a word passes.
fn block_passed(word: Word, before: BlockState) -> BlockState
    ensures { result ≡ passed_in word before }
{
    if matches!(word, Word::Commit) {
        BlockState::Outside
    } else {
        before
    }
}

/// Where a session stands once this statement is refused.
fn block_refused(given: Option<&Given>, refusal: &Refusal, before: BlockState) -> BlockState
    ensures { result ≡ block_refused (read_in (option_copied given.entry)) refusal.now before }
{
    let is_commit = matches!(given, Some(Given::Read(Statement::Commit)));
    if is_commit && matches!(refusal, Refusal::Memory) {
        return BlockState::Outside;
    }
    match before {
        BlockState::Outside => BlockState::Outside,
        BlockState::Within | BlockState::Aborted => BlockState::Aborted,
    }
}

/// Whether a session's vacuum runs once the session has this event.
pub(crate) fn sweeps_after(event: &Event, before: bool) -> bool
    ensures { result ≡ sweeps_after event.now before }
{
    match event {
        Event::VacuumBegin { .. } => true,
        Event::VacuumEnd { .. } => false,
        _ => before,
    }
}
