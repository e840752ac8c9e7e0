//! What is due of a session, and whether an event is due.
ghost use Rattle.std.specs.Prelude.{◌≡◌, Some};
ghost use Rattle.std.specs.Option.{option_copied};
ghost use Rattle.dw_model.specs.declared.answers.Word.TheVariants as words;
ghost use Rattle.dw_journal.specs.Turns.{call_of, turn_after, sweeping};
ghost use Rattle.dw_judge.specs.Dues.{is_answer_of, is_begin_of, is_begin_taken, is_commit_taken, is_decision_of, is_due_at, is_end_of_script, is_idle_sweep, is_opening_of, is_pass_of, is_refusal_of, is_rollback_of, is_rollback_taken, is_slice_of, is_sweep_end_of, is_sweep_opening_of, is_sweep_taken, is_taken_of, is_work_taken, same_word, turn_between, turn_kept, word_number};

use crate::scripts::given;
use dw_journal::{BlockState, Event, Given, Shape, World};
use dw_model::{Statement, Word};
use dw_value::Text;

/// What is due of a session. A statement is named by its number.
#[derive(Clone, Copy, Debug)]
pub(crate) enum Due {
    /// Nothing: its script is at its end.
    Nothing,
    /// The answer of its open statement.
    Answer(u64),
    /// The commit of a statement that was answered outside a block.
    Commit(u64),
    /// A slice of its vacuum.
    Slice { statement: u64, slice: u64 },
    /// The end of its vacuum.
    SweepEnd(u64),
    /// Its next statement, or its script's end where there is no such statement.
    Take(u64),
    /// A vacuum of the background worker.
    Idle,
}

/// What is due of a session that stands in this block, has taken so many statements, and has this newest event.
pub(crate) fn due_of(
    world: &World,
    shape: Shape,
    session: u32,
    block: BlockState,
    taken: u32,
    newest: Option<&Event>,
) -> Due
    ensures { turn_kept world.now session result
        ≡ turn_after shape block (option_copied newest.entry) (turn_between world.now session taken) }
{
    match newest {
        Some(event) => due_after(world, shape, session, block, taken, event),
        None => due_between(world, session, taken),
    }
}

/// What is due after this event of the session.
fn due_after(
    world: &World,
    shape: Shape,
    session: u32,
    block: BlockState,
    taken: u32,
    event: &Event,
) -> Due
    ensures { turn_kept world.now session result
        ≡ turn_after shape block (Some event.now) (turn_between world.now session taken) }
{
    match event {
        Event::Opened { statement, .. } => Due::Answer(*statement as u64),
        Event::Answer { statement, .. } => match block {
            BlockState::Outside => Due::Commit(*statement as u64),
            BlockState::Within | BlockState::Aborted => due_between(world, session, taken),
        },
        Event::VacuumBegin { statement, .. } => due_sweeping(world, session, shape, *statement, 0),
        Event::VacuumSlice {
            statement,
            slice,
            ..
        } => due_sweeping(world, session, shape, *statement, *slice as u64 + 1),
        Event::End { .. } => Due::Nothing,
        _ => due_between(world, session, taken),
    }
}

/// What is due of a session that has nothing under way.
fn due_between(world: &World, session: u32, taken: u32) -> Due
    ensures { turn_kept world.now session result ≡ turn_between world.now session taken }
{
    let _scripts = &world.scripts;
    if session == 0 {
        Due::Idle
    } else {
        Due::Take(taken as u64 + 1)
    }
}

/// What is due of a vacuum that comes to this slice.
fn due_sweeping(world: &World, session: u32, shape: Shape, statement: u32, slice: u64) -> Due
    ensures { turn_kept world.now session result ≡ sweeping shape statement slice }
{
    let _scripts = &world.scripts;
    if slice < shape.nodes as u64 * shape.slices as u64 {
        Due::Slice {
            statement: statement as u64,
            slice,
        }
    } else {
        Due::SweepEnd(statement as u64)
    }
}

/// Whether the event is due of its session, which stands in this block, with a transaction that is open or not.
pub(crate) fn is_due(
    world: &World,
    session: u32,
    block: BlockState,
    is_open: bool,
    due: Due,
    event: &Event,
) -> bool
    ensures { result ≡ is_due_at block is_open (turn_kept world.now session due) event.now }
{
    match due {
        Due::Nothing => false,
        Due::Answer(k) => is_answer(k, event),
        Due::Commit(k) => is_decision(k, event),
        Due::Slice { statement, slice } => is_slice(statement, slice, event),
        Due::SweepEnd(k) => is_sweep_end(k, event),
        Due::Take(k) => match given(world, session, k) {
            Some(given) => is_taken(k, given, block, is_open, event),
            None => matches!(event, Event::End { .. }),
        },
        Due::Idle => is_idle_sweep(event),
    }
}

/// Whether the event is one that comes of the next statement.
fn is_taken(k: u64, given: &Given, block: BlockState, is_open: bool, event: &Event) -> bool
    ensures { result ≡ is_taken_of k (call_of given.now) block is_open event.now }
{
    match given {
        Given::Refused(_) => is_refusal(k, event),
        Given::Read(statement) => match statement {
            Statement::Begin => is_begin_taken(k, block, event),
            Statement::Commit => is_commit_taken(k, block, is_open, event),
            Statement::Rollback => is_rollback_taken(k, block, event),
            Statement::Vacuum { table } => is_sweep_taken(k, table, block, event),
            Statement::Create { .. }
            | Statement::Drop { .. }
            | Statement::Lock { .. }
            | Statement::Insert { .. }
            | Statement::Select { .. } => { is_work_taken(k, block, event) }
        },
    }
}

fn is_begin_taken(k: u64, block: BlockState, event: &Event) -> bool
    ensures { result ≡ is_begin_taken k block event.now }
{
    match block {
        BlockState::Outside => is_begin(k, event),
        BlockState::Within => is_pass(k, Word::Begin, event),
        BlockState::Aborted => is_refusal(k, event),
    }
}

fn is_commit_taken(k: u64, block: BlockState, is_open: bool, event: &Event) -> bool
    ensures { result ≡ is_commit_taken k block is_open event.now }
{
    match block {
        BlockState::Outside => is_pass(k, Word::Commit, event),
        BlockState::Within => {
            if is_open {
                is_decision(k, event)
            } else {
                is_pass(k, Word::Commit, event)
            }
        }
        BlockState::Aborted => is_rollback(k, event),
    }
}

fn is_rollback_taken(k: u64, block: BlockState, event: &Event) -> bool
    ensures { result ≡ is_rollback_taken k block event.now }
{
    match block {
        BlockState::Outside => is_pass(k, Word::Rollback, event),
        BlockState::Within | BlockState::Aborted => is_rollback(k, event),
    }
}

fn is_sweep_taken(k: u64, table: &Text, block: BlockState, event: &Event) -> bool
    ensures { result ≡ is_sweep_taken k table.now block event.now }
{
    match block {
        BlockState::Outside => is_sweep_opening(k, table, event),
        BlockState::Within | BlockState::Aborted => is_refusal(k, event),
    }
}

fn is_work_taken(k: u64, block: BlockState, event: &Event) -> bool
    ensures { result ≡ is_work_taken k block event.now }
{
    match block {
        BlockState::Outside | BlockState::Within => is_opening(k, event),
        BlockState::Aborted => is_refusal(k, event),
    }
}

fn is_begin(k: u64, event: &Event) -> bool
    ensures { result ≡ is_begin_of k event.now }
{
    match event {
        Event::Begin { statement, .. } => *statement as u64 == k,
        _ => false,
    }
}

fn is_pass(k: u64, word: Word, event: &Event) -> bool
    ensures { result ≡ is_pass_of k word event.now }
{
    match event {
        Event::Pass {
            statement,
            word: passed,
            ..
        } => *statement as u64 == k && is_same_word(*passed, word),
        _ => false,
    }
}

fn is_rollback(k: u64, event: &Event) -> bool
    ensures { result ≡ is_rollback_of k event.now }
{
    match event {
        Event::Rollback { statement, .. } => *statement as u64 == k,
        _ => false,
    }
}

fn is_refusal(k: u64, event: &Event) -> bool
    ensures { result ≡ is_refusal_of k event.now }
{
    match event {
        Event::Refuse { statement, .. } => *statement as u64 == k,
        _ => false,
    }
}

fn is_answer(k: u64, event: &Event) -> bool
    ensures { result ≡ is_answer_of k event.now }
{
    match event {
        Event::Answer { statement, .. } | Event::Refuse { statement, .. } => {
            *statement as u64 == k
        }
        _ => false,
    }
}

fn is_decision(k: u64, event: &Event) -> bool
    ensures { result ≡ is_decision_of k event.now }
{
    match event {
        Event::Commit { statement, .. }
        | Event::Violation { statement, .. }
        | Event::Refuse { statement, .. } => *statement as u64 == k,
        _ => false,
    }
}

fn is_opening(k: u64, event: &Event) -> bool
    ensures { result ≡ is_opening_of k event.now }
{
    match event {
        Event::Wait { statement, .. }
        | Event::Refuse { statement, .. }
        | Event::Opened { statement, .. } => *statement as u64 == k,
        _ => false,
    }
}

fn is_sweep_opening(k: u64, table: &Text, event: &Event) -> bool
    ensures { result ≡ is_sweep_opening_of k table.now event.now }
{
    match event {
        Event::Wait { statement, .. } | Event::Refuse { statement, .. } => *statement as u64 == k,
        Event::VacuumBegin {
            statement,
            table: swept,
            ..
        } => *statement as u64 == k && swept == table,
        _ => false,
    }
}

fn is_slice(k: u64, slice: u64, event: &Event) -> bool
    ensures { result ≡ is_slice_of k slice event.now }
{
    match event {
        Event::VacuumSlice {
            statement,
            slice: rebuilt,
            ..
        } => *statement as u64 == k && *rebuilt as u64 == slice,
        _ => false,
    }
}

fn is_sweep_end(k: u64, event: &Event) -> bool
    ensures { result ≡ is_sweep_end_of k event.now }
{
    match event {
        Event::VacuumEnd { statement, .. } => *statement as u64 == k,
        _ => false,
    }
}

fn is_idle_sweep(event: &Event) -> bool
    ensures { result ≡ is_idle_sweep event.now }
{
    match event {
        Event::VacuumBegin { statement, .. } => *statement == 0,
        _ => false,
    }
}

/// Whether two words are the same.
pub(crate) fn is_same_word(a: Word, b: Word) -> bool
    ensures { result ≡ same_word a b }
{
    number_of(a) == number_of(b)
}

fn number_of(word: Word) -> u8
    ensures { result ≡ word_number word }
{
    match word {
        Word::Begin => 0,
        Word::Commit => 1,
        Word::Rollback => 2,
        Word::CreateTable => 3,
        Word::DropTable => 4,
        Word::LockTable => 5,
        Word::Insert => 6,
        Word::Select => 7,
    }
}
