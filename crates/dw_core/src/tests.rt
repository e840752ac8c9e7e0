//! Sessions whose statements open nothing, driven to their end with ample memory.
ghost use Rattle.std.specs.Prelude.{◌≡◌, ◌<◌, length, IfOk};
ghost use Rattle.dw_journal.specs.Blocks.{block_of};
ghost use Rattle.dw_journal.specs.Worlds.{AreShort, IsSession, session_count};
ghost use Rattle.dw_journal.specs.Turns.{Begins, Commits, RollsBack, Taking, number_due, turn_of};
ghost use Rattle.dw_core.specs.Readers.{MeansTurn};
ghost use Rattle.dw_core.specs.declared.cores.Next.TheVariants as turn;

use crate::{Core, Next};
use dw_journal::{BlockState, Event, Given, Shape, World};
use dw_locks::Asked;
use dw_model::{FileMap, Refusal, Statement, Word};
use dw_value::{List, Text};
use std::alloc::{AllocError, Global};
use std::test::Fail;

/// A script of these letters: BEGIN, COMMIT, ROLLBACK, and for any other a statement that isn't in the grammar.
fn script(alloc: Global, letters: &str) -> Result<List<Given>, AllocError> {
    let mut script = List::new(alloc);
    for letter in letters.chars() {
        script.push(match letter {
            'b' => Given::Read(Statement::Begin),
            'c' => Given::Read(Statement::Commit),
            'r' => Given::Read(Statement::Rollback),
            _ => Given::Refused(Refusal::Syntax { place: 0 }),
        })?;
    }
    Ok(script)
}

/// The scripts of two sessions, and no file.
fn world(alloc: Global, first: List<Given>, second: List<Given>) -> Result<World, AllocError>
    requires first { length first < 100 }
    requires second { length second < 100 }
    ensures { IfOk result (λ world. (session_count world ≡ 2) × AreShort world.scripts) }
{
    let mut scripts = List::new(alloc);
    scripts.push(first)?;
    scripts.push(second)?;
    Ok(World {
        scripts,
        files: FileMap::new(alloc),
    })
}

/// The session's next event.
fn step(core: &mut Core, session: u32) -> Result<(), AllocError>
    requires { IsSession core.old.world session }
    ensures { core.new.world ≡ core.old.world }
{
    match core.next(session) {
        Next::End => core.ended(session),
        Next::Take => take(core, session),
        Next::Nothing | Next::Answer | Next::Commit => Ok(()),
    }
}

/// Takes the session's next statement, where it opens nothing.
fn take(core: &mut Core, session: u32) -> Result<(), AllocError>
    requires session { IsSession core.old.world session }
    requires take { MeansTurn core.old session turn.Take }
    ensures { core.new.world ≡ core.old.world }
{
    let block = core.block(session);
    match core.given(session) {
        Some(Given::Refused(refusal)) => {
            let refusal = refusal.copy()?;
            core.declined(session, refusal)
        }
        Some(Given::Read(Statement::Begin)) => begin(core, session, block),
        Some(Given::Read(Statement::Commit)) => commit(core, session, block),
        Some(Given::Read(Statement::Rollback)) => roll_back(core, session, block),
        _ => Ok(()),
    }
}

fn begin(core: &mut Core, session: u32, block: BlockState) -> Result<(), AllocError>
    requires session { IsSession core.old.world session }
    requires due { turn_of core.old session ≡ Taking (number_due core.old session) Begins }
    requires block { block ≡ block_of core.old session }
    ensures { core.new.world ≡ core.old.world }
{
    match block {
        BlockState::Outside => core.begun(session),
        BlockState::Within => core.passed(session, Word::Begin),
        BlockState::Aborted => core.declined(session, Refusal::Aborted),
    }
}

/// In a block only where nothing was opened in it.
fn commit(core: &mut Core, session: u32, block: BlockState) -> Result<(), AllocError>
    requires session { IsSession core.old.world session }
    requires due { turn_of core.old session ≡ Taking (number_due core.old session) Commits }
    requires block { block ≡ block_of core.old session }
    ensures { core.new.world ≡ core.old.world }
{
    match block {
        BlockState::Outside => core.passed(session, Word::Commit),
        BlockState::Within => match core.transaction(session) {
            Some(_) => Ok(()),
            None => core.passed(session, Word::Commit),
        },
        BlockState::Aborted => {
            core.rolled_back(session);
            Ok(())
        }
    }
}

fn roll_back(core: &mut Core, session: u32, block: BlockState) -> Result<(), AllocError>
    requires session { IsSession core.old.world session }
    requires due { turn_of core.old session ≡ Taking (number_due core.old session) RollsBack }
    requires block { block ≡ block_of core.old session }
    ensures { core.new.world ≡ core.old.world }
{
    match block {
        BlockState::Outside => core.passed(session, Word::Rollback),
        BlockState::Within | BlockState::Aborted => {
            core.rolled_back(session);
            Ok(())
        }
    }
}

/// The letter of an event of a session that opens nothing: Begin, Pass, Refuse, End, and X for a rollback.
fn letter(event: &Event) -> char {
    match event {
        Event::Begin { .. } => 'B',
        Event::Pass { .. } => 'P',
        Event::Refuse { .. } => 'R',
        Event::Rollback { .. } => 'X',
        Event::End { .. } => 'E',
        _ => '?',
    }
}

/// Blocks begin, are aborted by a refusal, and end; words that have nothing to do pass. The second session ends at
/// once.
#[test]
fn blocks_of_a_session(rt: HostRuntime) -> Result<(), Fail> {
    let alloc = rt.alloc();
    let first = script(alloc, "bbxbccbcbrr")?;
    let second = script(alloc, "")?;
    assert!(rt; first.len() < 100 && second.len() < 100);
    let mut core = Core::new(alloc, Shape::standard(2), world(alloc, first, second)?)?;
    assert_eq!(rt; core.next(1), Next::Take);
    for _ in 0..12 {
        step(&mut core, 1)?;
        step(&mut core, 2)?;
    }
    assert_eq!(rt; core.next(1), Next::Nothing);
    assert_eq!(rt; core.block(1), BlockState::Outside);
    let journal = core.into_journal();
    let wanted = "BEPRRXPBPBXPE";
    assert_eq!(rt; journal.events.len(), wanted.len());
    for (event, letter_wanted) in journal.events.as_slice().iter().zip(wanted.chars()) {
        assert_eq!(rt; letter(event), letter_wanted);
    }
    Ok(())
}

/// Whether the locks of the session's next statement are granted, where that is an INSERT outside a block.
fn is_granted(core: &mut Core, session: u32) -> Result<bool, AllocError>
    requires session { IsSession core.old.world session }
    requires take { MeansTurn core.old session turn.Take }
{
    match core.block(session) {
        BlockState::Outside => match core.given(session) {
            Some(Given::Read(Statement::Insert { .. })) => {
                let wants = core.wants(session)?;
                Ok(matches!(core.ask(session, &wants)?, Asked::Granted))
            }
            _ => Ok(false),
        },
        BlockState::Within | BlockState::Aborted => Ok(false),
    }
}

/// An INSERT in whose way nobody stands: nothing happens yet, and nobody holds its table alone.
#[test]
fn locks_are_asked_for(rt: HostRuntime) -> Result<(), Fail> {
    let alloc = rt.alloc();
    let mut first = List::new(alloc);
    first.push(Given::Read(Statement::Insert {
        table: Text::from_str(alloc, "a")?,
        columns: List::new(alloc),
        rows: List::new(alloc),
    }))?;
    let second = script(alloc, "")?;
    assert!(rt; first.len() < 100 && second.len() < 100);
    let mut core = Core::new(alloc, Shape::standard(2), world(alloc, first, second)?)?;
    let table = Text::from_str(alloc, "a")?;
    match core.next(1) {
        Next::Take => assert!(rt; is_granted(&mut core, 1)?),
        _ => assert!(rt; false),
    }
    assert!(rt; core.holder(&table).is_none());
    assert_eq!(rt; core.into_journal().events.len(), 0);
    Ok(())
}
