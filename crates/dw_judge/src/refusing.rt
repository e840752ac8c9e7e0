//! Whether a refusal is legal.
ghost use Rattle.std.specs.Prelude.{◌≡◌, ◌<◌, ◌≤◌, ◌^◌, ◌⊎◌, length, vec_len, reverse, option_map, Some, false, IfOk, IfSome};
ghost use Rattle.std.specs.List.{position};
ghost use Rattle.std.specs.Option.{option_map_or};
ghost use Rattle.std.specs.Bool.{Decides};
ghost use Rattle.dw_model.specs.declared.refusals.Refusal.TheVariants.{Memory};
ghost use Rattle.dw_journal.specs.declared.BlockState.TheVariants as blocks;
ghost use Rattle.dw_journal.specs.Worlds.{given_at, session_count, statement_at};
ghost use Rattle.dw_journal.specs.Locks.{lock_state, wants_of};
ghost use Rattle.dw_journal.specs.Turns.{call_of, call_of_statement, turn_of};
ghost use Rattle.dw_journal.specs.Legal.{IsRefusal, IsWorkRefusal, high_by, low_by, sweep_refusal, table_refusal};
ghost use Rattle.dw_locks.specs.LockTable.{StandsForLocks};
ghost use Rattle.dw_locks.specs.Requests.{answer_to};
ghost use Rattle.dw_judge.specs.Asking.{unless_asked};
ghost use Rattle.dw_judge.specs.Judging.{seen_in};
ghost use Rattle.dw_judge.specs.RefusedNext.{IsCommitKept, IsNextKept, is_block_commit, is_refused_so, opening_kept};
ghost use Rattle.dw_judge.specs.Sames.{same_refusal};
ghost use Rattle.dw_judge.specs.Summaries.{StandsFor};
ghost use Rattle.dw_judge.specs.Verdicts.{history_before};

use crate::asking::{asked, unless_asked};
use crate::dues::Due;
use crate::follows::due_kept;
use crate::marks::bounds_over;
use crate::opening::seen;
use crate::sames::is_same_refusal;
use crate::scripts::{given, statement_at};
use crate::sessions::Session;
use crate::summaries::{Summary, sweeper_of};
use dw_commit::{Replied, View, reply};
use dw_journal::{BlockState, Certified, Given, Journal, World};
use dw_locks::{Asked, Locks};
use dw_model::{Database, Refusal, Statement};
use dw_plain::bound_refusal;
use dw_value::{List, Text};
use std::alloc::{AllocError, Global};

/// Whether the refusal is the first that applies, or one for want of memory where that may come.
pub(crate) fn is_legal_refusal(
    alloc: Global,
    world: &World,
    journal: &Journal,
    place: usize,
    summary: &Summary,
    locks: &Locks,
    session: u32,
    statement: u32,
    refusal: &Refusal,
) -> Result<bool, AllocError>
    requires few { session_count world.now ≤ 64 }
    requires stands { StandsFor journal.now.events (history_before world.now journal.now place) summary.now }
    requires within { session < vec_len summary.now.sessions }
    requires locks { StandsForLocks locks.now (lock_state (history_before world.now journal.now place)) }
    ensures { IfOk result (λ legal. Decides legal (IsRefusal (history_before world.now journal.now place) session
        statement refusal.now (turn_of (history_before world.now journal.now place) session))) }
{
    let kept = &summary.sessions[session as usize];
    let due = due_kept(world, journal, session, kept);
    match due {
        Due::Answer(_) => is_work_refusal(
            alloc,
            world,
            &summary.database,
            kept,
            session,
            statement,
            refusal,
        ),
        Due::Commit(_) => Ok(is_commit_refusal(summary.commits.as_slice(), kept, refusal)),
        Due::Take(k) => is_next_refusal(alloc, world, summary, locks, session, k, kept, refusal),
        Due::Nothing | Due::Slice { .. } | Due::SweepEnd(_) | Due::Idle => Ok(false),
    }
}

/// Whether an open statement may be refused so: for want of memory, or as it is when it is run on what its session
/// sees.
fn is_work_refusal(
    alloc: Global,
    world: &World,
    database: &Database,
    kept: &Session,
    session: u32,
    statement: u32,
    refusal: &Refusal,
) -> Result<bool, AllocError>
    ensures { IfOk result (λ legal. Decides legal ((refusal.now ≡ Memory) ⊎ IsWorkRefusal world.now.files
        (statement_at world.now session statement) (seen_in database.now kept.now.transaction) refusal.now)) }
{
    if is_memory(refusal) {
        return Ok(true);
    }
    let Some(open_one) = statement_at(world, session, statement as u64) else {
        return Ok(false);
    };
    let view = View {
        database: seen(database, kept).copy()?,
        changes: List::new(alloc),
    };
    let replied = reply(alloc, open_one, &world.files, view)?;
    Ok(is_refused_so(&replied, refusal))
}

/// Whether a statement was refused with this refusal.
fn is_refused_so(replied: &Replied, refusal: &Refusal) -> bool
    ensures { result ≡ is_refused_so replied.now refusal.now }
{
    match replied {
        Replied::Answered { .. } => false,
        Replied::Refused(found) => is_same_refusal(found, refusal),
    }
}

fn is_memory(refusal: &Refusal) -> bool
    ensures { Decides result (refusal.now ≡ Memory) }
{
    match refusal {
        Refusal::Memory => true,
        _ => false,
    }
}

/// Whether a commit may be refused so: for want of memory, where it would be legal.
fn is_commit_refusal(commits: &[Certified], kept: &Session, refusal: &Refusal) -> bool
    ensures { Decides result (IsCommitKept (reverse commits.now) kept.now.transaction refusal.now) }
{
    match &kept.transaction {
        Some(one) => {
            let bounds = bounds_over(commits, &one.taken);
            is_memory(refusal) && bounds.high < bounds.low
        }
        None => false,
    }
}

/// Whether the statement of this number, which is the next one, may be refused so. Where there is none, nothing is.
fn is_next_refusal(
    alloc: Global,
    world: &World,
    summary: &Summary,
    locks: &Locks,
    session: u32,
    k: u64,
    kept: &Session,
    refusal: &Refusal,
) -> Result<bool, AllocError>
    requires few { vec_len summary.now.sessions < 2 ^ 32 }
    requires entry { session < length locks.now }
    ensures { IfOk result (λ legal. Decides legal (IsNextKept summary.now.database
        (seen_in summary.now.database kept.now.transaction) (position (λ one. one.sweeps) summary.now.sessions.items)
        (answer_to locks.now session (wants_of world.now session k))
        (reverse summary.now.commits.items) kept.now.transaction refusal.now
        (given_at world.now session k) kept.now.block)) }
{
    let Some(given) = given(world, session, k) else {
        return Ok(false);
    };
    if is_block_commit(given, kept.block) {
        return Ok(is_commit_refusal(summary.commits.as_slice(), kept, refusal));
    }
    let swept = sweeper_of(summary.sessions.as_slice());
    let asked = asked(alloc, locks, session, Some(given))?;
    let found = opening_refusal(
        swept,
        &asked,
        &summary.database,
        seen(&summary.database, kept),
        given,
        kept.block,
    )?;
    Ok(is_found(&found, refusal))
}

/// Whether the refusal was found.
fn is_found(found: &Option<Refusal>, refusal: &Refusal) -> bool
    ensures { result ≡ option_map_or (λ one. same_refusal one refusal.now) found.now false }
{
    match found {
        Some(found) => is_same_refusal(found, refusal),
        None => false,
    }
}

/// Whether it is a COMMIT in a block.
fn is_block_commit(given: &Given, block: BlockState) -> bool
    ensures { result ≡ is_block_commit (call_of given.now) block }
{
    match given {
        Given::Refused(_) => false,
        Given::Read(statement) => match statement {
            Statement::Commit => match block {
                BlockState::Within => true,
                BlockState::Outside | BlockState::Aborted => false,
            },
            _ => false,
        },
    }
}

/// The first refusal with which a statement isn't opened.
fn opening_refusal(
    swept: Option<usize>,
    asked: &Asked,
    database: &Database,
    seen: &Database,
    given: &Given,
    block: BlockState,
) -> Result<Option<Refusal>, AllocError>
    requires { IfSome swept (λ session. session < 2 ^ 32) }
    ensures { IfOk result (λ found. found
        ≡ opening_kept swept asked.now database.now seen.now (call_of given.now) block) }
{
    match given {
        Given::Refused(refusal) => Ok(Some(refusal.copy()?)),
        Given::Read(statement) => match block {
            BlockState::Outside => outside_refusal(swept, asked, database, seen, statement),
            BlockState::Within => within_refusal(swept, asked, database, seen, statement),
            BlockState::Aborted => Ok(Some(Refusal::Aborted)),
        },
    }
}

/// The same outside a block.
fn outside_refusal(
    swept: Option<usize>,
    asked: &Asked,
    database: &Database,
    seen: &Database,
    statement: &Statement,
) -> Result<Option<Refusal>, AllocError>
    requires { IfSome swept (λ session. session < 2 ^ 32) }
    ensures { IfOk result (λ found. found
        ≡ opening_kept swept asked.now database.now seen.now (call_of_statement statement.now) blocks.Outside) }
{
    match statement {
        Statement::Vacuum { table } => sweep_refusal(swept, asked, database, table),
        Statement::Begin | Statement::Commit | Statement::Rollback => Ok(None),
        Statement::Create { .. }
        | Statement::Drop { .. }
        | Statement::Lock { .. }
        | Statement::Insert { .. }
        | Statement::Select { .. } => { unless_asked(asked, bound_refusal(statement, seen)?) }
    }
}

/// The same in a block.
fn within_refusal(
    swept: Option<usize>,
    asked: &Asked,
    database: &Database,
    seen: &Database,
    statement: &Statement,
) -> Result<Option<Refusal>, AllocError>
    ensures { IfOk result (λ found. found
        ≡ opening_kept swept asked.now database.now seen.now (call_of_statement statement.now) blocks.Within) }
{
    let _len = database.len();
    let _swept = swept;
    match statement {
        Statement::Vacuum { .. } => Ok(Some(Refusal::InBlock)),
        Statement::Begin | Statement::Commit | Statement::Rollback => Ok(None),
        Statement::Create { .. }
        | Statement::Drop { .. }
        | Statement::Lock { .. }
        | Statement::Insert { .. }
        | Statement::Select { .. } => { unless_asked(asked, bound_refusal(statement, seen)?) }
    }
}

/// The refusal of a VACUUM, by the vacuum that runs, by a deadlock or for want of its table.
fn sweep_refusal(
    swept: Option<usize>,
    asked: &Asked,
    database: &Database,
    table: &Text,
) -> Result<Option<Refusal>, AllocError>
    requires { IfSome swept (λ session. session < 2 ^ 32) }
    ensures { IfOk result (λ found. found
        ≡ sweep_refusal swept (unless_asked asked.now (table_refusal table.now database.now))) }
{
    match swept {
        Some(session) => {
            if session == 0 {
                Ok(None)
            } else {
                Ok(Some(Refusal::Vacuuming {
                    session: session as u32,
                }))
            }
        }
        None => unless_asked(asked, table_refusal(database, table)?),
    }
}

/// The refusal where there is no such table.
fn table_refusal(database: &Database, table: &Text) -> Result<Option<Refusal>, AllocError>
    ensures { IfOk result (λ found. found ≡ table_refusal table.now database.now) }
{
    match database.get(table) {
        Some(_) => Ok(None),
        None => Ok(Some(Refusal::Unknown {
            name: table.copy()?,
        })),
    }
}
