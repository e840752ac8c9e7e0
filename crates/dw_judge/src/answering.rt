//! Whether an answer is legal, and what it makes of its transaction.
ghost use Rattle.std.specs.Prelude.{◌≡◌, Some, IfOk};
ghost use Rattle.std.specs.Bool.{Decides};
ghost use Rattle.dw_journal.specs.Legal.{IsLegalAnswer};
ghost use Rattle.dw_journal.specs.Worlds.{statement_at};
ghost use Rattle.dw_judge.specs.AnswersJudged.{IsAnswering, IsChecked, is_answered_so};

use crate::sames::is_same_answer;
use crate::scripts::statement_at;
use crate::sessions::OpenOne;
use dw_commit::{Replied, View, reply};
use dw_journal::World;
use dw_model::{Answer, Database, Statement};
use dw_value::List;
use std::alloc::{AllocError, Global};

/// What comes of an answer.
#[derive(Debug, Drop)]
pub(crate) enum Answered {
    /// It is legal, and its transaction, if one is open, is now this one.
    Legal(Option<OpenOne>),
    /// It isn't legal.
    NotLegal,
}

/// Runs the open statement on what its session sees: its transaction's view, or the committed database where no
/// transaction is open.
pub(crate) fn judge_answer(
    alloc: Global,
    world: &World,
    session: u32,
    statement: u32,
    database: &Database,
    transaction: Option<OpenOne>,
    answer: &Answer,
) -> Result<Answered, AllocError>
    ensures { IfOk result (IsAnswering world.now.files (statement_at world.now session statement) database.now
        transaction answer.now) }
{
    let Some(given) = statement_at(world, session, statement as u64) else {
        return Ok(Answered::NotLegal);
    };
    match transaction {
        Some(one) => {
            let OpenOne { taken, view } = one;
            let replied = reply(alloc, given, &world.files, view)?;
            match checked(replied, answer) {
                Some(view) => Ok(Answered::Legal(Some(OpenOne { taken, view }))),
                None => Ok(Answered::NotLegal),
            }
        }
        None => {
            let alone = is_answered_alone(alloc, world, given, database, answer)?;
            if alone {
                Ok(Answered::Legal(None))
            } else {
                Ok(Answered::NotLegal)
            }
        }
    }
}

/// Whether a statement that is run on the database answers so.
fn is_answered_alone(
    alloc: Global,
    world: &World,
    given: &Statement,
    database: &Database,
    answer: &Answer,
) -> Result<bool, AllocError>
    ensures { IfOk result (λ alone. Decides alone
        (IsLegalAnswer world.now.files (Some given.now) database.now answer.now)) }
{
    let view = View {
        database: database.copy()?,
        changes: List::new(alloc),
    };
    let replied = reply(alloc, given, &world.files, view)?;
    Ok(is_answered_so(&replied, answer))
}

/// Whether a statement was answered so.
fn is_answered_so(replied: &Replied, answer: &Answer) -> bool
    ensures { result ≡ is_answered_so replied.now answer.now }
{
    match replied {
        Replied::Answered { answer: found, .. } => is_same_answer(found, answer),
        Replied::Refused(_) => false,
    }
}

/// The view after a statement that was answered so.
fn checked(replied: Replied, answer: &Answer) -> Option<View>
    ensures { IsChecked replied answer.now result }
{
    match replied {
        Replied::Answered {
            answer: found,
            view,
        } => {
            if is_same_answer(&found, answer) {
                Some(view)
            } else {
                None
            }
        }
        Replied::Refused(_) => None,
    }
}
