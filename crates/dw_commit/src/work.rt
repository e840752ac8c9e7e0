//! An open statement, run on its session's view.
ghost use Rattle.std.specs.Prelude.{IfOk};
ghost use Rattle.dw_commit.specs.Replies.{IsReply};

use crate::views::View;
use dw_model::{Answer, FileMap, Outcome, Refusal, Statement, limit_refusal};
use dw_plain::plain_outcome;
use std::alloc::{AllocError, Global};

/// What an open statement gives.
#[derive(Debug, Drop)]
pub enum Replied {
    /// The answer, and what its session then sees.
    Answered { answer: Answer, view: View },
    /// The refusal. The view is gone.
    Refused(Refusal),
}

/// What a statement gives that is run on a view beside the files that were handed in. It changes the view's database in
/// place, and its change is kept there, moved and not copied. A refused one ends its transaction, so the view goes.
pub fn reply(
    alloc: Global,
    statement: &Statement,
    files: &FileMap,
    view: View,
) -> Result<Replied, AllocError>
    ensures { IfOk result (IsReply files.now statement.now view) }
{
    let View {
        mut database,
        mut changes,
    } = view;
    match plain_outcome(alloc, statement, &database, files)? {
        Ok(outcome) => {
            let Outcome { answer, change } = outcome;
            database.apply(&change)?;
            if let Some(refusal) = limit_refusal(statement, &database) {
                return Ok(Replied::Refused(refusal));
            }
            changes.push(change)?;
            let view = View { database, changes };
            Ok(Replied::Answered { answer, view })
        }
        Err(refusal) => Ok(Replied::Refused(refusal)),
    }
}
