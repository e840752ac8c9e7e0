//! What the next statement of a session calls for.
ghost use Rattle.std.specs.Prelude.{IfOk};
ghost use Rattle.dw_core.specs.declared.cores.Next.TheVariants as next;
ghost use Rattle.dw_core.specs.Readers.{MeansTurn};
ghost use Rattle.dw_journal.specs.Worlds.{IsSession};
ghost use Rattle.dw_engine.specs.EngineInvariant.{HaveNoVacuum};
ghost use Rattle.dw_engine.specs.NextStatements.{MeansDemand};

use dw_core::Core;
use dw_journal::Given;
use dw_model::{Refusal, Statement};
use std::alloc::AllocError;

/// What a statement that is taken calls for.
#[derive(Debug, Drop)]
pub(crate) enum Demand {
    /// The begin of a block.
    Begin,
    /// A commit.
    Commit,
    /// A rollback.
    Rollback,
    /// It is run on what the session sees.
    Work,
    /// It isn't in the grammar, and this is its refusal.
    Foreign(Refusal),
}

/// What the session's next statement calls for.
pub(crate) fn demand_of(core: &Core, session: u32) -> Result<Demand, AllocError>
    requires session { IsSession core.now.world session }
    requires no_vacuum { HaveNoVacuum core.now.world }
    requires take { MeansTurn core.now session next.Take }
    ensures { IfOk result (MeansDemand core.now session) }
{
    match core.given(session) {
        Some(Given::Read(statement)) => match statement {
            Statement::Begin => Ok(Demand::Begin),
            Statement::Commit => Ok(Demand::Commit),
            Statement::Rollback => Ok(Demand::Rollback),
            Statement::Create { .. }
            | Statement::Drop { .. }
            | Statement::Lock { .. }
            | Statement::Insert { .. }
            | Statement::Select { .. } => Ok(Demand::Work),
            Statement::Vacuum { .. } => unreachable!(),
        },
        Some(Given::Refused(refusal)) => Ok(Demand::Foreign(refusal.copy()?)),
        None => unreachable!(),
    }
}
