//! The opening of a statement that is run on what its session sees.
ghost use Rattle.std.specs.Prelude.{◌≡◌, ◌≢◌, [], OnOk, OnErr, IfOk};
ghost use Rattle.dw_journal.specs.declared.BlockState.TheVariants as blocks;
ghost use Rattle.dw_journal.specs.Worlds.{IsSession};
ghost use Rattle.dw_journal.specs.Blocks.{block_of};
ghost use Rattle.dw_journal.specs.Contents.{view};
ghost use Rattle.dw_journal.specs.Turns.{number_due};
ghost use Rattle.dw_journal.specs.Legal.{IsNextEvent, blockers_of};
ghost use Rattle.dw_core.specs.DueEvents.{opening_due};
ghost use Rattle.dw_engine.specs.NextStatements.{IsTakingWork, bound_refusal_of};
ghost use Rattle.dw_engine.specs.Steps.{IsStep};

use crate::engines::Engine;
use dw_commit::View;
use dw_journal::{BlockState, Given, place_of};
use dw_locks::Asked;
use dw_model::{Database, Refusal};
use dw_plain::bound_refusal;
use dw_value::List;
use std::alloc::AllocError;

impl Engine {
    /// The next statement asks for its locks, and is opened once it has them. In an aborted block it is refused.
    pub(crate) fn open(&mut self, session: u32) -> Result<(), AllocError>
        requires session { IsSession self.old.world session }
        requires work { IsTakingWork self.old session }
        ensures step { OnOk result (IsStep session self.old self.new) }
        ensures err { OnErr result (self.new ≡ self.old) }
    {
        match self.core.block(session) {
            BlockState::Aborted => self.decline(session, Refusal::Aborted),
            BlockState::Outside | BlockState::Within => self.ask(session),
        }
    }

    /// The next statement asks for its locks. Where other sessions hold locks in their way it waits for them, or is
    /// refused where it would close a cycle; else it is opened.
    fn ask(&mut self, session: u32) -> Result<(), AllocError>
        requires session { IsSession self.old.world session }
        requires work { IsTakingWork self.old session }
        requires stands { block_of self.old session ≢ blocks.Aborted }
        ensures step { OnOk result (IsStep session self.old self.new) }
        ensures err { OnErr result (self.new ≡ self.old) }
    {
        let wants = self.core.wants(session)?;
        match self.core.ask(session, &wants)? {
            Asked::Granted => self.open_granted(session),
            Asked::Waits { .. } => Ok(()),
            Asked::Deadlock { .. } => {
                self.views[place_of(session)] = None;
                Ok(())
            }
        }
    }

    /// The next statement, which no lock stands in the way of, is opened where its names and kinds fit what the session
    /// sees; else it is refused.
    fn open_granted(&mut self, session: u32) -> Result<(), AllocError>
        requires session { IsSession self.old.world session }
        requires work { IsTakingWork self.old session }
        requires stands { block_of self.old session ≢ blocks.Aborted }
        requires free { blockers_of self.old session (number_due self.old session) ≡ [] }
        ensures step { OnOk result (IsStep session self.old self.new) }
        ensures err { OnErr result (self.new ≡ self.old) }
    {
        match self.refusal_of(session)? {
            Some(refusal) => self.decline(session, refusal),
            None => self.opened(session),
        }
    }

    /// The refusal of the next statement whose names or kinds don't fit what the session sees.
    fn refusal_of(&self, session: u32) -> Result<Option<Refusal>, AllocError>
        requires session { IsSession self.now.world session }
        requires work { IsTakingWork self.now session }
        ensures { IfOk result (λ refusal. refusal ≡ bound_refusal_of self.now session) }
    {
        let Some(Given::Read(statement)) = self.core.given(session) else {
            unreachable!()
        };
        bound_refusal(statement, self.seen(session))
    }

    /// What the session sees: its view, or the newest database.
    fn seen(&self, session: u32) -> &Database
        requires session { IsSession self.now.world session }
        ensures { result.now ≡ view self.now session }
    {
        match &self.views[place_of(session)] {
            Some(view) => &view.database,
            None => &self.database,
        }
    }

    /// The statement is opened. Where it is its transaction's first, the session's view is the newest database from now
    /// on.
    fn opened(&mut self, session: u32) -> Result<(), AllocError>
        requires session { IsSession self.old.world session }
        requires next { IsNextEvent self.old (opening_due self.old session) }
        ensures step { OnOk result (IsStep session self.old self.new) }
        ensures err { OnErr result (self.new ≡ self.old) }
    {
        if self.views[place_of(session)].is_some() {
            self.core.opened(session)?;
            return Ok(());
        }
        let view = View {
            database: self.database.copy()?,
            changes: List::new(*self.views.allocator()),
        };
        self.core.opened(session)?;
        self.views[place_of(session)] = Some(view);
        Ok(())
    }
}
