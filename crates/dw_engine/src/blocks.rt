//! The words that begin and end blocks, and the refusal of a statement that is taken.
ghost use Rattle.std.specs.Prelude.{◌≡◌, OnOk, OnErr};
ghost use Rattle.dw_journal.specs.declared.Event.TheVariants as event;
ghost use Rattle.dw_journal.specs.Worlds.{IsSession};
ghost use Rattle.dw_journal.specs.Turns.{Begins, RollsBack, AtEnd, number_due, turn_of};
ghost use Rattle.dw_journal.specs.Legal.{IsNextEvent};
ghost use Rattle.dw_engine.specs.NextStatements.{IsTaking};
ghost use Rattle.dw_engine.specs.Steps.{IsStep};

use crate::engines::Engine;
use dw_journal::{BlockState, place_of};
use dw_model::{Refusal, Word};
use std::alloc::AllocError;

impl Engine {
    /// The next statement is refused, and the session's transaction ends without a trace.
    pub(crate) fn decline(&mut self, session: u32, refusal: Refusal) -> Result<(), AllocError>
        requires session { IsSession self.old.world session }
        requires next { IsNextEvent self.old (event.Refuse session (number_due self.old session) refusal) }
        ensures step { OnOk result (IsStep session self.old self.new) }
        ensures err { OnErr result (self.new ≡ self.old) }
    {
        self.core.declined(session, refusal)?;
        self.views[place_of(session)] = None;
        Ok(())
    }

    /// A BEGIN, COMMIT or ROLLBACK has nothing to do.
    pub(crate) fn pass(&mut self, session: u32, word: Word) -> Result<(), AllocError>
        requires session { IsSession self.old.world session }
        requires next { IsNextEvent self.old (event.Pass session (number_due self.old session) word) }
        ensures step { OnOk result (IsStep session self.old self.new) }
        ensures err { OnErr result (self.new ≡ self.old) }
    {
        self.core.passed(session, word)?;
        Ok(())
    }

    /// The block ends without a trace.
    pub(crate) fn leave(&mut self, session: u32)
        requires session { IsSession self.old.world session }
        requires next { IsNextEvent self.old (event.Rollback session (number_due self.old session)) }
        ensures { IsStep session self.old self.new }
    {
        self.core.rolled_back(session);
        self.views[place_of(session)] = None;
    }

    /// The script is at its end.
    pub(crate) fn end(&mut self, session: u32) -> Result<(), AllocError>
        requires session { IsSession self.old.world session }
        requires end { turn_of self.old session ≡ AtEnd }
        ensures step { OnOk result (IsStep session self.old self.new) }
        ensures err { OnErr result (self.new ≡ self.old) }
    {
        self.core.ended(session)?;
        self.views[place_of(session)] = None;
        Ok(())
    }

    /// BEGIN begins a block; in a block it passes, and in an aborted one it is refused.
    pub(crate) fn begin(&mut self, session: u32) -> Result<(), AllocError>
        requires session { IsSession self.old.world session }
        requires taking { IsTaking self.old session Begins }
        ensures step { OnOk result (IsStep session self.old self.new) }
        ensures err { OnErr result (self.new ≡ self.old) }
    {
        match self.core.block(session) {
            BlockState::Outside => {
                self.core.begun(session)?;
                Ok(())
            }
            BlockState::Within => self.pass(session, Word::Begin),
            BlockState::Aborted => self.decline(session, Refusal::Aborted),
        }
    }

    /// ROLLBACK ends a block; outside of one it passes.
    pub(crate) fn roll_back(&mut self, session: u32) -> Result<(), AllocError>
        requires session { IsSession self.old.world session }
        requires taking { IsTaking self.old session RollsBack }
        ensures step { OnOk result (IsStep session self.old self.new) }
        ensures err { OnErr result (self.new ≡ self.old) }
    {
        match self.core.block(session) {
            BlockState::Outside => self.pass(session, Word::Rollback),
            BlockState::Within | BlockState::Aborted => {
                self.leave(session);
                Ok(())
            }
        }
    }
}
