//! One step of a session.
ghost use Rattle.std.specs.Prelude.{◌≡◌, OnOk, OnErr};
ghost use Rattle.dw_core.specs.declared.cores.Next.TheVariants as next;
ghost use Rattle.dw_core.specs.Readers.{MeansTurn};
ghost use Rattle.dw_journal.specs.Worlds.{IsSession};
ghost use Rattle.dw_journal.specs.Turns.{Commits};
ghost use Rattle.dw_engine.specs.NextStatements.{IsTaking};
ghost use Rattle.dw_engine.specs.Steps.{IsStep};

use crate::demands::{Demand, demand_of};
use crate::engines::Engine;
use dw_core::Next;
use dw_journal::BlockState;
use dw_model::Word;
use std::alloc::AllocError;

impl Engine {
    /// The session does its one step, which is the event that is due of it, or nothing where its script is at its end.
    /// Where memory runs out for an open statement, or for the certifier at a commit, that statement is refused; where
    /// it runs out for any other step, the error is given, and nothing has happened.
    pub fn step(&mut self, session: u32) -> Result<(), AllocError>
        requires session { IsSession self.old.world session }
        ensures step { OnOk result (IsStep session self.old self.new) }
        ensures err { OnErr result (self.new ≡ self.old) }
    {
        match self.core.next(session) {
            Next::Nothing => Ok(()),
            Next::Answer => {
                self.answer(session);
                Ok(())
            }
            Next::Commit => self.commit(session),
            Next::Take => self.take(session),
            Next::End => self.end(session),
        }
    }

    /// The session's next statement is taken.
    fn take(&mut self, session: u32) -> Result<(), AllocError>
        requires session { IsSession self.old.world session }
        requires take { MeansTurn self.old session next.Take }
        ensures step { OnOk result (IsStep session self.old self.new) }
        ensures err { OnErr result (self.new ≡ self.old) }
    {
        match demand_of(&self.core, session)? {
            Demand::Begin => self.begin(session),
            Demand::Commit => self.commit_block(session),
            Demand::Rollback => self.roll_back(session),
            Demand::Work => self.open(session),
            Demand::Foreign(refusal) => self.decline(session, refusal),
        }
    }

    /// COMMIT decides on the commit of its block's transaction. It passes outside of a block, and in one in which no
    /// statement was opened. An aborted block ends without a trace.
    fn commit_block(&mut self, session: u32) -> Result<(), AllocError>
        requires session { IsSession self.old.world session }
        requires taking { IsTaking self.old session Commits }
        ensures step { OnOk result (IsStep session self.old self.new) }
        ensures err { OnErr result (self.new ≡ self.old) }
    {
        match self.core.block(session) {
            BlockState::Outside => self.pass(session, Word::Commit),
            BlockState::Within => {
                if self.core.transaction(session).is_none() {
                    self.pass(session, Word::Commit)
                } else {
                    self.commit(session)
                }
            }
            BlockState::Aborted => {
                self.leave(session);
                Ok(())
            }
        }
    }
}
