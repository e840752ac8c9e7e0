//! The commit of a transaction.
ghost use Rattle.std.specs.Prelude.{◌≡◌, ◌≢◌, ◌≤◌, None, OnOk, OnErr, IfOk};
ghost use Rattle.dw_journal.specs.Worlds.{IsSession};
ghost use Rattle.dw_journal.specs.History.{with_event};
ghost use Rattle.dw_journal.specs.Transactions.{taken_of};
ghost use Rattle.dw_journal.specs.Contents.{contents};
ghost use Rattle.dw_journal.specs.Follows.{FollowsAfter};
ghost use Rattle.dw_journal.specs.Legal.{low_of, high_of};
ghost use Rattle.dw_core.specs.DueEvents.{commit_due};
ghost use Rattle.dw_engine.specs.Steps.{IsStep};

use crate::engines::Engine;
use dw_commit::install;
use dw_core::Committed;
use dw_journal::place_of;
use dw_model::Database;
use std::alloc::AllocError;

impl Engine {
    /// The session's transaction is committed where its low watermark is above its high one, and what it leaves becomes
    /// the newest database. Else it is a violation, which takes no memory. Where there is no memory for what it leaves,
    /// nothing has happened; where there is none for the commit itself, it is refused.
    pub(crate) fn commit(&mut self, session: u32) -> Result<(), AllocError>
        requires session { IsSession self.old.world session }
        requires follows { FollowsAfter self.old (commit_due self.old session) }
        requires taken { taken_of self.old session ≢ None }
        ensures step { OnOk result (IsStep session self.old self.new) }
        ensures err { OnErr result (self.new ≡ self.old) }
    {
        let marks = self.core.marks(session);
        if marks.low <= marks.high {
            self.violate(session);
            return Ok(());
        }
        let next = self.installed(session)?;
        self.admit(session, next);
        Ok(())
    }

    /// The commit is a violation.
    fn violate(&mut self, session: u32)
        requires session { IsSession self.old.world session }
        requires follows { FollowsAfter self.old (commit_due self.old session) }
        requires low { low_of self.old session ≤ high_of self.old session }
        ensures { IsStep session self.old self.new }
    {
        let _ = self.core.commit(session);
        self.views[place_of(session)] = None;
    }

    /// The commit is decided, with what it leaves.
    fn admit(&mut self, session: u32, next: Database)
        requires session { IsSession self.old.world session }
        requires follows { FollowsAfter self.old (commit_due self.old session) }
        requires next { next ≡ contents (with_event self.old (commit_due self.old session)) }
        ensures { IsStep session self.old self.new }
    {
        if let Committed::Stamped { .. } = self.core.commit(session) {
            self.database = next;
        }
        self.views[place_of(session)] = None;
    }

    /// The database that the commit leaves.
    fn installed(&self, session: u32) -> Result<Database, AllocError>
        requires session { IsSession self.now.world session }
        requires taken { taken_of self.now session ≢ None }
        ensures { IfOk result (λ next. next ≡ contents (with_event self.now (commit_due self.now session))) }
    {
        let Some(taken) = self.core.transaction(session) else {
            unreachable!()
        };
        let Some(view) = &self.views[place_of(session)] else {
            unreachable!()
        };
        install(view, taken, &self.database)
    }
}
