//! The answer of an open statement.
ghost use Rattle.std.specs.Prelude.{◌≡◌, IfOk};
ghost use Rattle.dw_core.specs.declared.cores.Next.TheVariants as next;
ghost use Rattle.dw_core.specs.Readers.{MeansTurn};
ghost use Rattle.dw_journal.specs.Worlds.{IsSession};
ghost use Rattle.dw_journal.specs.Transactions.{transaction_of};
ghost use Rattle.dw_journal.specs.Turns.{statement_due};
ghost use Rattle.dw_engine.specs.EngineInvariant.{HasView};
ghost use Rattle.dw_engine.specs.Replies.{IsReplyOf};
ghost use Rattle.dw_engine.specs.Steps.{IsStep};

use crate::engines::Engine;
use dw_commit::{Replied, View, reply};
use dw_core::Core;
use dw_journal::{Given, place_of};
use dw_model::Refusal;
use std::alloc::{AllocError, Global};
use std::mem;

impl Engine {
    /// The open statement is answered by what it gives on the session's view, which then is the view that it leaves.
    /// Where it is refused, or memory runs out for it, the transaction ends without a trace.
    pub(crate) fn answer(&mut self, session: u32)
        requires session { IsSession self.old.world session }
        requires answer { MeansTurn self.old session next.Answer }
        ensures { IsStep session self.old self.new }
    {
        let view = mem::replace(&mut self.views[place_of(session)], None);
        match replied(*self.views.allocator(), &self.core, session, view) {
            Ok(Replied::Answered { answer, view }) => {
                self.core.answered(session, answer);
                self.views[place_of(session)] = Some(view);
            }
            Ok(Replied::Refused(refusal)) => self.core.refused(session, refusal),
            Err(_) => self.core.refused(session, Refusal::Memory),
        }
    }
}

/// What the open statement gives on the session's view.
fn replied(
    alloc: Global,
    core: &Core,
    session: u32,
    view: Option<View>,
) -> Result<Replied, AllocError>
    requires session { IsSession core.now.world session }
    requires answer { MeansTurn core.now session next.Answer }
    requires view { HasView core.now session (transaction_of session core.now.events) view }
    ensures { IfOk result (IsReplyOf core.now.world.files (statement_due core.now session) view) }
{
    let Some(Given::Read(statement)) = core.given(session) else {
        unreachable!()
    };
    let Some(view) = view else { unreachable!() };
    reply(alloc, statement, core.files(), view)
}
