//! What comes of judging a journal.
ghost use Rattle.std.specs.Prelude.{◌≡◌};
ghost use Rattle.dw_journal.specs.declared.Journal.{Journal as Events};
ghost use Rattle.dw_journal.specs.declared.World.{World as Beside};
ghost use Rattle.dw_judge.specs.declared.verdicts.Verdict.{Verdict as Found};
ghost use Rattle.dw_judge.specs.Verdicts.{IsVerdict};

use dw_model::Database;

/// The verdict on a journal beside its world. Events are counted from 1.
#[derive(Debug, Drop)]
pub enum Verdict {
    /// Each event follows from the scripts and is legal, and each script is at its end. These are the committed tables.
    Passes { database: Database },
    /// This event is the first that isn't right: it is due, and isn't legal.
    NotLegal { event: u64 },
    /// This event is the first that isn't right: it isn't due. At the last event it may also be that the next one is
    /// wanting, and 0 also stands for a number of sessions that isn't that of the scripts.
    NotFollows { event: u64 },
}

/// A journal has one verdict beside its world. So each comes exactly where its definition says.
pub fn one_verdict()
    ensures { (world : Beside) (journal : Events) (a b : Found) →
        IsVerdict world journal a → IsVerdict world journal b → a ≡ b }
{}
