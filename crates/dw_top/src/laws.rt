//! Laws of runs: calls that do nothing, whose contracts speak of every schedule.
ghost use Rattle.std.specs.Prelude.{◌≡◌, ℕ, List as Items};
ghost use Rattle.dw_io.specs.Outside.{Held};
ghost use Rattle.dw_journal.specs.declared.Journal.{Journal as Events};
ghost use Rattle.dw_journal.specs.declared.Shape.{Shape as Layout};
ghost use Rattle.dw_journal.specs.declared.World.{World as Beside};
ghost use Rattle.dw_journal.specs.Driven.{IsDriven, Move, WithoutMemory};
ghost use Rattle.dw_journal.specs.History.{events_of};
ghost use Rattle.dw_journal.specs.Worlds.{session_count};
ghost use Rattle.dw_engine.specs.EngineInvariant.{HaveNoVacuum};
ghost use Rattle.dw_top.specs.Existing.{AreSessionMoves, WereRead};
ghost use Rattle.dw_top.specs.Run.{IsRun, moves_in, world_in};

/// A schedule has a journal: whatever moves of sessions with a script it says, there is one that arises from them, in a
/// warehouse of any shape with a session for each script, where no script sweeps a table. Where no text of a script was
/// refused for want of memory when it was read, no statement is refused for want of memory in it. That there is at most
/// one such journal is a law of journals.
pub fn driven_journals_exist()
    ensures { (world : Beside) (moves : Items Move) (shape : Layout) → HaveNoVacuum world → AreSessionMoves world moves →
        shape.sessions ≡ session_count world →
        (journal : Events) × (journal.shape ≡ shape) × IsDriven world moves journal
        × (WereRead world → WithoutMemory (events_of journal)) }
{}

/// Whatever the words of a call are and the files hold, there is a run of the scripts that they name under their schedule's
/// moves, in which no statement is refused for want of memory.
pub fn calls_have_runs()
    ensures { (words : Items (Items ℕ)) (held : Held) →
        (journal : Events) × IsRun (world_in words held) (moves_in words held) journal × WithoutMemory (events_of journal) }
{}
