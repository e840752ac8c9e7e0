//! Laws about the waits of sessions: calls that do nothing, whose contracts speak of every history.
ghost use Rattle.std.specs.Prelude.{◌≡◌, ℕ, List as Items, None, false};
ghost use Rattle.dw_journal.specs.declared.Event.{Event as Happening};
ghost use Rattle.dw_journal.specs.declared.Shape.{Shape as WarehouseShape};
ghost use Rattle.dw_journal.specs.declared.World.{World as Beside};
ghost use Rattle.dw_journal.specs.Follows.{EachFollows};
ghost use Rattle.dw_journal.specs.History.{has_ended};
ghost use Rattle.dw_journal.specs.Legal.{EachIsLegal};
ghost use Rattle.dw_journal.specs.Locks.{lock_state, waits_for};
ghost use Rattle.dw_journal.specs.Vacuums.{swept_by};
ghost use Rattle.dw_journal.specs.Worlds.{IsSession};
ghost use Rattle.dw_locks.specs.Cycles.{IsCycle};
ghost use Rattle.dw_progress.specs.Free.{CanStep, IsFree};

/// Sessions never wait for one another in a circle: after events each of which follows and is legal after those before
/// it, no list of different sessions is such that each waits for the next, and the last for the first.
pub fn waits_have_no_cycle()
    ensures { (shape : WarehouseShape) (world : Beside) (events : Items Happening) →
        EachFollows shape world events → EachIsLegal shape world events → (session : ℕ) (cycle : Items ℕ) →
        IsCycle (waits_for (lock_state (record { shape = shape; world = world; events = events }))) session cycle → ⊥ }
{}

/// No run is stuck: after events each of which follows and is legal after those before it, while no vacuum runs and
/// some session hasn't ended, there is a session that hasn't ended and waits for nobody (`free`), and one that hasn't
/// ended and whose step doesn't repeat its wait (`steps`).
pub fn no_run_is_stuck()
    ensures free { (shape : WarehouseShape) (world : Beside) (events : Items Happening) →
        EachFollows shape world events → EachIsLegal shape world events →
        ((session : ℕ) → swept_by session events ≡ None) →
        (session : ℕ) → IsSession world session → has_ended session events ≡ false →
        IsFree (record { shape = shape; world = world; events = events }) }
    ensures steps { (shape : WarehouseShape) (world : Beside) (events : Items Happening) →
        EachFollows shape world events → EachIsLegal shape world events →
        ((other : ℕ) → swept_by other events ≡ None) →
        (one : ℕ) → IsSession world one → has_ended one events ≡ false →
        CanStep (record { shape = shape; world = world; events = events }) }
{}
