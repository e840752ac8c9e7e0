//! Laws of tables of locks: calls that do nothing, whose contracts speak of every table.
ghost use Rattle.std.specs.Prelude.{◌≡◌, ◌≢◌, ◌++◌, ◌+◌, ◌<◌, ◌≤◌, ℕ, List as Items, [], length, replicate, None, Some};
ghost use Rattle.std.specs.List.{slice_set};
ghost use Rattle.std.specs.Ordering.{nat_cmp};
ghost use Rattle.std.specs.Cmp.Lexicographic.{slice_cmp};
ghost use Rattle.std.specs.declared.cmp.Ordering.TheVariants.{Less};
ghost use Rattle.dw_journal.specs.declared.locks.Want.{Want as Lock};
ghost use Rattle.dw_journal.specs.declared.Event.{Event as Happening};
ghost use Rattle.dw_journal.specs.declared.Event.TheVariants as event;
ghost use Rattle.dw_journal.specs.declared.Route.{Route as Way};
ghost use Rattle.dw_journal.specs.History.{newest_event, session_of};
ghost use Rattle.dw_journal.specs.Locks.{LockState, Wants, blockers, deadlock_cycle, held_locks, would_wait_for};
ghost use Rattle.dw_locks.specs.Cycles.{IsCycle};
ghost use Rattle.dw_locks.specs.Holders.{exclusive_holder_by};
ghost use Rattle.dw_locks.specs.Lasting.{after_event};
ghost use Rattle.dw_locks.specs.LockTable.{HaveSame, LockEntry, LockTable, StandsForLocks, entry_of, exclusive_holder, free_entry, granted, table_blockers, table_cycle, waiting, wants_waited, withdrawn};

/// Where a table stands for the locks that the events of a journal tell of, it gives what those give: who blocks a
/// session, the cycle that the session would close, and who holds a table for itself alone.
pub fn table_answers_as_events_do()
    ensures blockers { (table : LockTable) (state : LockState) → StandsForLocks table state →
        (session : ℕ) (asked : Items Lock) → table_blockers table session asked ≡ blockers state session asked }
    ensures cycle { (table : LockTable) (state : LockState) → StandsForLocks table state →
        (session : ℕ) (asked : Items Lock) → table_cycle table session asked ≡ deadlock_cycle state session asked }
    ensures holder { (table : LockTable) (state : LockState) → StandsForLocks table state →
        (name : Items ℕ) → exclusive_holder table name ≡ exclusive_holder_by state name }
{}

/// A grant leaves the locks that were held and those that were asked for, though one that was held already is kept
/// once.
pub fn grant_adds_what_is_asked()
    ensures { (entry : LockEntry) → (asked : Items Lock) → HaveSame (granted asked entry).held (entry.held ++ asked) }
{}

/// The cycle with which a deadlock is refused is one: different sessions, of which the refused one is the first; each would
/// wait for the next, and the last for the first. There is no shorter one, and none of its length is less by the first
/// number in which they differ; and where none is given, there is none among so many sessions as there are.
pub fn deadlocks_are_shortest_cycles()
    ensures cycle { (state : LockState) (session : ℕ) (asked : Items Lock) (cycle : Items ℕ) →
        deadlock_cycle state session asked ≡ Some cycle → IsCycle (would_wait_for state session asked) session cycle }
    ensures shortest { (state : LockState) (session : ℕ) (asked : Items Lock) (cycle other : Items ℕ) →
        deadlock_cycle state session asked ≡ Some cycle → IsCycle (would_wait_for state session asked) session other →
        length cycle ≤ length other }
    ensures least { (state : LockState) (session : ℕ) (asked : Items Lock) (cycle other : Items ℕ) →
        deadlock_cycle state session asked ≡ Some cycle → IsCycle (would_wait_for state session asked) session other →
        length other ≡ length cycle → slice_cmp nat_cmp other cycle ≢ Less }
    ensures none { (state : LockState) (session : ℕ) (asked : Items Lock) (other : Items ℕ) →
        deadlock_cycle state session asked ≡ None → IsCycle (would_wait_for state session asked) session other →
        length other ≤ state.sessions + 1 → ⊥ }
{}

/// A table of free entries stands for the locks where nothing has happened yet, and tables go on standing as the events
/// go on. An event changes its session's entry alone: once a statement is opened, it is granted what the statement
/// wants; once the session waits, it waits for that; once the session holds nothing by the events and doesn't wait, it
/// is released; it stays as it is where the session holds what it held, and waits neither before nor after.
pub fn tables_go_on_standing()
    ensures empty { (wants : Wants) (sessions : ℕ) →
        StandsForLocks (replicate (sessions + 1) free_entry) (record { wants = wants; sessions = sessions; events = [] }) }
    ensures opened { (table : LockTable) (state : LockState) → StandsForLocks table state →
        (session : ℕ) → session < length table → (statement snapshot : ℕ) (route : Way) →
        StandsForLocks (slice_set table session (granted (state.wants session statement) (entry_of table session)))
        (after_event state (event.Opened session statement snapshot route)) }
    ensures waits { (table : LockTable) (state : LockState) → StandsForLocks table state →
        (session : ℕ) → session < length table → (statement : ℕ) (holders : Items ℕ) →
        StandsForLocks (slice_set table session (waiting (state.wants session statement) (entry_of table session)))
        (after_event state (event.Wait session statement holders)) }
    ensures released { (table : LockTable) (state : LockState) → StandsForLocks table state →
        (session : ℕ) → session < length table → (now : Happening) → session_of now ≡ Some session →
        held_locks (after_event state now) session ≡ [] → wants_waited state session (Some now) ≡ None →
        StandsForLocks (slice_set table session free_entry) (after_event state now) }
    ensures unchanged { (table : LockTable) (state : LockState) → StandsForLocks table state →
        (session : ℕ) → session < length table → (now : Happening) → session_of now ≡ Some session →
        held_locks (after_event state now) session ≡ held_locks state session →
        wants_waited state session (newest_event session state.events) ≡ None →
        wants_waited state session (Some now) ≡ None → StandsForLocks table (after_event state now) }
{}

/// A granted request that is withdrawn leaves no trace: the table stands for the events as it did before.
pub fn withdrawals_leave_no_trace()
    ensures { (table : LockTable) (state : LockState) → StandsForLocks table state →
        (session : ℕ) → session < length table → (asked : Items Lock) (grant : LockTable) →
        grant ≡ slice_set table session (granted asked (entry_of table session)) →
        StandsForLocks (slice_set grant session (withdrawn (entry_of grant session))) state }
{}
