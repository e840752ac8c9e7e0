//! The opening of a statement.
ghost use Rattle.std.specs.Prelude.{◌≡◌, ◌<◌, [], Some, OnOk, OnErr, length};
ghost use Rattle.std.specs.List.{slice_set};
ghost use Rattle.std.specs.Option.{ForSome, option_copied};
ghost use Rattle.dw_journal.specs.Worlds.{read_in};
ghost use Rattle.dw_journal.specs.Locks.{LockState};
ghost use Rattle.dw_locks.specs.LockTable.{StandsForLocks, entry_of, granted, table_blockers};
ghost use Rattle.dw_core.specs.Changes.{AreSets, footprint_of, opened_transaction};

use crate::transactions::{Transaction, open};
use dw_journal::{Given, Want};
use dw_locks::Locks;
use dw_value::List;
use std::alloc::AllocError;

/// The session is granted the locks that its statement wants, in the way of which nobody stands, and the statement is
/// opened in its transaction. Where memory runs out, what is kept of the transaction stays as it is, and the session has
/// its locks and its wait as before.
pub(crate) fn grant_and_open(
    locks: &mut Locks,
    session: u32,
    wants: &List<Want>,
    kept: &mut Option<Transaction>,
    given: Option<&Given>,
    snapshot: u64,
) -> Result<(), AllocError>
    requires session { session < length locks.old }
    requires free { table_blockers locks.old session wants.now ≡ [] }
    requires sets { ForSome kept.old AreSets }
    ensures locks { OnOk result (locks.new
        ≡ slice_set locks.old session (granted wants.now (entry_of locks.old session))) }
    ensures kept { OnOk result (kept.new
        ≡ Some (opened_transaction (footprint_of (read_in (option_copied given.entry))) snapshot kept.old)) }
    ensures withdrawn { OnErr result
        ((state : LockState) → StandsForLocks locks.old state → StandsForLocks locks.new state) }
    ensures err { OnErr result (kept.new ≡ kept.old) }
{
    let alloc = wants.allocator();
    let _granted = locks.request(session, wants)?;
    if let Err(fault) = open(alloc, kept, given, snapshot) {
        locks.withdraw(session);
        return Err(fault);
    }
    Ok(())
}
