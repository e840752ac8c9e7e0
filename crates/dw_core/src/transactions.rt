//! What is kept of an open transaction.
ghost use Rattle.std.specs.Prelude.{◌≡◌, [], Some, OnOk, OnErr, IfOk};
ghost use Rattle.std.specs.Option.{ForSome, option_copied};
ghost use Rattle.dw_journal.specs.Worlds.{read_in};
ghost use Rattle.dw_model.specs.Objects.{IsAscendingObjects, with_objects};
ghost use Rattle.dw_core.specs.Changes.{AreSets, footprint_of, opened_transaction, wider_transaction};

use crate::sets::put_all;
use dw_journal::{Given, Taken};
use dw_model::Object;
use dw_value::List;
use std::alloc::{AllocError, Global};
use std::mem;

/// An open transaction, with what its open statement reads and writes.
#[derive(Debug, Drop)]
pub(crate) struct Transaction {
    pub(crate) taken: Taken,
    /// A second copy of what it reads, for the answer of a violation.
    pub(crate) named: List<Object>,
}

/// What a statement takes.
#[derive(Debug, Drop)]
pub(crate) struct Footprint {
    reads: List<Object>,
    writes: List<Object>,
    /// A second copy of what it reads.
    named: List<Object>,
}

/// The statement is opened: it goes on with the transaction, or begins one of this snapshot where none is open. The
/// transaction's sets take the statement's objects. Where memory runs out, what is kept stays as it is.
pub(crate) fn open(
    alloc: Global,
    kept: &mut Option<Transaction>,
    given: Option<&Given>,
    snapshot: u64,
) -> Result<(), AllocError>
    requires { ForSome kept.old AreSets }
    ensures ok { OnOk result (kept.new
        ≡ Some (opened_transaction (footprint_of (read_in (option_copied given.entry))) snapshot kept.old)) }
    ensures err { OnErr result (kept.new ≡ kept.old) }
{
    let more = what_it_takes(alloc, given)?;
    match kept {
        Some(transaction) => transaction.widen(more),
        None => {
            let mut transaction = Transaction::empty(alloc, snapshot);
            transaction.widen(more)?;
            *kept = Some(transaction);
            Ok(())
        }
    }
}

/// What the statement takes. A statement that the grammar refused takes nothing.
fn what_it_takes(alloc: Global, given: Option<&Given>) -> Result<Footprint, AllocError>
    ensures { IfOk result (λ more. more ≡ footprint_of (read_in (option_copied given.entry))) }
{
    let Some(Given::Read(statement)) = given else {
        return Ok(Footprint {
            reads: List::new(alloc),
            writes: List::new(alloc),
            named: List::new(alloc),
        });
    };
    Ok(Footprint {
        reads: statement.reads(alloc)?,
        writes: statement.writes(alloc)?,
        named: statement.reads(alloc)?,
    })
}

impl Transaction {
    /// A transaction of this snapshot that has taken nothing.
    fn empty(alloc: Global, snapshot: u64) -> Transaction
        ensures { result ≡ record { taken = record { snapshot = snapshot; reads = []; writes = [] }; named = [] } }
    {
        Transaction {
            taken: Taken {
                snapshot,
                reads: List::new(alloc),
                writes: List::new(alloc),
            },
            named: List::new(alloc),
        }
    }

    /// The transaction takes these objects, too. Where memory runs out, it stays as it is. The objects that are there
    /// already aren't copied, so that a statement costs no more in a transaction that took much.
    fn widen(&mut self, more: Footprint) -> Result<(), AllocError>
        requires { AreSets self.old }
        ensures ok { OnOk result (self.new ≡ wider_transaction more self.old) }
        ensures err { OnErr result (self.new ≡ self.old) }
    {
        let alloc = self.named.allocator();
        let mut reads = mem::replace(&mut self.taken.reads, List::new(alloc)).into_vec();
        let mut writes = mem::replace(&mut self.taken.writes, List::new(alloc)).into_vec();
        let mut named = mem::replace(&mut self.named, List::new(alloc)).into_vec();
        let done = add(&mut reads, &mut writes, &mut named, more);
        self.taken.reads = List::from_vec(reads);
        self.taken.writes = List::from_vec(writes);
        self.named = List::from_vec(named);
        done
    }
}

/// The three sets take these objects. Room for all of them is made first: where memory runs out, the sets stay as they
/// are.
fn add(
    reads: &mut Vec<Object>,
    writes: &mut Vec<Object>,
    named: &mut Vec<Object>,
    more: Footprint,
) -> Result<(), AllocError>
    requires reads { IsAscendingObjects reads.old.items }
    requires writes { IsAscendingObjects writes.old.items }
    requires named { IsAscendingObjects named.old.items }
    ensures reads { OnOk result (reads.new.items ≡ with_objects more.reads reads.old.items) }
    ensures writes { OnOk result (writes.new.items ≡ with_objects more.writes writes.old.items) }
    ensures named { OnOk result (named.new.items ≡ with_objects more.named named.old.items) }
    ensures reads_err { OnErr result (reads.new.items ≡ reads.old.items) }
    ensures writes_err { OnErr result (writes.new.items ≡ writes.old.items) }
    ensures named_err { OnErr result (named.new.items ≡ named.old.items) }
{
    reads.reserve(more.reads.len())?;
    writes.reserve(more.writes.len())?;
    named.reserve(more.named.len())?;
    put_all(reads, more.reads);
    put_all(writes, more.writes);
    put_all(named, more.named);
    Ok(())
}
