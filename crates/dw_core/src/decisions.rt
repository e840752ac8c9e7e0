//! How a commit is decided.
ghost use Rattle.std.specs.Prelude.{◌≡◌, ◌<◌, ◌≤◌, Some, length, slice_get};
ghost use Rattle.std.specs.List.{filter_map};
ghost use Rattle.dw_model.specs.Objects.{IsAscendingObjects};
ghost use Rattle.dw_ssn.specs.CommitList.{CommitList};
ghost use Rattle.dw_ssn.specs.Summaries.{StandsFor};
ghost use Rattle.dw_core.specs.Horizons.{kept_snapshot, least_among, settled};
ghost use Rattle.dw_core.specs.Decisions.{IsDecided};
ghost use Rattle.dw_core.specs.DueEvents.{decision_of};

use crate::sessions::Session;
use crate::transactions::Transaction;
use dw_journal::Event;
use dw_model::{Object, Refusal};
use dw_ssn::{Certifier, Marks};
use dw_value::List;

/// How a commit was decided.
#[derive(Debug, Drop)]
pub enum Committed {
    /// It is committed, with this stamp and these watermarks.
    Stamped { stamp: u64, low: u64, high: u64 },
    /// Its low watermark is at most its high one, so it left no trace. The object is the one that the violation names.
    Violation { low: u64, high: u64, object: Object },
    /// There was no memory for it, so it left no trace.
    Memory,
}

/// Decides on the commit of a transaction, and gives the event of it, too. A violation takes no memory.
pub(crate) fn decide(
    certifier: &mut Certifier,
    session: u32,
    statement: u32,
    transaction: Transaction,
) -> (Committed, Event)
    requires names { transaction.named ≡ transaction.taken.reads }
    requires oldest { certifier.old.oldest ≤ transaction.taken.snapshot }
    requires set { IsAscendingObjects transaction.taken.writes }
    requires stands { (list : CommitList) × StandsFor certifier.old list }
    ensures event { result.1 ≡ decision_of session statement result.0 }
    ensures decides { (list : CommitList) → StandsFor certifier.old list
        → (after : CommitList) × StandsFor certifier.new after × IsDecided transaction.taken list after result.0 }
{
    let Transaction { taken, named } = transaction;
    let marks = certifier.watermarks(&taken);
    let Marks { low, high, by } = marks;
    if low <= high {
        let by = by.unwrap();
        return (
            Committed::Violation {
                low,
                high,
                object: taken_out(named, by),
            },
            Event::Violation {
                session,
                statement,
                low,
                high,
                object: taken_out(taken.reads, by),
            },
        );
    }
    match certifier.admit(taken, marks) {
        Ok(stamp) => (
            Committed::Stamped { stamp, low, high },
            Event::Commit {
                session,
                statement,
                stamp,
                low,
                high,
            },
        ),
        Err(_) => (
            Committed::Memory,
            Event::Refuse {
                session,
                statement,
                refusal: Refusal::Memory,
            },
        ),
    }
}

/// Where a transaction was committed, the certifier is pruned at the horizon, which the sessions tell. It takes no
/// memory.
pub(crate) fn settle(certifier: &mut Certifier, sessions: &[Session], decided: &Committed)
    ensures { (list : CommitList) → StandsFor certifier.old list → StandsFor certifier.new
        (settled decided.now (least_among (length list.commits) (filter_map kept_snapshot sessions.now)) list) }
{
    if matches!(decided, Committed::Stamped { .. }) {
        let horizon = horizon(certifier.len(), sessions);
        certifier.prune(horizon);
    }
}

/// The least of the number of commits and of the snapshots of the sessions' open transactions.
fn horizon(commits: u64, sessions: &[Session]) -> u64
    ensures within { result ≤ commits }
    ensures least { result ≡ least_among commits (filter_map kept_snapshot sessions.now) }
{
    let mut least = commits;
    for session in sessions {
        if let Some(transaction) = &session.transaction {
            least = least.min(transaction.taken.snapshot);
        }
    }
    least
}

/// The object at this place. It takes no memory.
fn taken_out(objects: List<Object>, place: usize) -> Object
    requires { place < length objects }
    ensures { slice_get objects place ≡ Some result }
{
    objects.into_vec().swap_remove(place)
}
