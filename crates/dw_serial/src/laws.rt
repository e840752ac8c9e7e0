//! The serial theorem, and a commit as its changes.
ghost use Rattle.dw_journal.specs.declared.Journal.{Journal as Events};
ghost use Rattle.dw_journal.specs.declared.World.{World};
ghost use Rattle.dw_model.specs.Databases.{Tables};
ghost use Rattle.dw_journal.specs.Transactions.{CommittedTransaction};
ghost use Rattle.dw_serial.specs.Applied.{CommitAppliesChanges};
ghost use Rattle.dw_journal.specs.Legal.{IsLegal};
ghost use Rattle.dw_journal.specs.Serial.{IsSerial};

/// Every legal journal is serial: from the empty database on, its committed transactions, run alone in ascending order of
/// low watermark, later commit first at equal ones, give their printed answers and the committed database. It holds for
/// every list of scripts and every journal, whatever number of sessions, of clusters and of vacuums stand in it. After the
/// Serial Safety Net paper of Wang, Johnson, Fekete and Pandis.
pub fn legal_is_serial()
    ensures { (world : World) (journal : Events) → IsLegal world journal → IsSerial world journal }
{}

/// What a commit leaves, by cases of what its transaction read and wrote, is the committed database with the transaction's
/// changes applied one after another, object by object, where that database has the same of all that the transaction read as
/// the one at its snapshot.
pub fn commits_apply_changes()
    ensures { (world : World) (commit : CommittedTransaction) (start before : Tables) → CommitAppliesChanges world commit start before }
{}
