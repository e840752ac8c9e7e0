//! Whether an event that follows is legal, kind by kind.
ghost use Rattle.std.specs.Prelude.{◌≡◌, ◌<◌, ◌≤◌, ◌+◌, ◌^◌, false, length, slice_get, vec_len, reverse, Option as Optional, is_some, IfOk};
ghost use Rattle.std.specs.FinMap as map;
ghost use Rattle.std.specs.Bool.{Decides};
ghost use Rattle.std.specs.Option.{option_copied, option_map_or};
ghost use Rattle.dw_model.specs.Objects.{same_object};
ghost use Rattle.dw_journal.specs.Worlds.{statement_at};
ghost use Rattle.dw_journal.specs.Watermarks.{low_watermark, violated_object};
ghost use Rattle.dw_journal.specs.Contents.{view};
ghost use Rattle.dw_journal.specs.Locks.{lock_state};
ghost use Rattle.dw_journal.specs.Routes.{route_of};
ghost use Rattle.dw_journal.specs.Legal.{IsLegalCommit, IsLegalOpened, IsLegalRefresh, IsLegalSlice, IsLegalSweep, IsLegalViolation, IsLegalWait, snapshot_due};
ghost use Rattle.dw_locks.specs.LockTable.{StandsForLocks};
ghost use Rattle.dw_judge.specs.Judging.{are_marks, are_violating, is_refresh_of};
ghost use Rattle.dw_judge.specs.Summaries.{StandsFor};
ghost use Rattle.dw_judge.specs.Verdicts.{history_before};

use crate::asking::is_free_to_sweep;
use crate::marks::{Bounds, bounds_over};
use crate::summaries::{Summary, sweeper_of};
use crate::violations::violated_place;
use dw_journal::{Certified, Journal, Taken, World};
use dw_locks::Locks;
use dw_model::{Database, Object};
use dw_value::Text;
use std::alloc::{AllocError, Global};

/// Whether the commit is legal: its stamp is the next one, its watermarks are the transaction's, and the low one is
/// above the high one.
pub(crate) fn is_legal_commit(
    world: &World,
    journal: &Journal,
    place: usize,
    summary: &Summary,
    session: u32,
    stamp: u64,
    low: u64,
    high: u64,
) -> bool
    requires stands { StandsFor journal.now.events (history_before world.now journal.now place) summary.now }
    requires within { session < vec_len summary.now.sessions }
    ensures { Decides result
        (IsLegalCommit (history_before world.now journal.now place) session stamp low high) }
{
    let _scripts = &world.scripts;
    let _events = &journal.events;
    let kept = &summary.sessions[session as usize];
    match &kept.transaction {
        Some(one) => {
            let bounds = bounds_over(summary.commits.as_slice(), &one.taken);
            are_marks(summary.commits.len() as u64, bounds, stamp, low, high)
        }
        None => false,
    }
}

/// Whether the numbers are those of a commit with these watermarks, after so many.
fn are_marks(count: u64, bounds: Bounds, stamp: u64, low: u64, high: u64) -> bool
    requires { count + 1 < 2 ^ 64 }
    ensures { result ≡ are_marks count bounds.low bounds.high stamp low high }
{
    stamp == count + 1 && low == bounds.low && high == bounds.high && high < low
}

/// Whether the violation is legal: its watermarks are the transaction's, the low one is at most the high one, and the
/// object is the one to be named.
pub(crate) fn is_legal_violation(
    world: &World,
    journal: &Journal,
    place: usize,
    summary: &Summary,
    session: u32,
    low: u64,
    high: u64,
    object: &Object,
) -> bool
    requires stands { StandsFor journal.now.events (history_before world.now journal.now place) summary.now }
    requires within { session < vec_len summary.now.sessions }
    ensures { Decides result
        (IsLegalViolation (history_before world.now journal.now place) session low high object.now) }
{
    let _scripts = &world.scripts;
    let _events = &journal.events;
    let kept = &summary.sessions[session as usize];
    match &kept.transaction {
        Some(one) => {
            let bounds = bounds_over(summary.commits.as_slice(), &one.taken);
            let named = is_violated(summary.commits.as_slice(), &one.taken, bounds.low, object);
            are_violating(bounds, low, high, named)
        }
        None => false,
    }
}

/// Whether these watermarks are those of a violation, whose object is named or not.
fn are_violating(bounds: Bounds, low: u64, high: u64, named: bool) -> bool
    ensures { result ≡ are_violating bounds.low bounds.high low high named }
{
    low == bounds.low && high == bounds.high && low <= high && named
}

/// Whether this is the object that a violation names.
fn is_violated(commits: &[Certified], taken: &Taken, low: u64, object: &Object) -> bool
    requires { low ≡ low_watermark taken.now (reverse commits.now) }
    ensures { result ≡ option_map_or (same_object object.now) (violated_object taken.now (reverse commits.now)) false }
{
    let reads = taken.reads.as_slice();
    match violated_place(commits, taken.snapshot, low, reads) {
        Some(place) => object.is_same(&reads[place]),
        None => false,
    }
}

/// Whether this is the vacuum's horizon.
pub(crate) fn is_legal_slice(
    world: &World,
    journal: &Journal,
    place: usize,
    summary: &Summary,
    session: u32,
    due: u64,
) -> bool
    requires stands { StandsFor journal.now.events (history_before world.now journal.now place) summary.now }
    requires within { session < vec_len summary.now.horizons }
    ensures { Decides result (IsLegalSlice (history_before world.now journal.now place) session due) }
{
    let _scripts = &world.scripts;
    let _events = &journal.events;
    let horizon = summary.horizons[session as usize];
    due == horizon
}

/// Whether the refresh is of a cluster that there is, and brings it up to all commits.
pub(crate) fn is_legal_refresh(
    world: &World,
    journal: &Journal,
    place: usize,
    summary: &Summary,
    cluster: u32,
    stamp: u64,
) -> bool
    requires stands { StandsFor journal.now.events (history_before world.now journal.now place) summary.now }
    ensures { Decides result (IsLegalRefresh (history_before world.now journal.now place) cluster stamp) }
{
    let _scripts = &world.scripts;
    is_refresh(
        journal.shape.clusters,
        summary.commits.len() as u64,
        cluster,
        stamp,
    )
}

/// Whether these are the numbers of a refresh after so many commits.
fn is_refresh(clusters: u32, count: u64, cluster: u32, stamp: u64) -> bool
    ensures { result ≡ is_refresh_of clusters count cluster stamp }
{
    1 <= cluster && cluster <= clusters && stamp == count
}

/// Whether a vacuum of this table may begin: none runs, no lock stands in its way, and the table is among the committed
/// ones.
pub(crate) fn is_legal_sweep(
    alloc: Global,
    world: &World,
    journal: &Journal,
    place: usize,
    summary: &Summary,
    locks: &Locks,
    session: u32,
    table: &Text,
) -> Result<bool, AllocError>
    requires stands { StandsFor journal.now.events (history_before world.now journal.now place) summary.now }
    requires within { session < vec_len summary.now.sessions }
    requires locks { StandsForLocks locks.now (lock_state (history_before world.now journal.now place)) }
    ensures { IfOk result (λ legal. Decides legal
        (IsLegalSweep (history_before world.now journal.now place) session table.now)) }
{
    let _scripts = &world.scripts;
    let _events = &journal.events;
    let free = is_free_to_sweep(alloc, locks, session, table)?;
    if !free {
        return Ok(false);
    }
    match sweeper_of(summary.sessions.as_slice()) {
        Some(_) => Ok(false),
        None => Ok(has_table(&summary.database, table)),
    }
}

/// Whether there is a table of this name.
fn has_table(database: &Database, table: &Text) -> bool
    ensures { result ≡ is_some (map.get database.now table.now) }
{
    match database.get(table) {
        Some(_) => true,
        None => false,
    }
}
