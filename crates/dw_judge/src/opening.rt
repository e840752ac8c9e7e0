//! What a session sees, and whether an opening is legal.
ghost use Rattle.std.specs.Prelude.{drop, ◌≡◌, ◌<◌, ◌≤◌, length, vec_len, is_some, not, IfOk};
ghost use Rattle.std.specs.Bool.{Decides};
ghost use Rattle.std.specs.List.{find, range_with_len};
ghost use Rattle.dw_model.specs.Bound.{bound_refusal};
ghost use Rattle.dw_model.specs.Databases.{def_of};
ghost use Rattle.dw_journal.specs.declared.Route.TheVariants as route;
ghost use Rattle.dw_journal.specs.Worlds.{statement_at};
ghost use Rattle.dw_journal.specs.Locks.{lock_state};
ghost use Rattle.dw_journal.specs.Routes.{is_select, shows};
ghost use Rattle.dw_journal.specs.Legal.{IsLegalOpened};
ghost use Rattle.dw_locks.specs.LockTable.{StandsForLocks};
ghost use Rattle.dw_judge.specs.Judging.{leaves_kept, route_kept, seen_in, snapshot_due_in, takes_kept, written_none_in};
ghost use Rattle.dw_judge.specs.Summaries.{StandsFor, stamp_kept};
ghost use Rattle.dw_judge.specs.Verdicts.{history_before};

use crate::asking::is_free;
use crate::scripts::{given, statement_at};
use crate::sessions::Session;
use crate::summaries::{Summary, is_same_route, open_on};
use dw_journal::{Event, Journal, Route, World};
use dw_locks::Locks;
use dw_model::{Database, Statement};
use dw_plain::bound_refusal;
use std::alloc::{AllocError, Global};

/// What a session sees: its view, or the committed database.
pub(crate) fn seen<'a>(database: &'a Database, kept: &'a Session) -> &'a Database
    ensures { result.now ≡ seen_in database.now kept.now.transaction }
{
    match &kept.transaction {
        Some(one) => &one.view.database,
        None => database,
    }
}

/// The snapshot of a statement that the session opens next, after so many commits.
fn snapshot_due(kept: &Session, commits: u64) -> u64
    ensures { result ≡ snapshot_due_in commits kept.now.transaction }
{
    match &kept.transaction {
        Some(one) => one.taken.snapshot,
        None => commits,
    }
}

/// Whether the opening is legal: no lock stands in its way, the names are bound in what the session sees, and snapshot
/// and route are the due ones.
pub(crate) fn is_legal_opened(
    alloc: Global,
    world: &World,
    journal: &Journal,
    place: usize,
    summary: &Summary,
    locks: &Locks,
    session: u32,
    statement: u32,
    snapshot: u64,
    route: Route,
) -> Result<bool, AllocError>
    requires stands { StandsFor journal.now.events (history_before world.now journal.now place) summary.now }
    requires within { session < vec_len summary.now.sessions }
    requires locks { StandsForLocks locks.now (lock_state (history_before world.now journal.now place)) }
    ensures { IfOk result (λ legal. Decides legal (IsLegalOpened (history_before world.now journal.now place) session
        statement snapshot route (statement_at world.now session statement))) }
{
    let Some(opened) = statement_at(world, session, statement as u64) else {
        return Ok(false);
    };
    let free = is_free(
        alloc,
        locks,
        session,
        given(world, session, statement as u64),
    )?;
    if !free {
        return Ok(false);
    }
    let kept = &summary.sessions[session as usize];
    let bound = is_bound(opened, seen(&summary.database, kept))?;
    if !bound {
        return Ok(false);
    }
    let snapshot_due = snapshot_due(kept, summary.commits.len() as u64);
    let route_due = route_due(journal, summary, kept, snapshot, opened);
    Ok(is_opening(snapshot, snapshot_due, route, route_due))
}

/// Whether a statement's names and kinds fit the database.
fn is_bound(statement: &Statement, database: &Database) -> Result<bool, AllocError>
    ensures { IfOk result (λ bound. bound ≡ not (is_some (bound_refusal statement.now (def_of database.now)))) }
{
    let found = bound_refusal(statement, database)?;
    Ok(found.is_none())
}

/// Whether snapshot and route are the due ones.
fn is_opening(snapshot: u64, snapshot_due: u64, route: Route, route_due: Route) -> bool
    ensures { Decides result ((snapshot ≡ snapshot_due) × (route ≡ route_due)) }
{
    snapshot == snapshot_due && is_same_route(route, route_due)
}

/// Where a statement of this snapshot is worked on.
fn route_due(
    journal: &Journal,
    summary: &Summary,
    kept: &Session,
    snapshot: u64,
    statement: &Statement,
) -> Route
    requires { 1 ≤ vec_len summary.now.sessions }
    ensures { result ≡ route_kept journal.now.events journal.now.shape (drop 1 summary.now.sessions.items)
        summary.now.stamps.items kept.now.transaction snapshot statement.now }
{
    let sessions = &summary.sessions.as_slice()[1..];
    let events = journal.events.as_slice();
    let slots = journal.shape.slots as usize;
    let main = open_on(sessions, events, Route::Main);
    if !may_leave(statement, slots, main, kept) {
        return Route::Main;
    }
    let stamps = summary.stamps.as_slice();
    match least_cluster(
        sessions,
        events,
        stamps,
        journal.shape.clusters,
        slots,
        snapshot,
    ) {
        Some(cluster) => Route::Cluster(cluster),
        None => Route::Main,
    }
}

/// Whether a statement may leave the main nodes, on which so many statements are open.
fn may_leave(statement: &Statement, slots: usize, open_main: usize, kept: &Session) -> bool
    ensures { result ≡ leaves_kept statement.now slots open_main kept.now.transaction }
{
    is_select(statement) && slots <= open_main && has_written_none(kept)
}

fn is_select(statement: &Statement) -> bool
    ensures { result ≡ is_select statement.now }
{
    match statement {
        Statement::Select { .. } => true,
        _ => false,
    }
}

/// Whether a session's transaction has written nothing.
fn has_written_none(kept: &Session) -> bool
    ensures { result ≡ written_none_in kept.now.transaction }
{
    match &kept.transaction {
        Some(one) => one.taken.writes.len() == 0,
        None => true,
    }
}

/// The least cluster that can take a statement of this snapshot.
fn least_cluster(
    sessions: &[Session],
    events: &[Event],
    stamps: &[Option<u64>],
    clusters: u32,
    slots: usize,
    snapshot: u64,
) -> Option<u32>
    ensures { result ≡ find (takes_kept events.now sessions.now stamps.now slots snapshot) (range_with_len 1 clusters) }
{
    for before in 0..clusters {
        let cluster = before + 1;
        if cluster as usize >= stamps.len() {
            return None;
        }
        if can_take(sessions, events, stamps, slots, snapshot, cluster) {
            return Some(cluster);
        }
    }
    None
}

/// Whether a cluster can take a statement of this snapshot: it shows the snapshot, and a slot is free.
fn can_take(
    sessions: &[Session],
    events: &[Event],
    stamps: &[Option<u64>],
    slots: usize,
    snapshot: u64,
    cluster: u32,
) -> bool
    ensures { result ≡ takes_kept events.now sessions.now stamps.now slots snapshot cluster }
{
    shows(stamp_of(stamps, cluster), snapshot)
        && open_on(sessions, events, Route::Cluster(cluster)) < slots
}

/// The stamp of a cluster's newest refresh.
fn stamp_of(stamps: &[Option<u64>], cluster: u32) -> Option<u64>
    ensures { result ≡ stamp_kept stamps.now cluster }
{
    match stamps.get(cluster as usize) {
        Some(stamp) => *stamp,
        None => None,
    }
}

/// Whether a cluster of this newest stamp shows the snapshot.
fn shows(stamp: Option<u64>, snapshot: u64) -> bool
    ensures { result ≡ shows stamp snapshot }
{
    match stamp {
        Some(stamp) => snapshot <= stamp,
        None => false,
    }
}
