//! What is kept of the events so far, and what is read off it.
ghost use Rattle.std.specs.Prelude.{◌≡◌, ◌<◌, ◌≤◌, suc, false, [], length, replicate, unwrap_or, Some, None, IfOk, IfSome};
ghost use Rattle.std.specs.FinMap as map;
ghost use Rattle.std.specs.List.{count_by, cons_option, filter_map, fold, position};
ghost use Rattle.dw_journal.specs.declared.BlockState.TheVariants as blocks;
ghost use Rattle.dw_journal.specs.Transactions.{least_of, least_with};
ghost use Rattle.dw_journal.specs.Routes.{is_open_on, same_route};
ghost use Rattle.dw_judge.specs.Readings.{is_kept_open_on, snapshot_kept};

use crate::sessions::{Session, newest};
use dw_journal::{Certified, Event, Route};
use dw_model::Database;
use std::alloc::{AllocError, Global};

/// What is kept of the events so far. The background worker has the place 0, and each session that of its number.
#[derive(Debug, Drop)]
pub(crate) struct Summary {
    pub(crate) sessions: Vec<Session>,
    /// For each session the horizon just after its newest event.
    pub(crate) horizons: Vec<u64>,
    /// The commits, the oldest first.
    pub(crate) commits: Vec<Certified>,
    /// The committed database now.
    pub(crate) database: Database,
    /// For each cluster the stamp of its newest refresh. Clusters past the end have none.
    pub(crate) stamps: Vec<Option<u64>>,
}

impl Summary {
    /// A summary of no event, of so many sessions.
    pub(crate) fn new(alloc: Global, sessions: usize) -> Result<Summary, AllocError>
        requires { sessions ≤ 64 }
        ensures sessions { IfOk result (λ summary. summary.sessions.items ≡ replicate (suc sessions)
            (record { taken = 0; block = blocks.Outside; newest = None; sweeps = false; transaction = None })) }
        ensures horizons { IfOk result (λ summary. summary.horizons.items ≡ replicate (suc sessions) 0) }
        ensures commits { IfOk result (λ summary. summary.commits.items ≡ []) }
        ensures database { IfOk result (λ summary. summary.database ≡ map.empty) }
        ensures stamps { IfOk result (λ summary. summary.stamps.items ≡ []) }
    {
        let mut kept = Vec::new(alloc);
        let mut horizons = Vec::new(alloc);
        for _ in 0..sessions + 1 {
            kept.push(Session::fresh())?;
            horizons.push(0)?;
        }
        Ok(Summary {
            sessions: kept,
            horizons,
            commits: Vec::new(alloc),
            database: Database::new(alloc),
            stamps: Vec::new(alloc),
        })
    }
}

/// The least snapshot of an open transaction of these sessions, or the number of commits where none is open.
pub(crate) fn horizon_of(sessions: &[Session], commits: u64) -> u64
    ensures { result ≡ unwrap_or (least_of (filter_map snapshot_kept sessions.now)) commits }
{
    let mut least = None;
    for kept in sessions {
        least = least_with(least, snapshot_of(kept));
    }
    least.unwrap_or(commits)
}

/// The snapshot of a session's open transaction.
fn snapshot_of(kept: &Session) -> Option<u64>
    ensures { result ≡ snapshot_kept kept.now }
{
    match &kept.transaction {
        Some(transaction) => Some(transaction.taken.snapshot),
        None => None,
    }
}

/// The least number so far, with one more, if there is one.
fn least_with(least: Option<u64>, number: Option<u64>) -> Option<u64>
    ensures { result ≡ fold least_with least (cons_option number []) }
{
    match (least, number) {
        (Some(least), Some(number)) => Some(least.min(number)),
        (least, None) => least,
        (None, number) => number,
    }
}

/// The first session whose vacuum runs.
pub(crate) fn sweeper_of(sessions: &[Session]) -> Option<usize>
    ensures place { result ≡ position (λ kept. kept.sweeps) sessions.now }
    ensures within { IfSome result (λ session. session < length sessions.now) }
{
    sessions.iter().position(|kept| kept.sweeps)
}

/// How many of these sessions have a statement open on a route.
pub(crate) fn open_on(sessions: &[Session], events: &[Event], route: Route) -> usize
    ensures { result ≡ count_by (is_kept_open_on events.now route) sessions.now }
{
    sessions
        .iter()
        .filter(|kept| is_open_on(kept, events, route))
        .count()
}

/// Whether a session's newest event opened a statement on a route.
fn is_open_on(kept: &Session, events: &[Event], route: Route) -> bool
    ensures { result ≡ is_kept_open_on events.now route kept.now }
{
    match newest(events, kept.newest) {
        Some(event) => opens_on(event, route),
        None => false,
    }
}

/// Whether an event opened a statement on a route.
fn opens_on(event: &Event, route: Route) -> bool
    ensures { result ≡ is_open_on route (Some event.now) }
{
    match event {
        Event::Opened { route: taken, .. } => is_same_route(*taken, route),
        _ => false,
    }
}

/// Whether two routes are the same.
pub(crate) fn is_same_route(a: Route, b: Route) -> bool
    ensures { result ≡ same_route a b }
{
    match (a, b) {
        (Route::Main, Route::Main) => true,
        (Route::Cluster(a), Route::Cluster(b)) => a == b,
        (Route::Main, Route::Cluster(_)) | (Route::Cluster(_), Route::Main) => false,
    }
}
