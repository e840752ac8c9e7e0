//! Who stands in whose way, and for whom each session waits.
ghost use Rattle.std.specs.Prelude.{◌≡◌, ◌<◌, ◌≤◌, ◌^◌, length, map, All, IfOk};
ghost use Rattle.std.specs.List.{range_with_len};
ghost use Rattle.dw_locks.specs.Walks.{AreSessions};
ghost use Rattle.dw_locks.specs.LockTable.{exclusive_holder, is_blocker, table_blockers, table_cycle, table_waits_for, table_would_wait_for};

use crate::cycles::first_cycle;
use crate::entries::Entry;
use dw_journal::Want;
use dw_value::{List, Text};
use std::alloc::{AllocError, Global};

/// Whether another session than this one holds a lock in the way of these.
fn is_blocked_by(entries: &[Entry], other: u32, session: u32, wants: &[Want]) -> bool
    requires { other < length entries.now }
    ensures { result ≡ is_blocker entries.now session wants.now other }
{
    other != session && entries[other as usize].holds_against(wants)
}

/// The other sessions that hold locks in the way of these, in ascending order.
pub(crate) fn blockers(
    alloc: Global,
    entries: &[Entry],
    session: u32,
    wants: &[Want],
) -> Result<List<u32>, AllocError>
    requires { length entries.now ≤ 2 ^ 32 }
    ensures is { IfOk result (λ holders. holders ≡ table_blockers entries.now session wants.now) }
    ensures within { IfOk result (λ holders. All (λ other. other < length entries.now) holders) }
{
    let mut holders = List::new(alloc);
    for place in 0..entries.len() {
        let other = place as u32;
        if is_blocked_by(entries, other, session, wants) {
            holders.push(other)?;
        }
    }
    Ok(holders)
}

/// For whom a session waits.
fn waits_for(alloc: Global, entries: &[Entry], session: u32) -> Result<List<u32>, AllocError>
    requires long { length entries.now ≤ 2 ^ 32 }
    requires session { session < length entries.now }
    ensures is { IfOk result (λ holders. holders ≡ table_waits_for entries.now session) }
    ensures within { IfOk result (λ holders. All (λ other. other < length entries.now) holders) }
{
    match entries[session as usize].waits() {
        Some(wants) => blockers(alloc, entries, session, wants.as_slice()),
        None => Ok(List::new(alloc)),
    }
}

/// For whom a session would wait, if `asker` asked for these locks.
fn would_wait_for(
    alloc: Global,
    entries: &[Entry],
    asker: u32,
    wants: &[Want],
    session: u32,
) -> Result<List<u32>, AllocError>
    requires long { length entries.now ≤ 2 ^ 32 }
    requires session { session < length entries.now }
    ensures is { IfOk result (λ holders. holders ≡ table_would_wait_for entries.now asker wants.now session) }
    ensures within { IfOk result (λ holders. All (λ other. other < length entries.now) holders) }
{
    if session == asker {
        blockers(alloc, entries, asker, wants)
    } else {
        waits_for(alloc, entries, session)
    }
}

/// For whom each session would wait, if this one asked for these locks.
fn all_waits(
    alloc: Global,
    entries: &[Entry],
    session: u32,
    wants: &[Want],
) -> Result<List<List<u32>>, AllocError>
    requires { length entries.now ≤ 2 ^ 32 }
    ensures is { IfOk result (λ waits. waits
        ≡ map (table_would_wait_for entries.now session wants.now) (range_with_len 0 (length entries.now))) }
    ensures each { IfOk result AreSessions }
{
    let mut waits = List::with_capacity(alloc, entries.len())?;
    for place in 0..entries.len() {
        waits.push(would_wait_for(alloc, entries, session, wants, place as u32)?)?;
    }
    Ok(waits)
}

/// The cycle that this session would close by asking for these locks.
pub(crate) fn cycle(
    alloc: Global,
    entries: &[Entry],
    session: u32,
    wants: &[Want],
) -> Result<Option<List<u32>>, AllocError>
    requires long { length entries.now ≤ 2 ^ 32 }
    requires session { session < length entries.now }
    ensures { IfOk result (λ cycle. cycle ≡ table_cycle entries.now session wants.now) }
{
    let waits = all_waits(alloc, entries, session, wants)?;
    first_cycle(alloc, waits.as_slice(), session)
}

/// The least session that holds an `AccessExclusive` lock on the table.
pub(crate) fn exclusive_holder(entries: &[Entry], table: &Text) -> Option<u32>
    requires { length entries.now ≤ 2 ^ 32 }
    ensures { result ≡ exclusive_holder entries.now table.now }
{
    for (place, entry) in entries.iter().enumerate() {
        if entry.holds_exclusively(table) {
            return Some(place as u32);
        }
    }
    None
}
