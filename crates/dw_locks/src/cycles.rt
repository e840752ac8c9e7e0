//! The cycle that a wait would close: the shortest one, and of the shortest the least.
ghost use Rattle.std.specs.Prelude.{◌≡◌, ◌<◌, ◌-◌, ◌+◌, suc, ℕ, List as Items, length, get_or, false, All, IfOk, IfSome};
ghost use Rattle.std.specs.List.{list_any, range_with_len, find};
ghost use Rattle.dw_journal.specs.Locks.{contains, first_cycle};
ghost use Rattle.dw_locks.specs.Walks.{waits_in, AreSessions, AreLevels, reached_level, first_of, first_walk, walk_over};

use dw_value::List;
use std::alloc::{AllocError, Global};

/// Whether one of these sessions is told to be reached.
fn is_reached(ones: &[u32], level: &[bool]) -> bool
    requires { All (λ one. one < length level.now) ones.now }
    ensures { result ≡ list_any (λ one. get_or level.now one false) ones.now }
{
    for one in ones {
        if level[*one as usize] {
            return true;
        }
    }
    false
}

/// The first of these sessions that is told to be reached.
fn first_reached(ones: &[u32], level: &[bool]) -> Option<u32>
    requires { All (λ one. one < length level.now) ones.now }
    ensures { result ≡ find (λ one. get_or level.now one false) ones.now }
{
    for one in ones {
        if level[*one as usize] {
            return Some(*one);
        }
    }
    None
}

/// Whether the session is among these.
fn is_among(ones: &[u32], session: u32) -> bool
    ensures { result ≡ contains ones.now session }
{
    ones.iter().any(|other| *other == session)
}

/// Which sessions wait for this one.
fn lowest_level(alloc: Global, waits: &[List<u32>], session: u32) -> Result<List<bool>, AllocError>
    ensures { IfOk result (λ level. level ≡ reached_level (waits_in waits.now) session (length waits.now) 0) }
{
    let mut level = List::with_capacity(alloc, waits.len())?;
    for ones in waits {
        level.push(is_among(ones.as_slice(), session))?;
    }
    Ok(level)
}

/// From which sessions one more step leads to those that are told to be reached.
fn next_level(alloc: Global, waits: &[List<u32>], fewer: &[bool]) -> Result<List<bool>, AllocError>
    requires each { AreSessions waits.now }
    requires long { length fewer.now ≡ length waits.now }
    ensures { IfOk result (λ level. (session steps : ℕ) →
        fewer.now ≡ reached_level (waits_in waits.now) session (length waits.now) steps →
        level ≡ reached_level (waits_in waits.now) session (length waits.now) (suc steps)) }
{
    let mut level = List::with_capacity(alloc, waits.len())?;
    for ones in waits {
        level.push(is_reached(ones.as_slice(), fewer))?;
    }
    Ok(level)
}

/// For whom the session waits.
fn line_at(waits: &[List<u32>], session: u32) -> &[u32]
    requires session { session < length waits.now }
    ensures line { result.now ≡ waits_in waits.now session }
    ensures within { AreSessions waits.now → All (λ other. other < length waits.now) result.now }
{
    waits[session as usize].as_slice()
}

/// The level of so many steps.
fn level_at(levels: &[List<bool>], steps: usize) -> &[bool]
    requires { steps < length levels.now }
    ensures { (waits : Items (Items ℕ)) (session : ℕ) → AreLevels waits session levels.now →
        result.now ≡ reached_level (waits_in waits) session (length waits) steps }
{
    levels[steps].as_slice()
}

/// The session to which the first walk leads from here that is over so many steps after it.
fn step_from(
    waits: &[List<u32>],
    levels: &[List<bool>],
    steps: usize,
    from: u32,
    session: u32,
) -> Option<u32>
    requires from { from < length waits.now }
    requires steps { steps < length levels.now }
    requires each { AreSessions waits.now }
    requires levels { AreLevels waits.now session levels.now }
    ensures over { first_of (first_walk (waits_in waits.now) session steps) (waits_in waits.now from)
        ≡ walk_over (waits_in waits.now) session steps result }
    ensures within { IfSome result (λ one. one < length waits.now) }
{
    first_reached(line_at(waits, from), level_at(levels, steps))
}

/// The first walk from a session, over as many steps as there are levels above the lowest, to one who waits for it. The
/// levels stand from the lowest on.
fn first_walk(
    alloc: Global,
    waits: &[List<u32>],
    levels: &[List<bool>],
    session: u32,
) -> Result<Option<List<u32>>, AllocError>
    requires session { session < length waits.now }
    requires each { AreSessions waits.now }
    requires some { 0 < length levels.now }
    requires levels { AreLevels waits.now session levels.now }
    ensures { IfOk result (λ walk. walk ≡ first_walk (waits_in waits.now) session (length levels.now - 1) session) }
{
    let mut walk = List::with_capacity(alloc, levels.len())?;
    let mut from = session;
    let steps = levels.len() - 1;
    for turn in 0..steps {
        walk.push(from)?;
        match step_from(waits, levels, steps - turn - 1, from, session) {
            Some(one) => from = one,
            None => return Ok(None),
        }
    }
    if !is_among(line_at(waits, from), session) {
        return Ok(None);
    }
    walk.push(from)?;
    Ok(Some(walk))
}

/// The cycle that a session closes where each session waits for those of its line in `waits`, whose first line is that
/// of the background worker, session 0: different sessions, of which it is the first; each waits for the next and the
/// last for the first. It is the shortest one, and of the shortest the least where each line ascends. There is none
/// where `None` comes. For each step of the cycle it passes once over all lines. It fails only for want of memory.
pub(crate) fn first_cycle(
    alloc: Global,
    waits: &[List<u32>],
    session: u32,
) -> Result<Option<List<u32>>, AllocError>
    requires session { session < length waits.now }
    requires each { AreSessions waits.now }
    ensures { IfOk result (λ cycle. cycle
        ≡ first_cycle (waits_in waits.now) session (range_with_len 0 (length waits.now))) }
{
    let mut levels = List::with_capacity(alloc, waits.len())?;
    let mut level = lowest_level(alloc, waits, session)?;
    for _ in 0..waits.len() {
        let closes = level.as_slice()[session as usize];
        let next = next_level(alloc, waits, level.as_slice())?;
        levels.push(level)?;
        if closes {
            return first_walk(alloc, waits, levels.as_slice(), session);
        }
        level = next;
    }
    Ok(None)
}
