//! What is kept of each session: the locks that it holds, and what it waits for.
ghost use Rattle.std.specs.Prelude.{◌≡◌, ◌++◌, ◌&&◌, Some, None, is_some, IfOk, OnOk, OnErr};
ghost use Rattle.std.specs.Option.{option_copied};
ghost use Rattle.std.specs.List.{list_any};
ghost use Rattle.dw_model.specs.Binding.{same_name};
ghost use Rattle.dw_journal.specs.Locks.{conflict, stands_in_way};
ghost use Rattle.dw_locks.specs.LockTable.{free_entry, granted, holds_against, holds_exclusively, is_exclusive, not_held, same_lock, same_mode, waiting, withdrawn};

use dw_journal::{Mode, Want};
use dw_value::{List, Text};
use std::alloc::{AllocError, Global};
use std::marker::Model;

/// Whether locks in these modes can't stand side by side.
fn conflict(held: Mode, wanted: Mode) -> bool
    ensures { result ≡ conflict held wanted }
{
    match held {
        Mode::AccessShare => matches!(wanted, Mode::AccessExclusive),
        Mode::ShareRowExclusive => !matches!(wanted, Mode::AccessShare),
        Mode::AccessExclusive => true,
    }
}

/// Whether the lock stands in the way of the other.
fn stands_in_way(held: &Want, wanted: &Want) -> bool
    ensures { result ≡ stands_in_way held.now wanted.now }
{
    held.table == wanted.table && conflict(held.mode, wanted.mode)
}

/// Whether the lock stands in the way of one of these.
fn stands_in_any_way(held: &Want, wants: &[Want]) -> bool
    ensures { result ≡ list_any (stands_in_way held.now) wants.now }
{
    for wanted in wants {
        if stands_in_way(held, wanted) {
            return true;
        }
    }
    false
}

/// Whether one of these locks stands in the way of one of those.
fn stand_in_way(held: &[Want], wants: &[Want]) -> bool
    ensures { result ≡ list_any (λ lock. list_any (stands_in_way lock) wants.now) held.now }
{
    for lock in held {
        if stands_in_any_way(lock, wants) {
            return true;
        }
    }
    false
}

/// Whether this mode stands beside no other lock.
fn is_exclusive(mode: Mode) -> bool
    ensures { result ≡ is_exclusive mode }
{
    matches!(mode, Mode::AccessExclusive)
}

/// Whether one of these locks is an `AccessExclusive` one on the table.
fn have_exclusively(held: &[Want], table: &Text) -> bool
    ensures { result ≡ list_any (λ lock. same_name lock.table table.now && is_exclusive lock.mode) held.now }
{
    for lock in held {
        if lock.table == *table && is_exclusive(lock.mode) {
            return true;
        }
    }
    false
}

/// A second list of these locks.
fn copies_of(alloc: Global, wants: &[Want]) -> Result<List<Want>, AllocError>
    ensures { IfOk result (λ copies. copies ≡ wants.now) }
{
    let mut copies = List::with_capacity(alloc, wants.len())?;
    for want in wants {
        copies.push(Want {
            table: want.table.copy()?,
            mode: want.mode,
        })?;
    }
    Ok(copies)
}

/// Whether these are locks on the same table in the same mode.
fn is_same_lock(one: &Want, other: &Want) -> bool
    ensures { result ≡ same_lock one.now other.now }
{
    one.table == other.table && is_same_mode(one.mode, other.mode)
}

/// Whether these are the same mode.
fn is_same_mode(one: Mode, other: Mode) -> bool
    ensures { result ≡ same_mode one other }
{
    match one {
        Mode::AccessShare => matches!(other, Mode::AccessShare),
        Mode::ShareRowExclusive => matches!(other, Mode::ShareRowExclusive),
        Mode::AccessExclusive => matches!(other, Mode::AccessExclusive),
    }
}

/// Whether the lock is among these.
fn is_held(held: &[Want], want: &Want) -> bool
    ensures { result ≡ list_any (same_lock want.now) held.now }
{
    for lock in held {
        if is_same_lock(want, lock) {
            return true;
        }
    }
    false
}

/// Copies of those of these locks that aren't held yet.
fn copies_of_new(alloc: Global, held: &[Want], wants: &[Want]) -> Result<List<Want>, AllocError>
    ensures { IfOk result (λ copies. copies ≡ not_held held.now wants.now) }
{
    let mut copies = List::new(alloc);
    for want in wants {
        if !is_held(held, want) {
            copies.push(Want {
                table: want.table.copy()?,
                mode: want.mode,
            })?;
        }
    }
    Ok(copies)
}

/// What a session was before its last granted request.
#[derive(Debug, Drop)]
pub(crate) struct Before {
    /// How many locks it held.
    count: usize,
    /// What it waited for.
    waits: Option<List<Want>>,
}

/// What is kept of a session.
#[derive(Debug, Drop)]
pub(crate) struct Entry {
    held: Vec<Want>,
    waits: Option<List<Want>>,
    before: Option<Before>,
}

impl Model for Entry {
    ghost use Rattle.std.specs.Prelude.{option_map};
    ghost use Rattle.dw_locks.specs.LockTable.{LockEntry};

    ghost Value = { LockEntry };

    ghost use Rattle.dw_locks.specs.Grants.{standing_before};

    ghost view = { λ entry. record {
      held = entry.held.items;
      waits = entry.waits;
      before = option_map (standing_before entry.held.items) entry.before;
    } };
}

impl Entry {
    /// A session that holds nothing and waits for nothing.
    pub(crate) fn free(alloc: Global) -> Entry
        ensures { result ≡ free_entry }
    {
        Entry {
            held: Vec::new(alloc),
            waits: None,
            before: None,
        }
    }

    /// Whether it holds a lock in the way of one of these.
    pub(crate) fn holds_against(&self, wants: &[Want]) -> bool
        ensures { result ≡ holds_against wants.now self.now }
    {
        stand_in_way(self.held.as_slice(), wants)
    }

    /// Whether it holds an `AccessExclusive` lock on the table.
    pub(crate) fn holds_exclusively(&self, table: &Text) -> bool
        ensures { result ≡ holds_exclusively table.now self.now }
    {
        have_exclusively(self.held.as_slice(), table)
    }

    /// What it waits for.
    pub(crate) fn waits(&self) -> Option<&List<Want>>
        ensures { option_copied result ≡ self.now.waits }
    {
        self.waits.as_ref()
    }

    /// Whether what it was before its last granted request is kept.
    pub(crate) fn can_withdraw(&self) -> bool
        ensures { result ≡ is_some self.now.before }
    {
        self.before.is_some()
    }

    /// It holds these locks too, each that it holds already once, and waits no more.
    pub(crate) fn grant(&mut self, wants: &[Want]) -> Result<(), AllocError>
        ensures ok { OnOk result (self.new ≡ granted wants.now self.old) }
        ensures err { OnErr result (self.new ≡ self.old) }
    {
        let count = self.held.len();
        let copies = copies_of_new(*self.held.allocator(), self.held.as_slice(), wants)?;
        self.held.append(&mut copies.into_vec())?;
        self.before = Some(Before {
            count,
            waits: self.waits.take(),
        });
        Ok(())
    }

    /// It waits for these locks.
    pub(crate) fn wait(&mut self, wants: &[Want]) -> Result<(), AllocError>
        ensures ok { OnOk result (self.new ≡ waiting wants.now self.old) }
        ensures err { OnErr result (self.new ≡ self.old) }
    {
        let copies = copies_of(*self.held.allocator(), wants)?;
        self.waits = Some(copies);
        self.before = None;
        Ok(())
    }

    /// It holds nothing and waits for nothing.
    pub(crate) fn release(&mut self)
        ensures { self.new ≡ free_entry }
    {
        self.held.clear();
        self.waits = None;
        self.before = None;
    }

    /// It is what it was before its last granted request, where that is kept.
    pub(crate) fn withdraw(&mut self)
        ensures { self.new ≡ withdrawn self.old }
    {
        if let Some(before) = self.before.take() {
            self.held.truncate(before.count);
            self.waits = before.waits;
        }
    }
}
