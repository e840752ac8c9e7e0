//! The table of locks.
ghost use Rattle.std.specs.Prelude.{◌≡◌, ◌+◌, ◌<◌, ◌↔◌, length, nat_eq, replicate, IfOk, IsSome, IsTrue, OnOk, OnErr};
ghost use Rattle.std.specs.List.{slice_set};
ghost use Rattle.dw_locks.specs.LockTable.{entry_of, exclusive_holder, free_entry, waiting, withdrawn};
ghost use Rattle.dw_locks.specs.Requests.{answer_to, table_after};

use crate::blockers::{blockers, cycle, exclusive_holder};
use crate::entries::Entry;
use dw_journal::Want;
use dw_value::{List, Text};
use std::alloc::{AllocError, Global};
use std::marker::Model;

/// What a request is answered.
#[derive(Debug, Drop)]
pub enum Asked {
    /// The session holds the locks.
    Granted,
    /// It waits for these other sessions, each once and in ascending order, which hold locks in the way of what it asks
    /// for.
    Waits { holders: List<u32> },
    /// Its wait would close this cycle of sessions, of which it is the first: each waits for the next, and the last for
    /// the first. It is the shortest one, and of the shortest the least.
    Deadlock { cycle: List<u32> },
}

/// The locks that sessions hold and wait for, after the table-level locks of the Amazon Redshift guide. Contracts see a
/// table with an entry for each session, the background worker's, session 0, first: the locks that it holds in the
/// order of granting, those that it waits for, and what it was before its last granted request, where that was the last
/// thing that changed it.
#[derive(Debug, Drop)]
pub struct Locks {
    entries: Vec<Entry>,
}

impl Model for Locks {
    ghost use Rattle.std.specs.Prelude.{◌≤◌, ◌^◌, length};
    ghost use Rattle.dw_locks.specs.LockTable.{LockTable};

    ghost Value = { LockTable };

    ghost view = { λ locks. locks.entries.items };

    ghost invariant = { λ locks. length locks.entries.items ≤ 2 ^ 32 };
}

impl Locks {
    /// A table for so many sessions from 1 on, and the background worker, none of whom holds a lock or waits.
    pub fn new(alloc: Global, sessions: u32) -> Result<Locks, AllocError>
        ensures { IfOk result (λ locks. locks ≡ replicate (sessions + 1) free_entry) }
    {
        let mut entries = Vec::new(alloc);
        for _ in 0..sessions as usize + 1 {
            entries.push(Entry::free(alloc))?;
        }
        Ok(Locks { entries })
    }

    /// The number of sessions, the background worker's with them.
    pub fn len(&self) -> usize
        ensures { result ≡ length self.now }
    {
        self.entries.len()
    }

    /// Whether there is no session, not even the background worker's: never in a table that `new` made.
    pub fn is_empty(&self) -> bool
        ensures { result ≡ nat_eq (length self.now) 0 }
    {
        self.entries.is_empty()
    }

    /// Whether what the session was before its last granted request is kept, so that `withdraw` may be called.
    pub fn can_withdraw(&self, session: u32) -> bool
        requires { session < length self.now }
        ensures { IsTrue result ↔ IsSome (entry_of self.now session).before }
    {
        self.entries[session as usize].can_withdraw()
    }

    /// What the session would be answered if it asked for these locks, all together, as `request` says. It changes nothing.
    pub fn answer(&self, session: u32, wants: &List<Want>) -> Result<Asked, AllocError>
        requires { session < length self.now }
        ensures { IfOk result (λ asked. asked ≡ answer_to self.now session wants.now) }
    {
        let alloc = *self.entries.allocator();
        let holders = blockers(alloc, self.entries.as_slice(), session, wants.as_slice())?;
        if holders.is_empty() {
            return Ok(Asked::Granted);
        }
        match cycle(alloc, self.entries.as_slice(), session, wants.as_slice())? {
            Some(cycle) => Ok(Asked::Deadlock { cycle }),
            None => Ok(Asked::Waits { holders }),
        }
    }

    /// A session asks for these locks, all together. Its own locks never block it. Where no other's do, it holds them
    /// after those that it held, each that it held already once, and waits no more; where its wait would close a cycle,
    /// nothing changes; else it waits for them, in place of what it waited for. Where memory runs out, nothing changes.
    pub fn request(&mut self, session: u32, wants: &List<Want>) -> Result<Asked, AllocError>
        requires { session < length self.old }
        ensures answer { IfOk result (λ asked. asked ≡ answer_to self.old session wants.now) }
        ensures table { OnOk result
            (self.new ≡ table_after self.old session wants.now (answer_to self.old session wants.now)) }
        ensures err { OnErr result (self.new ≡ self.old) }
    {
        let asked = self.answer(session, wants)?;
        match asked {
            Asked::Granted => self.entries[session as usize].grant(wants.as_slice())?,
            Asked::Waits { .. } => self.entries[session as usize].wait(wants.as_slice())?,
            Asked::Deadlock { .. } => {}
        }
        Ok(asked)
    }

    /// The session waits for these locks, in place of what it waited for, whether or not one stands in their way. Where
    /// memory runs out, nothing changes.
    pub fn wait(&mut self, session: u32, wants: &List<Want>) -> Result<(), AllocError>
        requires { session < length self.old }
        ensures table { OnOk result
            (self.new ≡ slice_set self.old session (waiting wants.now (entry_of self.old session))) }
        ensures err { OnErr result (self.new ≡ self.old) }
    {
        self.entries[session as usize].wait(wants.as_slice())
    }

    /// The session holds nothing more, and waits for nothing. All others are as before.
    pub fn release(&mut self, session: u32)
        requires { session < length self.old }
        ensures { self.new ≡ slice_set self.old session free_entry }
    {
        self.entries[session as usize].release();
    }

    /// Undoes the session's last granted request: its locks and its wait are what they were before it. Since that one
    /// nothing but a deadlock has been answered to the session.
    pub fn withdraw(&mut self, session: u32)
        requires session { session < length self.old }
        requires granted { IsSome (entry_of self.old session).before }
        ensures { self.new ≡ slice_set self.old session (withdrawn (entry_of self.old session)) }
    {
        self.entries[session as usize].withdraw();
    }

    /// The least session that holds an `AccessExclusive` lock on the table.
    pub fn holder(&self, table: &Text) -> Option<u32>
        ensures { result ≡ exclusive_holder self.now table.now }
    {
        exclusive_holder(self.entries.as_slice(), table)
    }
}
