//! What a session that asks for locks is answered by the table of locks. Its contract is the definition of locks.
ghost use Rattle.std.specs.Prelude.{◌≡◌, ◌<◌, ◌∷◌, [], length, IfOk};
ghost use Rattle.std.specs.Option.{option_copied};
ghost use Rattle.dw_journal.specs.Worlds.{read_in};
ghost use Rattle.dw_journal.specs.Locks.{sweep_lock, wants_in};
ghost use Rattle.dw_locks.specs.Requests.{answer_to};
ghost use Rattle.dw_judge.specs.Asking.{is_granted, unless_asked, waits_just_for};

use dw_journal::{Given, Mode, Want};
use dw_locks::{Asked, Locks, wants};
use dw_model::Refusal;
use dw_value::{List, Text};
use std::alloc::{AllocError, Global};

/// What the session is answered if it asks for the locks of this statement.
pub(crate) fn asked(
    alloc: Global,
    locks: &Locks,
    session: u32,
    given: Option<&Given>,
) -> Result<Asked, AllocError>
    requires { session < length locks.now }
    ensures { IfOk result (λ asked. asked
        ≡ answer_to locks.now session (wants_in (read_in (option_copied given.entry)))) }
{
    let wants = wants(alloc, given)?;
    locks.answer(session, &wants)
}

/// Whether nobody stands in the way of the locks of this statement of the session.
pub(crate) fn is_free(
    alloc: Global,
    locks: &Locks,
    session: u32,
    given: Option<&Given>,
) -> Result<bool, AllocError>
    requires { session < length locks.now }
    ensures { IfOk result (λ free. free
        ≡ is_granted (answer_to locks.now session (wants_in (read_in (option_copied given.entry))))) }
{
    let asked = asked(alloc, locks, session, given)?;
    Ok(is_granted(&asked))
}

/// Whether the session has to wait for just these holders of locks in the way of this statement.
pub(crate) fn has_to_wait(
    alloc: Global,
    locks: &Locks,
    session: u32,
    given: Option<&Given>,
    holders: &List<u32>,
) -> Result<bool, AllocError>
    requires { session < length locks.now }
    ensures { IfOk result (λ waits. waits ≡ waits_just_for holders.now
        (answer_to locks.now session (wants_in (read_in (option_copied given.entry))))) }
{
    let asked = asked(alloc, locks, session, given)?;
    Ok(waits_just_for(&asked, holders))
}

/// Whether nobody stands in the way of a vacuum of this table by the session.
pub(crate) fn is_free_to_sweep(
    alloc: Global,
    locks: &Locks,
    session: u32,
    table: &Text,
) -> Result<bool, AllocError>
    requires { session < length locks.now }
    ensures { IfOk result (λ free. free ≡ is_granted (answer_to locks.now session (sweep_lock table.now ∷ []))) }
{
    let wants = sweep_wants(alloc, table)?;
    let asked = locks.answer(session, &wants)?;
    Ok(is_granted(&asked))
}

/// The lock of a vacuum of this table.
pub(crate) fn sweep_wants(alloc: Global, table: &Text) -> Result<List<Want>, AllocError>
    ensures { IfOk result (λ wants. wants ≡ sweep_lock table.now ∷ []) }
{
    let mut wants = List::new(alloc);
    wants.push(Want {
        table: table.copy()?,
        mode: Mode::AccessShare,
    })?;
    Ok(wants)
}

/// Whether nobody stands in the way.
fn is_granted(asked: &Asked) -> bool
    ensures { result ≡ is_granted asked.now }
{
    match asked {
        Asked::Granted => true,
        Asked::Waits { .. } | Asked::Deadlock { .. } => false,
    }
}

/// Whether the session has to wait for just these.
fn waits_just_for(asked: &Asked, holders: &List<u32>) -> bool
    ensures { result ≡ waits_just_for holders.now asked.now }
{
    match asked {
        Asked::Waits { holders: named } => named == holders,
        Asked::Granted | Asked::Deadlock { .. } => false,
    }
}

/// The refusal that comes where nobody stands in the way, or that of a deadlock.
pub(crate) fn unless_asked(
    asked: &Asked,
    refusal: Option<Refusal>,
) -> Result<Option<Refusal>, AllocError>
    ensures { IfOk result (λ found. found ≡ unless_asked asked.now refusal) }
{
    match asked {
        Asked::Granted => Ok(refusal),
        Asked::Waits { .. } => Ok(None),
        Asked::Deadlock { cycle } => Ok(Some(Refusal::Deadlock {
            cycle: cycle.copy()?,
        })),
    }
}
