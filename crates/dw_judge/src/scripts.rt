//! The statements of a world's scripts, by session and number.
ghost use Rattle.std.specs.Prelude.{◌≡◌, Some};
ghost use Rattle.std.specs.Option.{option_copied};
ghost use Rattle.dw_journal.specs.Worlds.{given_at, read_in, statement_at};

use dw_journal::{Given, World, place_of};
use dw_model::Statement;

/// The statement of this number of a session's script, from 1. Session 0 has no script, and there is no statement 0.
pub(crate) fn given(world: &World, session: u32, number: u64) -> Option<&Given>
    ensures { option_copied result ≡ given_at world.now session number }
{
    if session == 0 || number == 0 {
        return None;
    }
    match world.scripts.get(place_of(session)) {
        Some(script) => script.get(number as usize - 1),
        None => None,
    }
}

/// That statement, where the grammar read it.
pub(crate) fn statement_at(world: &World, session: u32, number: u64) -> Option<&Statement>
    ensures { option_copied result ≡ statement_at world.now session number }
{
    match given(world, session, number) {
        Some(given) => read_in(given),
        None => None,
    }
}

/// The statement that the grammar read, if it did.
fn read_in(given: &Given) -> Option<&Statement>
    ensures { option_copied result ≡ read_in (Some given.now) }
{
    match given {
        Given::Read(statement) => Some(statement),
        Given::Refused(_) => None,
    }
}
