//! A run: the moves of the schedule first, then the sessions in turn until all have ended.
ghost use Rattle.std.specs.Prelude.{◌≡◌, ◌<◌, ◌^◌, IfOk, All};
ghost use Rattle.dw_script.specs.Schedule.{IsMove};
ghost use Rattle.dw_journal.specs.Shapes.{standard_shape};
ghost use Rattle.dw_journal.specs.Worlds.{AreShort, session_count};
ghost use Rattle.dw_journal.specs.History.{history_of};
ghost use Rattle.dw_journal.specs.Contents.{contents};
ghost use Rattle.dw_journal.specs.Driven.{IsDriven};
ghost use Rattle.dw_engine.specs.EngineInvariant.{HaveNoVacuum};
ghost use Rattle.dw_top.specs.Run.{moves_of};

use crate::rounds::{take_moves, take_rounds};
use dw_engine::{Engine, Ran};
use dw_journal::{Shape, World};
use dw_script::Move;
use std::alloc::{AllocError, Global};

/// Drives a session for each script of the world, in a warehouse of the standard shape: by the moves first, each of which
/// is so many steps of one session, and past the last one by a step of each session in turn, in ascending number, until all
/// scripts are at their end.
///
/// Where memory runs out while a statement is worked on, that statement is refused; where it runs out for the journal
/// itself, there is no run.
pub(crate) fn run_scripts(alloc: Global, world: World, moves: &[Move]) -> Result<Ran, AllocError>
    requires sessions { session_count world < 2 ^ 16 }
    requires short { AreShort world.scripts }
    requires no_vacuum { HaveNoVacuum world }
    requires moves { All (IsMove (session_count world)) moves.now }
    ensures shape { IfOk result (λ ran. ran.journal.shape ≡ standard_shape (session_count world)) }
    ensures driven { IfOk result (λ ran. IsDriven world (moves_of moves.now) ran.journal) }
    ensures database { IfOk result (λ ran. ran.database ≡ contents (history_of world ran.journal)) }
{
    let sessions = world.scripts.len() as u32;
    let mut engine = Engine::new(alloc, Shape::standard(sessions), world)?;
    take_moves(&mut engine, moves)?;
    take_rounds(&mut engine, sessions)?;
    Ok(engine.into_parts())
}
