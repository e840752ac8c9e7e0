//! Steps one after another: those of a schedule's moves, and rounds in which each session takes one.
ghost use Rattle.std.specs.Prelude.{◌≡◌, ◌<◌, ℕ, true, false, reverse, replicate, OnOk, All};
ghost use Rattle.dw_script.specs.Schedule.{IsMove};
ghost use Rattle.dw_journal.specs.Worlds.{IsSession, session_count};
ghost use Rattle.dw_journal.specs.History.{has_ended};
ghost use Rattle.dw_journal.specs.Driven.{OfSession, round_of, rounds_of};
ghost use Rattle.dw_top.specs.Rounds.{Leads, SomeoneIsLeft, total_left};
ghost use Rattle.dw_top.specs.Run.{moves_of};

use dw_engine::Engine;
use dw_script::Move;
use std::alloc::AllocError;

/// So many steps of one session.
fn take_steps(engine: &mut Engine, session: u32, count: u32) -> Result<(), AllocError>
    requires session { IsSession engine.old.world session }
    ensures { OnOk result (Leads (replicate count (OfSession session)) engine.old engine.new) }
{
    for _ in 0..count {
        engine.step(session)?;
    }
    Ok(())
}

/// The steps of these moves, in their order.
pub(crate) fn take_moves(engine: &mut Engine, moves: &[Move]) -> Result<(), AllocError>
    requires moves { All (IsMove (session_count engine.old.world)) moves.now }
    ensures { OnOk result (Leads (reverse (moves_of moves.now)) engine.old engine.new) }
{
    for place in 0..moves.len() {
        take_steps(engine, moves[place].session, moves[place].count)?;
    }
    Ok(())
}

/// One step of each of so many sessions, in ascending number. While somebody isn't at the end of the script, it brings the
/// run nearer to its end.
fn take_round(engine: &mut Engine, sessions: u32) -> Result<(), AllocError>
    requires sessions { sessions ≡ session_count engine.old.world }
    requires left { SomeoneIsLeft engine.old }
    ensures leads { OnOk result (Leads (round_of sessions) engine.old engine.new) }
    ensures nearer { OnOk result (total_left engine.new sessions < total_left engine.old sessions) }
{
    for before in 0..sessions {
        engine.step(before + 1)?;
    }
    engine.is_legal();
    Ok(())
}

/// Whether all of so many sessions are at the end of their scripts.
fn have_ended(engine: &Engine, sessions: u32) -> bool
    requires sessions { sessions ≡ session_count engine.now.world }
    ensures ended { result ≡ true → (session : ℕ) → IsSession engine.now.world session → has_ended session engine.now.events ≡ true }
    ensures left { result ≡ false → SomeoneIsLeft engine.now }
{
    for before in 0..sessions {
        if !engine.has_ended(before + 1) {
            return false;
        }
    }
    true
}

/// Rounds until all sessions are at the end of their scripts.
pub(crate) fn take_rounds(engine: &mut Engine, sessions: u32) -> Result<(), AllocError>
    requires sessions { sessions ≡ session_count engine.old.world }
    ensures leads { OnOk result ((rounds : ℕ) × Leads (rounds_of sessions rounds) engine.old engine.new) }
    ensures ends { OnOk result ((session : ℕ) → IsSession engine.old.world session → has_ended session engine.new.events ≡ true) }
{
    while !have_ended(engine, sessions) {
        take_round(engine, sessions)?;
    }
    Ok(())
}
