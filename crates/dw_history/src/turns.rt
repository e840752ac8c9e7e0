//! One turn: its steps, and the call that takes them.
ghost use Rattle.std.specs.Prelude.{◌≡◌, [], ◌∷◌, Some};
ghost use Rattle.dw_history.specs.Views.{IsIdle, view_with_ticket};
ghost use Rattle.dw_history.specs.Steps.{Enters, IsWaiting, Works, MayLeave, Advances};
ghost use Rattle.dw_history.specs.Calls.{known, origin, IsPassOf, MayTurn, HasTurned};

use crate::grown::{Act, Grown};
use crate::kept::{Kept, Pass, SERVING, TICKET, VALUE};
use crate::rule::{Advance, Draw, Look};
use crate::views::View;
use atomic_table::Seat;
use std::hint;
use std::sync::Wait;

// How near to its turn a pass is that looks again before it sleeps: its ticket less the one that is served.
const NEAR: u64 = 1;

// How often it looks again.
const LOOKS: u32 = 200;

impl<V: Grown> Kept<V> {
    /// One turn: it waits until each ticket before its own was served, and does the act once on the value.
    ///
    /// The act's number is the pass's, and what it needs has to hold of every history that begins with what the pass
    /// has seen and whose entries of that number are those that the pass made. After it the pass has seen such a
    /// history with the act's entries at its end, and the act's outcome holds of the two. It may wait for others.
    pub fn turn<A: Act<V>, R: Wait>(&self, rt: &R, pass: &mut Pass<V>, act: &mut A)
        requires kept { IsPassOf V.ground_of self.now pass.old }
        requires number { A.number act.old ≡ (known pass.old).number }
        requires need { MayTurn V.number_of
            (λ before. A.need (V.ground_of (origin self.now)) before act.old) (known pass.old) }
        ensures kept { IsPassOf V.ground_of self.now pass.new }
        ensures turned { HasTurned V.number_of
            (λ before after. A.outcome (V.ground_of (origin self.now)) before after act.old act.new)
            (known pass.old) (known pass.new) }
    {
        self.turn_seat(rt, &mut pass.seat, act);
    }

    /// The turn of a seat.
    fn turn_seat<A: Act<V>, R: Wait>(
        &self,
        rt: &R,
        seat: &mut Seat<Option<V>, View<V::Entry, V::Ground>>,
        act: &mut A,
    )
        requires kept { seat.old.table_id ≡ self.now.table.shared.table_id }
        requires stands { seat.old.me.0.own_ground ≡ Some (V.ground_of (origin self.now)) }
        requires rests { IsIdle seat.old }
        requires number { A.number act.old ≡ seat.old.me.0.number }
        requires need { MayTurn V.number_of
            (λ before. A.need (V.ground_of (origin self.now)) before act.old) seat.old.me.0 }
        ensures kept { seat.new.table_id ≡ seat.old.table_id }
        ensures stands { seat.new.me.0.own_ground ≡ seat.old.me.0.own_ground }
        ensures rests { IsIdle seat.new }
        ensures turned { HasTurned V.number_of
            (λ before after. A.outcome (V.ground_of (origin self.now)) before after act.old act.new)
            seat.old.me.0 seat.new.me.0 }
    {
        let ticket = self.draw(seat);
        self.wait(rt, seat, ticket);
        self.work(seat, act);
        self.leave(seat, ticket);
    }

    /// Draws the next ticket.
    fn draw(&self, seat: &mut Seat<Option<V>, View<V::Entry, V::Ground>>) -> u64
        requires kept { seat.old.table_id ≡ self.now.table.shared.table_id }
        requires rests { IsIdle seat.old }
        ensures kept { seat.new.table_id ≡ seat.old.table_id }
        ensures drawn { seat.new.me ≡ (view_with_ticket seat.old.me.0 result, []) }
    {
        self.table.shared.fetch_add::<Draw>(seat, TICKET, 1)
    }

    /// Waits until the ticket is served. Then the seat has the value.
    fn wait<R: Wait>(
        &self,
        rt: &R,
        seat: &mut Seat<Option<V>, View<V::Entry, V::Ground>>,
        ticket: u64,
    )
        requires kept { seat.old.table_id ≡ self.now.table.shared.table_id }
        requires waits { IsWaiting ticket seat.old.me }
        ensures kept { seat.new.table_id ≡ seat.old.table_id }
        ensures inside { Enters V.history_of V.number_of V.ground_of seat.old.me seat.new.me }
    {
        let mut looks = 0;
        for _ in rt.forever() {
            let serving = self.table.shared.load::<Look>(seat, SERVING);
            if serving == ticket {
                return;
            }
            if ticket.wrapping_sub(serving) <= NEAR && looks < LOOKS {
                looks += 1;
                hint::spin_loop();
            } else {
                looks = 0;
                self.table
                    .shared
                    .park(rt, SERVING, (serving & 0xffff_ffff) as u32);
            }
        }
        unreachable!()
    }

    /// Does the act on the value that the seat holds, and puts the value back.
    fn work<A: Act<V>>(&self, seat: &mut Seat<Option<V>, View<V::Entry, V::Ground>>, act: &mut A)
        requires kept { seat.old.table_id ≡ self.now.table.shared.table_id }
        requires need { (value : V) × (seat.old.me.1 ≡ (0, Some value) ∷ [])
            × A.need (V.ground_of value) (V.history_of value) act.old }
        ensures kept { seat.new.table_id ≡ seat.old.table_id }
        ensures works { Works V.history_of V.number_of V.ground_of (A.number act.old)
            (λ own before after. A.outcome own before after act.old act.new) seat.old.me seat.new.me }
    {
        let Some(mut value) = self.table.shared.exchange(seat, VALUE, None) else {
            unreachable!()
        };
        act.act(&mut value);
        let empty = self.table.shared.exchange(seat, VALUE, Some(value));
        let None = empty else { unreachable!() };
    }

    /// Gives the value back, serves the next ticket, and wakes those who wait.
    fn leave(&self, seat: &mut Seat<Option<V>, View<V::Entry, V::Ground>>, ticket: u64)
        requires kept { seat.old.table_id ≡ self.now.table.shared.table_id }
        requires inside { MayLeave V.history_of V.number_of V.ground_of ticket seat.old.me }
        ensures kept { seat.new.table_id ≡ seat.old.table_id }
        ensures left { Advances V.history_of seat.old.me seat.new.me }
    {
        let next = ticket.wrapping_add(1);
        self.table.shared.store::<Advance>(seat, SERVING, next);
        if self.table.shared.peek(TICKET) != next {
            self.table.shared.wake_all(SERVING);
        }
    }
}
