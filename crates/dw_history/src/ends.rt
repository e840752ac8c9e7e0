//! How a kept value and its passes begin and end.
ghost use Rattle.std.specs.Prelude.{◌≡◌, ◌+◌, ◌<◌, ◌≤◌, [], length, IfOk, IsOkAnd};
ghost use Rattle.dw_history.specs.Histories.{IsFront};
ghost use Rattle.dw_history.specs.Views.{first_view, view_after_split, view_of_new, view_after_join};
ghost use Rattle.dw_history.specs.Calls.{known, origin, most_passes, IsPassOf, IsWhole};

use crate::grown::Grown;
use crate::kept::{Kept, Pass, SERVING, VALUE};
use crate::rule::{Look, Make, TakeIn};
use atomic_table::Table;
use std::alloc::{AllocError, Global};
use std::snapshot::Snapshot;

impl<V: Grown + Drop> Kept<V> {
    /// Keeps a value whose history is empty, and gives the pass 0. Of it at most `passes` passes can be made, from 1,
    /// the pass 0 among them. Where there is no memory for two words and the value it gives an error, and the value is
    /// gone.
    pub fn new(alloc: Global, value: V, passes: u32) -> Result<(Kept<V>, Pass<V>), AllocError>
        requires passes { 1 ≤ passes }
        requires empty { V.history_of value ≡ [] }
        ensures kept { IfOk result (λ made. (origin made.0 ≡ value) × (most_passes made.0 ≡ passes)) }
        ensures pass { IfOk result (λ made. IsPassOf V.ground_of made.0 made.1) }
        ensures knows { IfOk result (λ made. known made.1 ≡ first_view (V.ground_of value)) }
    {
        let start = Snapshot::of(&value);
        let mut slots = Vec::with_capacity(alloc, 1)?;
        slots.push(Some(value))?;
        match Table::new(alloc, &[0, 0], slots, &start) {
            Ok((table, seat)) => Ok((Kept { table, passes }, Pass { seat })),
            Err(_) => Err(AllocError),
        }
    }
}

impl<V: Grown> Kept<V> {
    /// Makes the pass with the next number, which has seen what the pass 0 has seen and has made nothing. The pass 0
    /// counts it. It takes no memory, and never gives an error.
    pub fn split_pass(&self, pass: &mut Pass<V>) -> Result<Pass<V>, AllocError>
        requires kept { IsPassOf V.ground_of self.now pass.old }
        requires first { (known pass.old).number ≡ 0 }
        requires room { (known pass.old).made < most_passes self.now }
        ensures kept { IsPassOf V.ground_of self.now pass.new }
        ensures maker { known pass.new ≡ view_after_split (known pass.old) }
        ensures made { IsOkAnd result (λ other. IsPassOf V.ground_of self.now other
            × (known other ≡ view_of_new (known pass.old))) }
    {
        let seat = self.table.shared.split_seat::<Make>(&mut pass.seat);
        Ok(Pass { seat })
    }

    /// Takes a pass in: the pass 0 has then seen what both had seen, and keeps the other's number and its entries.
    pub fn join_pass(&self, pass: &mut Pass<V>, other: Pass<V>)
        requires kept { IsPassOf V.ground_of self.now pass.old × IsPassOf V.ground_of self.now other }
        requires first { (known pass.old).number ≡ 0 }
        ensures kept { IsPassOf V.ground_of self.now pass.new }
        ensures joint { known pass.new ≡ view_after_join (known pass.old) (known other) }
        ensures mine { IsFront (known pass.old).seen (known pass.new).seen }
        ensures theirs { IsFront (known other).seen (known pass.new).seen }
    {
        let Pass { seat } = other;
        self.table.shared.join_seat::<TakeIn>(&mut pass.seat, seat);
        self.table.shared.load::<Look>(&mut pass.seat, SERVING);
    }

    /// Gives the value back once every pass that was split is joined again. Its history is all that was seen, with
    /// just the entries of each pass, in their order.
    pub fn close(self, pass: Pass<V>) -> V
        requires kept { IsPassOf V.ground_of self pass }
        requires first { (known pass).number ≡ 0 }
        requires joined { (known pass).made ≡ length (known pass).joined + 1 }
        ensures whole { IsWhole V.number_of (known pass) (V.history_of result) }
        ensures stands { V.ground_of result ≡ V.ground_of (origin self) }
    {
        let Kept { table, passes: _ } = self;
        let Pass { seat } = pass;
        let mut closed = table.close_with(seat);
        let Some(value) = closed.take(VALUE) else {
            unreachable!()
        };
        closed.free();
        value
    }
}
