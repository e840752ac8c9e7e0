//! One growing history: a value that threads change one after another, and passes that know how its history began.
//!
//! A `Kept` holds any value that is `Grown`: one with a history, a list that grows at its end alone, and a ground that
//! never changes. Each change is an `Act`, and each act is done in one `turn` of a `Pass`. A pass has a number, which
//! its entries bear, and it may go to another thread, while all share the `Kept`. Histories, grounds and what a pass
//! knows stand in proofs alone: a pass has no bytes, and a turn costs what its act costs and a few atomic steps.
//!
//! How it works: two words and a slot. Word 0 is the ticket that is served, word 1 the next ticket, and the slot has
//! the value, or None while an act works on it. A turn draws a ticket (it adds one to word 1), looks at word 0 until
//! that is its ticket, takes the value out of the slot, does the act, puts the value back, and serves the next ticket
//! (it stores to word 0). At that last step, and at no other, the act's entries enter the history. A pass that is next
//! looks a while before it sleeps; one that comes later sleeps at once, until word 0 changes; and who has served the
//! next ticket wakes the sleepers, if a ticket is out. A pass is split, and joined, at a look at word 0. Tickets wrap
//! at 2^64, which is no harm where fewer than 2^32 passes have one.
//!
//! Between any two of these steps one rule holds (specs/Rule.antt): no two passes have the same ticket, and the tickets
//! that are out are as many as the two words say, from the one that is served on; at most one pass is inside, and it
//! has the ticket that is served; where none is, the value is in its slot. There is one history; it is the longest
//! that any pass has seen, and what each has seen is a front of it; for each number it has the entries which the pass
//! of that number made, or which the pass 0 kept when it took that pass in, and of numbers not yet made it has none.
//!
//! Not promised: that a turn comes (an act that never ends, or a thread that is gone in the midst of its turn, would
//! stop all others), how long a pass waits, or in what order two passes draw their tickets. Of two passes that never
//! met it is only known that what they have seen are fronts of one history.
#![tactic(auto)]

mod ends;
mod grown;
mod kept;
mod rule;
mod turns;
mod views;

pub use grown::{Act, Grown};
pub use kept::{Kept, Pass};
pub use views::View;

#[cfg(test)]
mod tests;
