//! What a pass knows.
use std::collections::LinkedList;

/// What a pass knows. No value of it is made: it stands in proofs alone.
pub struct View<E, G> {
    /// Whether another pass took this one in. Then the rest says nothing.
    pub is_spent: bool,
    /// Its number. The first pass has 0.
    pub number: u64,
    /// The ground of the value; None in a view that is spent.
    pub own_ground: Option<G>,
    /// The longest history that it has seen.
    pub seen: LinkedList<E>,
    /// The entries that it made.
    pub mine: LinkedList<E>,
    /// The number of its turn, where it waits for one or has it.
    pub ticket: Option<u64>,
    /// Whether it has the value.
    pub is_inside: bool,
    /// Of the pass 0: how many passes were made, itself among them.
    pub made: u64,
    /// Of the pass 0: the number and the entries of each pass that it took in.
    pub joined: LinkedList<(u64, LinkedList<E>)>,
    /// Of the pass 0: what it and the pass that it took in last had seen then.
    pub met: (LinkedList<E>, LinkedList<E>),
}
