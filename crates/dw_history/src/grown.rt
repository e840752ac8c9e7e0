//! What a value has to have to be kept, and what is done to it in one turn.
ghost use Rattle.std.specs.Prelude.{◌≡◌, ℕ, List};
ghost use Rattle.dw_history.specs.Histories.{AppendsOnly};

/// A value that has a history, which an act only extends, and a ground, which no act changes.
///
/// `history_of` gives the entries, the oldest first, `number_of` the number of the pass that made an entry, and
/// `ground_of` the ground. They are for contracts alone: a value needs to keep neither its history nor its ground.
pub trait Grown {
    /// One entry of the history.
    type Entry;

    /// What a value stands on.
    type Ground;

    ghost history_of: { Self → List Self.Entry };

    ghost number_of: { Self.Entry → ℕ };

    ghost ground_of: { Self → Self.Ground };
}

/// What is done to a value in one turn.
///
/// `number` is that of each entry which it appends, and so of the pass whose turn it is. `need` is what it asks of the
/// ground and of the history of the value that it is given. `outcome` is what holds after it, of the ground, of the
/// history before and after, and of the act itself before and after: in it the act brings back its answer.
pub trait Act<V: Grown> {
    ghost number: { Self → ℕ };

    ghost need: { V.Ground → List V.Entry → Self → Type 0 };

    ghost outcome: { V.Ground → List V.Entry → List V.Entry → Self → Self → Type 0 };

    /// Does it. It keeps the ground, appends entries of its own number or none, and leaves its outcome.
    fn act(&mut self, value: &mut V)
        requires { need (V.ground_of value.old) (V.history_of value.old) self.old }
        ensures stands { V.ground_of value.new ≡ V.ground_of value.old }
        ensures grows { AppendsOnly V.number_of (number self.old) (V.history_of value.old) (V.history_of value.new) }
        ensures outcome { outcome (V.ground_of value.old) (V.history_of value.old) (V.history_of value.new)
            self.old self.new };
}
