//! The rule of the table, and what each kind of step tells.
use crate::grown::Grown;
use crate::views::View;
use atomic_table::{Join, Play, Split, TableRule};
use std::snapshot::Snapshot;

/// The rule that holds between any two steps.
pub struct OneHistory;

impl<V: Grown> TableRule<Option<V>, View<V::Entry, V::Ground>, Snapshot<V>> for OneHistory {
    ghost use Rattle.dw_history.specs.Rule.{IsOneHistory};
    ghost use Rattle.dw_history.specs.Views.{first_view};

    ghost holds = { λ start. IsOneHistory V.history_of V.number_of V.ground_of (V.ground_of start.value) };

    ghost first = { λ start. first_view (V.ground_of start.value) };
}

/// A ticket is drawn.
pub struct Draw;

impl<V: Grown> Play<Option<V>, View<V::Entry, V::Ground>> for Draw {
    ghost use Rattle.dw_history.specs.Steps.{Draws};

    ghost then = { λ step before found after. Draws before found after };
}

/// The serving number is looked at.
pub struct Look;

impl<V: Grown> Play<Option<V>, View<V::Entry, V::Ground>> for Look {
    ghost use Rattle.dw_history.specs.Steps.{Looks};

    ghost then = { λ step before found after. Looks V.history_of V.number_of V.ground_of before found after };
}

/// The turn ends.
pub struct Advance;

impl<V: Grown> Play<Option<V>, View<V::Entry, V::Ground>> for Advance {
    ghost use Rattle.dw_history.specs.Steps.{Advances};

    ghost then = { λ step before found after. Advances V.history_of before after };
}

/// A pass is made from the pass 0.
pub struct Make;

impl<E, G> Split<View<E, G>> for Make {
    ghost use Rattle.dw_history.specs.Views.{view_after_split, view_of_new};

    ghost left = { view_after_split };

    ghost right = { view_of_new };
}

/// The pass 0 takes another in.
pub struct TakeIn;

impl<E, G> Join<View<E, G>> for TakeIn {
    ghost use Rattle.dw_history.specs.Views.{view_after_join, spent_view};

    ghost both = { view_after_join };

    ghost spent = { spent_view };
}
