//! A law of zones: a call that does nothing, whose contract speaks of every list of values.
ghost use Rattle.std.specs.Prelude.{◌≡◌, ℕ, List as Items, true};
ghost use Rattle.std.specs.List.{list_any};
ghost use Rattle.dw_value.specs.declared.values.Value.{Value as Item};
ghost use Rattle.dw_block.specs.declared.zone.Test.{Test as Condition};
ghost use Rattle.dw_block.specs.Zones.{zone_of, may_match, passes_test};

/// Wherever some value of a block passes a test, the block may match by its zone.
pub fn no_match_is_lost()
    ensures { (values : Items Item) (scale : ℕ) (test : Condition) → list_any (passes_test scale test) values ≡ true
        → may_match (zone_of values) scale test ≡ true }
{}
