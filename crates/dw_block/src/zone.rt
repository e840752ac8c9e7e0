//! Zones: the least and the greatest value of a block, and how many NULLs it has.
ghost use Rattle.std.specs.Prelude.{◌≡◌, ◌≤◌, length, IfOk};
ghost use Rattle.std.specs.Option.{option_copied};
ghost use Rattle.std.specs.Ordering.{flip_args};
ghost use Rattle.dw_value.specs.Values.{value_cmp};
ghost use Rattle.dw_block.specs.Zones.{earlier, zone_of, may_hold, may_match, HasScale};

use dw_value::{Comparison, Value, compare};
use std::alloc::AllocError;
use std::cmp::Ordering;

/// What a reader may know of a block's values without decoding them.
#[derive(Debug, Drop)]
pub struct Zone {
    /// The least value that isn't NULL, in the order of values. There is none where all are NULL.
    pub least: Option<Value>,
    /// The greatest value that isn't NULL, in the order of values. There is none where all are NULL.
    pub greatest: Option<Value>,
    /// How many values are NULL.
    pub nulls: u32,
}

/// One condition on a column's value.
#[derive(Debug, Drop)]
pub enum Test {
    /// The column's value is compared with this one, which stands on the right side and is given at `scale`, from 0 to
    /// 37.
    Compare {
        comparison: Comparison,
        value: Value,
        scale: u8,
    },
    /// IS NULL
    IsNull,
    /// IS NOT NULL
    NotNull,
}

/// Of the least value so far and one more, the least, where NULL is passed over.
fn lesser<'a>(least: Option<&'a Value>, value: &'a Value) -> Option<&'a Value>
    ensures { option_copied result ≡ earlier value_cmp (option_copied least.entry) value.now }
{
    if value.is_null() {
        return least;
    }
    match least {
        Some(found) if value.cmp(found).is_ge() => least,
        _ => Some(value),
    }
}

/// Of the greatest value so far and one more, the greatest, where NULL is passed over.
fn greater<'a>(greatest: Option<&'a Value>, value: &'a Value) -> Option<&'a Value>
    ensures { option_copied result ≡ earlier (flip_args value_cmp) (option_copied greatest.entry) value.now }
{
    if value.is_null() {
        return greatest;
    }
    match greatest {
        Some(found) if found.cmp(value).is_ge() => greatest,
        _ => Some(value),
    }
}

/// A copy of the value, if there is one.
fn copy_of(value: Option<&Value>) -> Result<Option<Value>, AllocError>
    ensures { IfOk result (λ copy. copy ≡ option_copied value.entry) }
{
    match value {
        Some(value) => Ok(Some(value.copy()?)),
        None => Ok(None),
    }
}

/// The zone of the values. A text is copied on its own allocator.
pub fn zone_of(values: &[Value]) -> Result<Zone, AllocError>
    requires { length values.now ≤ 4096 }
    ensures { IfOk result (λ zone. zone ≡ zone_of values.now) }
{
    let mut least: Option<&Value> = None;
    let mut greatest: Option<&Value> = None;
    let mut nulls = 0;
    for value in values {
        least = lesser(least, value);
        greatest = greater(greatest, value);
        if value.is_null() {
            nulls += 1;
        }
    }
    let least = copy_of(least)?;
    let greatest = copy_of(greatest)?;
    Ok(Zone {
        least,
        greatest,
        nulls,
    })
}

/// Whether a comparison with a value may hold of values between two bounds, which stand so to it.
fn may_hold(comparison: Comparison, least: Ordering, greatest: Ordering) -> bool
    ensures { result ≡ may_hold comparison least greatest }
{
    match comparison {
        Comparison::Equal => least.is_le() && greatest.is_ge(),
        Comparison::Unequal => least.is_ne() || greatest.is_ne(),
        Comparison::Less => least.is_lt(),
        Comparison::AtMost => least.is_le(),
        Comparison::Greater => greatest.is_gt(),
        Comparison::AtLeast => greatest.is_ge(),
    }
}

/// Whether some value of a block may pass the test, where this is the block's zone, and its column has the scale
/// `zone_scale`, at most 37. False is exact: then no value passes. A comparison with NULL never matches; `=` matches
/// where least <= value <= greatest, `<>` unless both equal it, `<` where least < value, `<=` where least <= value, `>`
/// where greatest > value and `>=` where greatest >= value, numbers as exact numbers at their scales; none of them does
/// where all values are NULL. IS NULL wants a NULL, IS NOT NULL another value. It takes no memory.
pub fn may_match(zone: &Zone, zone_scale: u8, test: &Test) -> bool
    requires zone_scale { zone_scale ≤ 37 }
    requires test_scale { HasScale test.now }
    ensures { result ≡ may_match zone.now zone_scale test.now }
{
    match test {
        Test::Compare {
            comparison,
            value,
            scale,
        } => match (&zone.least, &zone.greatest) {
            (Some(least), Some(greatest)) if !value.is_null() => may_hold(
                *comparison,
                compare(least, zone_scale, value, *scale),
                compare(greatest, zone_scale, value, *scale),
            ),
            _ => false,
        },
        Test::IsNull => zone.nulls > 0,
        Test::NotNull => zone.least.is_some(),
    }
}
