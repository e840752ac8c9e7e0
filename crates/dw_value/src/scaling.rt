//! Numbers at other scales: more digits after the point, or fewer.
ghost use Rattle.std.specs.Prelude.{◌≡◌, ◌<◌, ◌≤◌, ◌^◌, FitsSigned, SomeIff};
ghost use Rattle.std.specs.Int.{w128};
ghost use Rattle.dw_value.specs.Arithmetic.{raised, nearest, rounded, rescaled};

/// The coefficient of the same number with so many more digits after its point. `None` comes exactly where it doesn't
/// fit in 128 bits.
pub(crate) fn raise(number: i128, places: u8) -> Option<i128>
    ensures { SomeIff result (FitsSigned w128 (raised places number)) (raised places number) }
{
    if number == 0 {
        return Some(0);
    }
    if places > 38 {
        return None;
    }
    number.checked_mul(10_i128.pow(u32::from(places)))
}

/// How many units come nearest to a size.
fn nearest(size: u128, unit: u128) -> u128
    requires some { 0 < unit }
    requires unit { unit ≤ 2 ^ 127 }
    requires size { size ≤ 2 ^ 127 }
    ensures { result ≡ nearest size unit }
{
    if unit <= 2 * (size % unit) {
        size / unit + 1
    } else {
        size / unit
    }
}

/// The number in units of 10^`places`, where a half is rounded away from zero.
fn round_off(number: i128, places: u8) -> i128
    ensures { result ≡ rounded (10 ^ places) number }
{
    if places == 0 {
        return number;
    }
    if places > 38 {
        return 0;
    }
    let units = nearest(number.unsigned_abs(), 10_u128.pow(u32::from(places))) as i128;
    if number < 0 { -units } else { units }
}

/// The coefficient at the scale `to` of a number given at the scale `from`, where a half is rounded away from zero.
/// `None` comes exactly where it doesn't fit in 128 bits.
pub(crate) fn rescale(number: i128, from: u8, to: u8) -> Option<i128>
    ensures { SomeIff result (FitsSigned w128 (rescaled from to number)) (rescaled from to number) }
{
    if from <= to {
        raise(number, to - from)
    } else {
        Some(round_off(number, from - to))
    }
}
