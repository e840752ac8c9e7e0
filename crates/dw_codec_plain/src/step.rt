//! Numbers in a short form of one, two or four bytes, or in full width behind a mark. MOSTLY spells values so, and
//! DELTA their differences.

ghost use Rattle.std.specs.Prelude.{◌≡◌, ◌≤◌, ◌^◌, ◌++◌, ◌≤ℤ◌, ◌<ℤ◌, ◌+ℤ◌, ◌-ℤ◌, ◌↔◌, ℤ, pos, neg_ℤ, length, take, IfSome, IfNone, None, OnOk};
ghost use Rattle.std.specs.Int.{int_max, int_min};
ghost use Rattle.dw_codec_plain.specs.Numbers.{IsWidth, half, FitsWidth};
ghost use Rattle.dw_codec_plain.specs.Spelling.{IsItem, NoItem, IsLongestFront, IsLongestFrontIfAny};
ghost use Rattle.dw_codec_plain.specs.Encodings.{is_short, short_or_full, near_item, IsMostlyStep, IsShortForm, IsMarkedWithin};

use crate::numbers::{
    fits_width, greatest_number, half_range, least_number, longest_front, number_at, push_number,
};
use std::alloc::AllocError;

/// Whether the difference of a value from a base is short.
pub fn is_near(step: u8, base: i128, value: i128) -> bool
    requires { IsMostlyStep step }
    ensures { result ≡ is_short step (value -ℤ base) }
{
    value.abs_diff(base) < half_range(step)
}

/// Writes a value at the end: its difference from the base in `step` bytes where that is short, and else the mark
/// and the value in `width` bytes. An `Err` may leave some of the bytes there.
pub fn push_short_or_full(
    out: &mut Vec<u8>,
    width: u8,
    step: u8,
    base: i128,
    value: i128,
) -> Result<(), AllocError>
    requires width { IsWidth width }
    requires step { IsMostlyStep step }
    ensures ok { OnOk result (out.new.items ≡ out.old.items ++ short_or_full width step (value -ℤ base) value) }
{
    if is_near(step, base, value) {
        push_number(out, step, value - base)
    } else {
        push_number(out, step, least_number(step))?;
        push_number(out, width, value)
    }
}

// The sum, where it fits the width.
fn sum_within(width: u8, base: i128, small: i128) -> Option<i128>
    requires { IsWidth width }
    ensures some { IfSome result (λ sum. (sum ≡ base +ℤ small) × FitsWidth width sum) }
    ensures none { IfNone result (¬ FitsWidth width (base +ℤ small)) }
{
    let sum = base.checked_add(small)?;
    if fits_width(width, sum) {
        Some(sum)
    } else {
        None
    }
}

/// The value that is spelled at the front of the bytes, by its difference from the base or in full, and how many
/// bytes spell it. `None` where no value's spelling is there.
pub fn short_or_full_at(width: u8, step: u8, base: i128, bytes: &[u8]) -> Option<(i128, usize)>
    requires width { IsWidth width }
    requires step { IsMostlyStep step }
    ensures fits { IfSome result (λ found. FitsWidth width found.0) }
    ensures length { IfSome result (λ found. found.1 ≤ length bytes.now) }
    ensures spells { IfSome result (λ found. take found.1 bytes.now ≡ short_or_full width step (found.0 -ℤ base) found.0) }
    ensures none { IfNone result (NoItem (near_item width step base) (FitsWidth width) None bytes.now) }
{
    let short = usize::from(step);
    if bytes.len() < short {
        return None;
    }
    let small = number_at(step, bytes);
    if small != least_number(step) {
        let value = sum_within(width, base, small)?;
        return Some((value, short));
    }
    let (_, rest) = bytes.split_at(short);
    if rest.len() < usize::from(width) {
        return None;
    }
    let value = number_at(width, rest);
    if is_near(step, base, value) {
        return None;
    }
    Some((value, short + usize::from(width)))
}

// Half the range of a step, which is the size of the mark.
fn mark_size(step: u8) -> i128
    requires { IsMostlyStep step }
    ensures value { result ≡ pos (half step) }
    ensures least { pos 128 ≤ℤ result }
    ensures greatest { result ≤ℤ pos (2 ^ 31) }
{
    half_range(step) as i128
}

// The least short difference from the base of a value that fits the width.
fn short_low(width: u8, step: u8, base: i128) -> i128
    requires width { IsWidth width }
    requires step { IsMostlyStep step }
    requires base { FitsWidth width base }
    ensures { result ≡ int_max (pos 1 -ℤ pos (half step)) (neg_ℤ (pos (half width)) -ℤ base) }
{
    let half = mark_size(step);
    let least = least_number(width);
    if least + half <= base {
        1 - half
    } else {
        least - base
    }
}

// The greatest short difference from the base of a value that fits the width.
fn short_high(width: u8, step: u8, base: i128) -> i128
    requires width { IsWidth width }
    requires step { IsMostlyStep step }
    requires base { FitsWidth width base }
    ensures { result ≡ int_min (pos (half step) -ℤ pos 1) ((pos (half width) -ℤ pos 1) -ℤ base) }
{
    let half = mark_size(step);
    let greatest = greatest_number(width);
    if base <= greatest - half {
        half - 1
    } else {
        greatest - base
    }
}

// How many of the first bytes begin the mark and, behind it, some value from `low` to `high` in full width.
fn marked_front(width: u8, step: u8, low: i128, high: i128, bytes: &[u8]) -> usize
    requires width { IsWidth width }
    requires step { IsMostlyStep step }
    requires order { low ≤ℤ high }
    ensures { IsLongestFront (IsMarkedWithin width step low high) bytes.now result }
{
    let mark = least_number(step);
    let short = usize::from(step);
    let marked = longest_front(step, mark, mark, bytes);
    if marked < short {
        return marked;
    }
    let (_, rest) = bytes.split_at(marked);
    marked + longest_front(width, low, high, rest)
}

// The same for the values that are not short and lie below the base; 0 where there is none.
fn below_front(width: u8, step: u8, base: i128, bytes: &[u8]) -> usize
    requires width { IsWidth width }
    requires step { IsMostlyStep step }
    requires base { FitsWidth width base }
    ensures { IsLongestFrontIfAny (IsMarkedWithin width step (neg_ℤ (pos (half width))) (base -ℤ pos (half step))) bytes.now result }
{
    let half = mark_size(step);
    let least = least_number(width);
    if least + half <= base {
        marked_front(width, step, least, base - half, bytes)
    } else {
        0
    }
}

// The same for those above the base.
fn above_front(width: u8, step: u8, base: i128, bytes: &[u8]) -> usize
    requires width { IsWidth width }
    requires step { IsMostlyStep step }
    requires base { FitsWidth width base }
    ensures { IsLongestFrontIfAny (IsMarkedWithin width step (base +ℤ pos (half step)) (pos (half width) -ℤ pos 1)) bytes.now result }
{
    let half = mark_size(step);
    let greatest = greatest_number(width);
    if base <= greatest - half {
        marked_front(width, step, base + half, greatest, bytes)
    } else {
        0
    }
}

/// How many of the first bytes begin the spelling of some value, by its difference from the base or in full.
pub fn short_or_full_front(width: u8, step: u8, base: i128, bytes: &[u8]) -> usize
    requires width { IsWidth width }
    requires step { IsMostlyStep step }
    requires base { FitsWidth width base }
    ensures { IsLongestFront (IsItem (near_item width step base) (FitsWidth width) None) bytes.now result }
{
    let low = short_low(width, step, base);
    let high = short_high(width, step, base);
    let short = longest_front(step, low, high, bytes);
    let below = below_front(width, step, base, bytes);
    let above = above_front(width, step, base, bytes);
    let longest = short.max(below);
    longest.max(above)
}
