//! One value, behind the value before it.

ghost use Rattle.std.specs.Prelude.{◌≡◌, ◌≤◌, ◌++◌, length, take, IfSome, IfNone, OnOk};
ghost use Rattle.std.specs.Option.{ForSome};
ghost use Rattle.dw_codec_plain.specs.Numbers.{IsWidth, FitsWidth};
ghost use Rattle.dw_codec_plain.specs.Spelling.{IsItem, NoItem, IsLongestFront};
ghost use Rattle.dw_codec_plain.specs.Encodings.{IsMostlyStep};
ghost use Rattle.dw_codec_delta.specs.Delta.{delta_item};

use dw_codec_plain::numbers::{
    greatest_number, least_number, longest_front, number_at, push_number,
};
use dw_codec_plain::step::{is_near, push_short_or_full, short_or_full_at, short_or_full_front};
use std::alloc::AllocError;

// How many bytes spell a value.
pub fn item_len(width: u8, step: u8, before: Option<i128>, value: i128) -> usize
    requires { IsMostlyStep step }
{
    match before {
        Some(base) if is_near(step, base, value) => usize::from(step),
        Some(_) => usize::from(step) + usize::from(width),
        None => usize::from(width),
    }
}

// Writes a value at the end. An `Err` may leave some of its bytes there.
pub fn push_item(
    out: &mut Vec<u8>,
    width: u8,
    step: u8,
    before: Option<i128>,
    value: i128,
) -> Result<(), AllocError>
    requires width { IsWidth width }
    requires step { IsMostlyStep step }
    ensures ok { OnOk result (out.new.items ≡ out.old.items ++ delta_item width step before value) }
{
    match before {
        Some(base) => push_short_or_full(out, width, step, base, value),
        None => push_number(out, width, value),
    }
}

// The value at the front of the bytes, and how many bytes spell it. `None` where no value's spelling is there.
pub fn item_at(width: u8, step: u8, before: Option<i128>, bytes: &[u8]) -> Option<(i128, usize)>
    requires width { IsWidth width }
    requires step { IsMostlyStep step }
    ensures fits { IfSome result (λ found. FitsWidth width found.0) }
    ensures length { IfSome result (λ found. found.1 ≤ length bytes.now) }
    ensures spells { IfSome result (λ found. take found.1 bytes.now ≡ delta_item width step before found.0) }
    ensures none { IfNone result (NoItem (delta_item width step) (FitsWidth width) before bytes.now) }
{
    match before {
        Some(base) => short_or_full_at(width, step, base, bytes),
        None => {
            if bytes.len() < usize::from(width) {
                return None;
            }
            Some((number_at(width, bytes), usize::from(width)))
        }
    }
}

// How many of the first bytes begin the spelling of some value.
pub fn item_front(width: u8, step: u8, before: Option<i128>, bytes: &[u8]) -> usize
    requires width { IsWidth width }
    requires step { IsMostlyStep step }
    requires before { ForSome before (FitsWidth width) }
    ensures { IsLongestFront (IsItem (delta_item width step) (FitsWidth width) before) bytes.now result }
{
    match before {
        Some(base) => short_or_full_front(width, step, base, bytes),
        None => longest_front(width, least_number(width), greatest_number(width), bytes),
    }
}
