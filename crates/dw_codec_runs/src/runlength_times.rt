//! How long a run is: the two bytes before its value.

ghost use Rattle.std.specs.Prelude.{◌≡◌, ◌≤◌, ◌<◌, ◌++◌, IfSome, IfNone, None, OnOk};
ghost use Rattle.dw_codec_plain.specs.Numbers.{low_bytes};
ghost use Rattle.dw_codec_plain.specs.Spelling.{IsItem, NoItem, IsLongestFront};
ghost use Rattle.dw_codec_runs.specs.Runs.{IsTimes, times_item};

use dw_codec_plain::numbers::{longest_front, natural};
use std::alloc::AllocError;

/// Writes how long a run is at the end, in two bytes. An `Err` may leave some of them there.
pub fn push_times(out: &mut Vec<u8>, times: u16) -> Result<(), AllocError>
    ensures ok { OnOk result (out.new.items ≡ out.old.items ++ low_bytes 2 times) }
{
    out.extend_from_slice(&times.to_le_bytes())
}

/// How long a run at the front of the bytes is, where at most `left` values are left, and the bytes behind that.
/// `None` where no such length is there.
pub fn times_at(left: usize, bytes: &[u8]) -> Option<(usize, &[u8])>
    requires { left ≤ 4096 }
    ensures times { IfSome result (λ found. IsTimes left found.0) }
    ensures spells { IfSome result (λ found. bytes.now ≡ low_bytes 2 found.0 ++ found.1.now) }
    ensures none { IfNone result (NoItem times_item (IsTimes left) None bytes.now) }
{
    if bytes.len() < 2 {
        return None;
    }
    let (head, after) = bytes.split_at(2);
    let times = natural(head) as usize;
    if times < 1 || left < times {
        return None;
    }
    Some((times, after))
}

/// How many of the first bytes begin such a length.
pub fn times_front(left: usize, bytes: &[u8]) -> usize
    requires some { 0 < left }
    requires most { left ≤ 4096 }
    ensures { IsLongestFront (IsItem times_item (IsTimes left) None) bytes.now result }
{
    longest_front(2, 1, left as i128, bytes)
}
