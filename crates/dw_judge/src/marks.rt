//! The watermarks of a transaction, over all commits.
ghost use Rattle.std.specs.Prelude.{◌≡◌, reverse, min, max, if◌then◌else◌};
ghost use Rattle.dw_journal.specs.Watermarks.{counts_for_high, counts_for_low, high_watermark, low_watermark};

use crate::objects::have_common;
use dw_journal::{Certified, Taken};

/// A low and a high watermark.
#[derive(Clone, Copy, Debug)]
pub(crate) struct Bounds {
    pub(crate) low: u64,
    pub(crate) high: u64,
}

/// The watermarks over these commits, the oldest first. It looks from the newest one back, and stops where no older one
/// can count.
pub(crate) fn bounds_over(commits: &[Certified], taken: &Taken) -> Bounds
    ensures low { result.low ≡ low_watermark taken.now (reverse commits.now) }
    ensures high { result.high ≡ high_watermark taken.now (reverse commits.now) }
{
    let mut left = commits.len();
    let mut bounds = Bounds {
        low: left as u64 + 1,
        high: 0,
    };
    while left > 0 {
        if left as u64 <= taken.snapshot && left as u64 <= bounds.high {
            return bounds;
        }
        bounds = with_commit(bounds, &commits[left - 1], left as u64, taken);
        left -= 1;
    }
    bounds
}

/// The watermarks with one more commit, of this stamp.
fn with_commit(bounds: Bounds, commit: &Certified, stamp: u64, taken: &Taken) -> Bounds
    ensures low { result.low ≡ (if counts_for_low stamp taken.now commit.now
        then min commit.now.low bounds.low else bounds.low) }
    ensures high { result.high ≡ (if counts_for_high stamp taken.now commit.now
        then max stamp bounds.high else bounds.high) }
{
    let reads = taken.reads.as_slice();
    let writes = taken.writes.as_slice();
    let has_written = have_common(commit.taken.writes.as_slice(), reads);
    let counts_for_low = taken.snapshot < stamp && has_written;
    let counts_for_high = stamp <= taken.snapshot && has_written
        || have_common(commit.taken.writes.as_slice(), writes)
        || have_common(commit.taken.reads.as_slice(), writes);
    Bounds {
        low: if counts_for_low {
            commit.low.min(bounds.low)
        } else {
            bounds.low
        },
        high: if counts_for_high {
            stamp.max(bounds.high)
        } else {
            bounds.high
        },
    }
}
