//! The object that a violation names.
ghost use Rattle.std.specs.Prelude.{◌≡◌, ◌≤◌, ◌<◌, length, reverse, true, slice_get, option_and_then, IfSome};
ghost use Rattle.std.specs.List.{filter};
ghost use Rattle.std.specs.Option.{option_map_or};
ghost use Rattle.dw_model.specs.Objects.{object_before};
ghost use Rattle.dw_journal.specs.Watermarks.{least_object, written_at_low};

use crate::objects::contains;
use dw_journal::Certified;
use dw_model::Object;

/// The place of the least object, of those read, that a commit after the snapshot, of this low watermark, wrote. The
/// commits stand with the oldest first.
pub(crate) fn violated_place(
    commits: &[Certified],
    snapshot: u64,
    low: u64,
    reads: &[Object],
) -> Option<usize>
    ensures least { option_and_then (slice_get reads.now) result
        ≡ least_object (filter (written_at_low low snapshot (reverse commits.now)) reads.now) }
    ensures within { IfSome result (λ place. place < length reads.now) }
{
    let mut least = None;
    for (place, object) in reads.iter().enumerate() {
        if is_written_at(commits, snapshot, low, object) && comes_first(object, reads, least) {
            least = Some(place);
        }
    }
    least
}

/// Whether a commit after the snapshot, of this low watermark, wrote the object.
fn is_written_at(commits: &[Certified], snapshot: u64, low: u64, object: &Object) -> bool
    ensures { result ≡ written_at_low low snapshot (reverse commits.now) object.now }
{
    let mut left = commits.len();
    while left as u64 > snapshot {
        let commit = &commits[left - 1];
        if commit.low == low && contains(commit.taken.writes.as_slice(), object) {
            return true;
        }
        left -= 1;
    }
    false
}

/// Whether an object comes before the one at this place, if there is one.
fn comes_first(object: &Object, objects: &[Object], place: Option<usize>) -> bool
    ensures { result ≡ option_map_or (object_before object.now) (option_and_then (slice_get objects.now) place) true }
{
    let Some(place) = place else {
        return true;
    };
    match objects.get(place) {
        Some(other) => object.is_before(other),
        None => true,
    }
}
