//! Ascending lists of objects.
ghost use Rattle.std.specs.Prelude.{◌≡◌, ◌<◌, ◌≤◌, false, length, slice_get, MatchResult};
ghost use Rattle.std.specs.Option.{option_map_or};
ghost use Rattle.dw_model.specs.Objects.{IsAscendingObjects, same_object};
ghost use Rattle.dw_ssn.specs.Places.{IsFound};

use dw_model::Object;

/// The place of an object in an ascending list, by binary search, or the place to which it would go.
pub(crate) fn find(objects: &[Object], object: &Object) -> Result<usize, usize>
    ensures found { IsAscendingObjects objects.now → IsFound object.now objects.now result }
    ensures within { MatchResult result (λ place. place < length objects.now) (λ place. place ≤ length objects.now) }
{
    let place = objects.partition_point(|other| other.is_before(object));
    if stands_at(objects, place, object) {
        Ok(place)
    } else {
        Err(place)
    }
}

/// Whether the object stands at this place.
fn stands_at(objects: &[Object], place: usize, object: &Object) -> bool
    ensures { result ≡ option_map_or (same_object object.now) (slice_get objects.now place) false }
{
    match objects.get(place) {
        Some(other) => object.is_same(other),
        None => false,
    }
}
