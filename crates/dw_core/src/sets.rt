//! Sets of objects, as ascending lists, into which objects are put where there is room for them.
ghost use Rattle.std.specs.Prelude.{◌≡◌, ◌+◌, ◌<◌, ◌≤◌, false, length, slice_get};
ghost use Rattle.std.specs.Option.{option_map_or};
ghost use Rattle.std.specs.Vec.{vec_capacity, vec_len};
ghost use Rattle.dw_model.specs.Objects.{IsAscendingObjects, same_object, with_object, with_objects};

use dw_model::Object;
use dw_value::List;

/// Puts these objects into an ascending list that has room for them, each at its place and once, by binary search.
pub(crate) fn put_all(set: &mut Vec<Object>, more: List<Object>)
    requires room { vec_len set.old + length more ≤ vec_capacity set.old }
    requires ascending { IsAscendingObjects set.old.items }
    ensures { set.new.items ≡ with_objects more set.old.items }
{
    let mut left = more;
    while let Some(object) = left.pop() {
        put(set, object);
    }
}

// Puts an object into an ascending list that has room for it.
fn put(set: &mut Vec<Object>, object: Object)
    requires room { vec_len set.old < vec_capacity set.old }
    requires ascending { IsAscendingObjects set.old.items }
    ensures items { set.new.items ≡ with_object object set.old.items }
    ensures len { vec_len set.new ≤ vec_len set.old + 1 }
    ensures capacity { vec_capacity set.old ≤ vec_capacity set.new }
{
    let place = set.partition_point(|other| other.is_before(&object));
    if !stands_at(set.as_slice(), place, &object) {
        let _inserted = set.insert(place, object);
    }
}

// Whether the object stands at this place.
fn stands_at(objects: &[Object], place: usize, object: &Object) -> bool
    ensures { result ≡ option_map_or (same_object object.now) (slice_get objects.now place) false }
{
    match objects.get(place) {
        Some(other) => object.is_same(other),
        None => false,
    }
}
