//! The object that a violation names.
ghost use Rattle.std.specs.Prelude.{◌≡◌, true, slice_get, option_and_then};
ghost use Rattle.std.specs.Option.{option_map_or};
ghost use Rattle.dw_model.specs.Objects.{object_before};

use dw_model::Object;

/// Whether an object comes before the one at this place, if there is one.
pub(crate) fn comes_first(object: &Object, objects: &[Object], place: Option<usize>) -> bool
    ensures { result ≡ option_map_or (object_before object.now) (option_and_then (slice_get objects.now) place) true }
{
    let Some(place) = place else {
        return true;
    };
    match objects.get(place) {
        Some(other) => object.is_before(other),
        None => true,
    }
}
