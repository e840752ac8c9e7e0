//! Sets of objects, as lists.
ghost use Rattle.std.specs.Prelude.{◌≡◌};
ghost use Rattle.dw_model.specs.Objects.{is_among};
ghost use Rattle.dw_journal.specs.Watermarks.{overlaps};

use dw_model::Object;

/// Whether an object is among these.
pub(crate) fn contains(objects: &[Object], object: &Object) -> bool
    ensures { result ≡ is_among object.now objects.now }
{
    objects.iter().any(|other| object.is_same(other))
}

/// Whether two sets have an object in common.
pub(crate) fn have_common(a: &[Object], b: &[Object]) -> bool
    ensures { result ≡ overlaps a.now b.now }
{
    a.iter().any(|object| contains(b, object))
}
