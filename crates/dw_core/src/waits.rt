//! Whom a session waits for.
ghost use Rattle.std.specs.Prelude.{◌≡◌};
ghost use Rattle.dw_model.specs.Binding.{same_name};

use dw_value::List;

/// Whether these are the same sessions, one after another. Contracts compare lists of numbers as they compare names.
pub(crate) fn are_same(these: &List<u32>, those: &List<u32>) -> bool
    ensures { result ≡ same_name these.now those.now }
{
    these == those
}
