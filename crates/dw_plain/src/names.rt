//! Names, looked up in lists of names.
ghost use Rattle.std.specs.Prelude.{◌≡◌, [], position};
ghost use Rattle.std.specs.Option.{option_copied};
ghost use Rattle.dw_model.specs.Binding.{is_name_in, repeated_after, same_name};

use dw_value::Text;

/// Whether a name is one of these. It takes no memory.
pub(crate) fn is_name_in(names: &[Text], name: &Text) -> bool
    ensures { result ≡ is_name_in names.now name.now }
{
    names.iter().any(|other| *name == *other)
}

/// The place of a name among these, from 0, if it is there. It takes no memory.
pub(crate) fn place_in(names: &[Text], name: &Text) -> Option<usize>
    ensures { result ≡ position (same_name name.now) names.now }
{
    names.iter().position(|other| *name == *other)
}

/// The first name that stands in the list a second time. It takes no memory.
pub(crate) fn repeated_name(names: &[Text]) -> Option<&Text>
    ensures { option_copied result ≡ repeated_after [] names.now }
{
    for (place, name) in names.iter().enumerate() {
        if is_name_in(&names[..place], name) {
            return Some(name);
        }
    }
    None
}
