//! The columns of a table, by their names.
ghost use Rattle.std.specs.Prelude.{◌≡◌};
ghost use Rattle.std.specs.Option.{option_copied};
ghost use Rattle.dw_model.specs.Binding.{column_of, first_unknown};
ghost use Rattle.dw_plain.specs.Places.{place_of};

use dw_model::Column;
use dw_value::Text;

/// The column of this name, if there is one. It takes no memory.
pub(crate) fn column_at<'a>(columns: &'a [Column], name: &Text) -> Option<&'a Column>
    ensures { option_copied result ≡ column_of columns.now name.now }
{
    for column in columns {
        if column.name == *name {
            return Some(column);
        }
    }
    None
}

/// The place of the column of this name, from 0, if there is one. It takes no memory.
pub(crate) fn column_place(columns: &[Column], name: &Text) -> Option<usize>
    ensures { result ≡ place_of columns.now name.now }
{
    for (place, column) in columns.iter().enumerate() {
        if column.name == *name {
            return Some(place);
        }
    }
    None
}

/// The first of these names that is no column. It takes no memory.
pub(crate) fn unknown_column<'a>(columns: &[Column], names: &'a [Text]) -> Option<&'a Text>
    ensures { option_copied result ≡ first_unknown columns.now names.now }
{
    for name in names {
        if column_at(columns, name).is_none() {
            return Some(name);
        }
    }
    None
}
