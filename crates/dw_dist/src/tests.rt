//! Tests of places.
ghost use Rattle.std.specs.Prelude.{◌≤◌};

use crate::places::place;
use dw_value::{Style, Text, Value};
use std::alloc::{AllocError, Global};
use std::test::Fail;

/// In each row: the style, the key's value (a number, a day after `d`, a truth `t` or `f`, a text after `'`, or `null`), the
/// id, the nodes, the slices of each, and the places. 31 * 97 + 98 is 3105, the hash of `ab`.
const ROWS: &str = "key 4 0 2 2 0
key 5 1 2 2 1
key 6 2 2 2 2
key null 3 2 2 0
key -1 0 2 2 3
key -170141183460469231731687303715884105728 0 16 16 0
key 170141183460469231731687303715884105727 0 16 16 255
key 'ab 0 1 16 1
key 'ab 0 16 16 33
key 'abc 0 10 1 4
key d-1 0 2 2 3
key d19782 0 2 2 2
key t 9 2 2 1
key t 9 1 1 0
key f 9 2 2 0
even 4 0 2 2 0
even 4 3 2 2 3
even null 18446744073709551615 3 5 0
all 7 5 1 1 0
all null 0 2 2 0 2
all 1 1 3 4 0 4 8
all 1 1 16 16 0 16 32 48 64 80 96 112 128 144 160 176 192 208 224 240";

/// The key's value that a field says.
fn key_of(alloc: Global, field: &str) -> Result<Value, AllocError> {
    if let Some(text) = field.strip_prefix("'") {
        return Ok(Value::Words(Text::from_str(alloc, text)?));
    }
    if let Some(day) = field.strip_prefix("d") {
        return Ok(Value::Day(day.parse::<i32>().unwrap_or(0)));
    }
    Ok(match field {
        "t" => Value::Truth(true),
        "f" => Value::Truth(false),
        "null" => Value::Null,
        number => Value::Number(number.parse::<i128>().unwrap_or(0)),
    })
}

/// The style that a field says.
fn style_of(field: &str) -> Style {
    match field {
        "key" => Style::Key { column: 0 },
        "even" => Style::Even,
        _ => Style::All,
    }
}

/// A number of nodes or slices.
fn count_of(field: &str) -> u32
    ensures { (1 ≤ result) × (result ≤ 16) }
{
    field.parse::<u32>().unwrap_or(1).clamp(1, 16)
}

/// Whether the places of a row are those at its end.
fn holds(alloc: Global, row: &str) -> Result<bool, AllocError> {
    let mut fields = row.splitn(6, ' ');
    let style = style_of(fields.next().unwrap_or(""));
    let key = key_of(alloc, fields.next().unwrap_or(""))?;
    let id = fields.next().unwrap_or("").parse::<u64>().unwrap_or(0);
    let nodes = count_of(fields.next().unwrap_or(""));
    let slices = count_of(fields.next().unwrap_or(""));
    let places = place(&style, &key, id, nodes, slices);
    let mut text = String::new(alloc);
    for slice in places.as_slice() {
        let one = format!(in alloc; " {slice}")?;
        text.push_str(one.as_str())?;
    }
    Ok(text.as_str().trim_start() == fields.next().unwrap_or(""))
}

#[test]
fn rows_lie_on_their_slices(rt: HostRuntime) -> Result<(), Fail> {
    for row in ROWS.lines() {
        assert!(rt; holds(rt.alloc(), row)?, "{row}");
    }
    Ok(())
}
