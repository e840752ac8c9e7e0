//! The parts of a line: texts, numbers, names, values and refusals, each written after what is there already.
ghost use Rattle.std.specs.Prelude.{◌≡◌, ◌++◌, OnOk};
ghost use Rattle.std.specs.List.{AllByRecursion};
ghost use Rattle.dw_value.specs.Printed.{shown};
ghost use Rattle.dw_print.specs.Fields.{escape, field, numbers_text, refusal_text, shown_field};
ghost use Rattle.dw_print.specs.Typed.{IsShort, IsTypedField, IsTypedRefusal};

use dw_model::Refusal;
use dw_value::{Field, Kind, Value, show};
use itoa::{Buffer, Integer};
use std::alloc::AllocError;

/// Writes `text` as it is.
pub fn write_text(out: &mut Vec<u8>, text: &str) -> Result<(), AllocError>
    ensures { OnOk result (out.new.items ≡ out.old.items ++ text.now) }
{
    out.extend_from_slice(text.as_bytes())
}

/// Writes `label` as it is, and then `number` in plain decimal.
pub fn write_number<I: Integer>(out: &mut Vec<u8>, label: &str, number: I) -> Result<(), AllocError>
    ensures { OnOk result (out.new.items ≡ out.old.items ++ label.now ++ I.text number) }
{
    let mut buffer = Buffer::new();
    write_text(out, label)?;
    write_text(out, buffer.format(number))
}

/// Writes the numbers of sessions, with a space before each.
pub fn write_sessions(out: &mut Vec<u8>, sessions: &[u32]) -> Result<(), AllocError>
    ensures text { OnOk result (out.new.items ≡ out.old.items ++ numbers_text sessions.now) }
    ensures typed { OnOk result (AllByRecursion IsShort sessions.now) }
{
    for session in sessions {
        write_number(out, " ", *session)?;
    }
    Ok(())
}

/// Writes one byte of a field.
fn write_escaped(out: &mut Vec<u8>, byte: u8) -> Result<(), AllocError>
    ensures { OnOk result (out.new.items ≡ out.old.items ++ escape byte) }
{
    match byte {
        b'\\' => out.extend_from_slice(b"\\\\"),
        b'|' => out.extend_from_slice(b"\\|"),
        b'\n' => out.extend_from_slice(b"\\n"),
        b'\r' => out.extend_from_slice(b"\\r"),
        _ => Ok(out.push(byte)?),
    }
}

/// Writes `label` as it is, and then a name as a field.
pub fn write_field(out: &mut Vec<u8>, label: &str, name: &[u8]) -> Result<(), AllocError>
    ensures { OnOk result (out.new.items ≡ out.old.items ++ label.now ++ field name.now) }
{
    write_text(out, label)?;
    for byte in name {
        write_escaped(out, *byte)?;
    }
    Ok(())
}

/// Writes `label` as it is, and then a field of an answer.
pub fn write_shown(out: &mut Vec<u8>, label: &str, shown: &Field) -> Result<(), AllocError>
    ensures text { OnOk result (out.new.items ≡ out.old.items ++ label.now ++ shown_field shown.now) }
    ensures typed { OnOk result (IsTypedField shown.now) }
{
    match shown {
        Field::Null => {
            write_text(out, label)?;
            write_text(out, "\\N")
        }
        Field::Shown(text) => write_field(out, label, text.as_bytes()),
    }
}

/// Writes `label` as it is, and then a value of a column of this kind.
pub fn write_value(
    out: &mut Vec<u8>,
    label: &str,
    kind: Kind,
    value: &Value,
) -> Result<(), AllocError>
    ensures { OnOk result (out.new.items ≡ out.old.items ++ label.now ++ shown_field (shown kind value.now)) }
{
    let shown = show(*out.allocator(), value, kind)?;
    write_shown(out, label, &shown)
}

/// Writes what a report says of a refusal, after its number.
pub fn write_refusal(out: &mut Vec<u8>, refusal: &Refusal) -> Result<(), AllocError>
    ensures text { OnOk result (out.new.items ≡ out.old.items ++ refusal_text refusal.now) }
    ensures typed { OnOk result (IsTypedRefusal refusal.now) }
{
    match refusal {
        Refusal::Syntax { place } => write_number(out, "syntax ", *place),
        Refusal::Unknown { name } => write_field(out, "unknown ", name.as_bytes()),
        Refusal::Exists { name } => write_field(out, "exists ", name.as_bytes()),
        Refusal::Clash => write_text(out, "clash"),
        Refusal::Range => write_text(out, "range"),
        Refusal::NullIn { column } => write_field(out, "null ", column.as_bytes()),
        Refusal::Deadlock { cycle } => {
            write_text(out, "deadlock")?;
            write_sessions(out, cycle.as_slice())
        }
        Refusal::Aborted => write_text(out, "aborted"),
        Refusal::InBlock => write_text(out, "block"),
        Refusal::Vacuuming { session } => write_number(out, "vacuum ", *session),
        Refusal::Limit { count } => write_number(out, "limit rows ", *count),
        Refusal::Memory => write_text(out, "memory"),
    }
}
