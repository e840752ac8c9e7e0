//! Refusals as they are read, and the objects that violations name.
ghost use Rattle.std.specs.Prelude.{◌≡◌, Some, None, MatchOption};
ghost use Rattle.dw_read_report.specs.Reading.{Gives};
ghost use Rattle.dw_read_report.specs.EventReading.{closed_text_at, object_at, rarer_reason_at, reason_at, refusal_after, refusal_at};
ghost use Rattle.dw_read_report.specs.EventReading.{without_parenthesis};

use crate::faults::LineFault;
use crate::read_fields::{read_field, read_sessions, read_text, text_of};
use crate::read_parts::{after_label, read_label, read_long, read_short};
use dw_model::{Object, Refusal};
use dw_value::Text;
use std::alloc::Global;

/// Why a statement is refused, as its number and the first word of its text say it.
#[derive(Clone, Copy, Debug)]
pub enum Reason {
    /// `1 syntax`, before a place.
    Syntax,
    /// `2 unknown`, before a name.
    Unknown,
    /// `3 exists`, before a name.
    Exists,
    /// `4 clash`.
    Clash,
    /// `5 range`.
    Range,
    /// `7 null`, before a column's name.
    NullIn,
    /// `10 deadlock`, before the sessions of a cycle.
    Deadlock,
    /// `11 aborted`.
    Aborted,
    /// `12 block`.
    InBlock,
    /// `13 vacuum`, before a session.
    Vacuuming,
    /// `14 limit rows`, before a number of rows.
    Limit,
    /// `16 memory`.
    Memory,
}

/// A refusal's number and the first word of its text.
#[tactic(auto, unfolding(crate::specs::EventReading::reason_at))]
fn read_reason(bytes: &[u8]) -> Result<(Reason, &[u8]), LineFault>
    ensures { Gives (λ x. (x.0, x.1.now)) result (reason_at bytes.now) }
{
    if let Some(rest) = after_label(bytes, "1 syntax ") {
        return Ok((Reason::Syntax, rest));
    }
    if let Some(rest) = after_label(bytes, "2 unknown ") {
        return Ok((Reason::Unknown, rest));
    }
    if let Some(rest) = after_label(bytes, "3 exists ") {
        return Ok((Reason::Exists, rest));
    }
    if let Some(rest) = after_label(bytes, "4 clash") {
        return Ok((Reason::Clash, rest));
    }
    if let Some(rest) = after_label(bytes, "5 range") {
        return Ok((Reason::Range, rest));
    }
    if let Some(rest) = after_label(bytes, "7 null ") {
        return Ok((Reason::NullIn, rest));
    }
    if let Some(rest) = after_label(bytes, "10 deadlock") {
        return Ok((Reason::Deadlock, rest));
    }
    read_rarer_reason(bytes)
}

/// The numbers from 11 on.
#[tactic(auto, unfolding(crate::specs::EventReading::rarer_reason_at))]
fn read_rarer_reason(bytes: &[u8]) -> Result<(Reason, &[u8]), LineFault>
    ensures { Gives (λ x. (x.0, x.1.now)) result (rarer_reason_at bytes.now) }
{
    if let Some(rest) = after_label(bytes, "11 aborted") {
        return Ok((Reason::Aborted, rest));
    }
    if let Some(rest) = after_label(bytes, "12 block") {
        return Ok((Reason::InBlock, rest));
    }
    if let Some(rest) = after_label(bytes, "13 vacuum ") {
        return Ok((Reason::Vacuuming, rest));
    }
    if let Some(rest) = after_label(bytes, "14 limit rows ") {
        return Ok((Reason::Limit, rest));
    }
    let rest = read_label(bytes, "16 memory")?;
    Ok((Reason::Memory, rest))
}

/// The rest of a refusal.
fn read_refusal_after(
    alloc: Global,
    reason: Reason,
    bytes: &[u8],
) -> Result<(Refusal, &[u8]), LineFault>
    ensures { Gives (λ x. (x.0, x.1.now)) result (refusal_after reason bytes.now) }
{
    match reason {
        Reason::Syntax => {
            let (place, rest) = read_long(bytes)?;
            Ok((Refusal::Syntax { place }, rest))
        }
        Reason::Unknown => {
            let (name, rest) = read_text(alloc, bytes)?;
            Ok((Refusal::Unknown { name }, rest))
        }
        Reason::Exists => {
            let (name, rest) = read_text(alloc, bytes)?;
            Ok((Refusal::Exists { name }, rest))
        }
        Reason::Clash => Ok((Refusal::Clash, bytes)),
        Reason::Range => Ok((Refusal::Range, bytes)),
        Reason::NullIn => {
            let (column, rest) = read_text(alloc, bytes)?;
            Ok((Refusal::NullIn { column }, rest))
        }
        Reason::Deadlock => {
            let (cycle, rest) = read_sessions(alloc, bytes)?;
            Ok((Refusal::Deadlock { cycle }, rest))
        }
        Reason::Aborted => Ok((Refusal::Aborted, bytes)),
        Reason::InBlock => Ok((Refusal::InBlock, bytes)),
        Reason::Vacuuming => {
            let (session, rest) = read_short(bytes)?;
            Ok((Refusal::Vacuuming { session }, rest))
        }
        Reason::Limit => {
            let (count, rest) = read_long(bytes)?;
            Ok((Refusal::Limit { count }, rest))
        }
        Reason::Memory => Ok((Refusal::Memory, bytes)),
    }
}

/// A refusal: its number and its text.
#[tactic(auto, unfolding(crate::specs::EventReading::refusal_at))]
pub fn read_refusal(alloc: Global, bytes: &[u8]) -> Result<(Refusal, &[u8]), LineFault>
    ensures { Gives (λ x. (x.0, x.1.now)) result (refusal_at bytes.now) }
{
    let (reason, rest) = read_reason(bytes)?;
    read_refusal_after(alloc, reason, rest)
}

/// A text without the parenthesis at its end.
fn without_parenthesis(text: Vec<u8>) -> Option<Vec<u8>>
    ensures { MatchOption result (without_parenthesis text.items ≡ None) (λ rest. without_parenthesis text.items ≡ Some rest.items) }
{
    let mut rest = text;
    let Some(last) = rest.pop() else {
        return None;
    };
    if last != b')' {
        return None;
    }
    Some(rest)
}

/// A text up to a parenthesis at the end of the field.
#[tactic(auto, unfolding(crate::specs::EventReading::closed_text_at))]
fn read_closed_text(alloc: Global, bytes: &[u8]) -> Result<(Text, &[u8]), LineFault>
    ensures { Gives (λ x. (x.0, x.1.now)) result (closed_text_at bytes.now) }
{
    let (field, rest) = read_field(alloc, bytes)?;
    let Some(text) = without_parenthesis(field) else {
        return Err(LineFault::Bad);
    };
    match text_of(text) {
        Some(text) => Ok((text, rest)),
        None => Err(LineFault::Bad),
    }
}

/// An object: the rows of a table, or its definition.
#[tactic(auto, unfolding(crate::specs::EventReading::object_at))]
pub fn read_object(alloc: Global, bytes: &[u8]) -> Result<(Object, &[u8]), LineFault>
    ensures { Gives (λ x. (x.0, x.1.now)) result (object_at bytes.now) }
{
    if let Some(rest) = after_label(bytes, "rows(") {
        let (name, rest) = read_closed_text(alloc, rest)?;
        return Ok((Object::Rows(name), rest));
    }
    let rest = read_label(bytes, "def(")?;
    let (name, rest) = read_closed_text(alloc, rest)?;
    Ok((Object::Def(name), rest))
}
