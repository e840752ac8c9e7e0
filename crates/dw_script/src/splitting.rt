//! A script cut into its statements.
ghost use Rattle.std.specs.Prelude.{◌≡◌, [], ◌∷◌, ◌++◌, ◌≤◌, ◌<◌, length, None, Some, IfOk, IfErr, OnOk, All, IsUtf8};
ghost use Rattle.dw_script.specs.Statements.{IfBad, content, most_statements, statements_of, statements, script_cause};

use crate::place::{Place, place_after};
use crate::script::{MAX_STATEMENTS, Script, ScriptCause, ScriptFault};
use dw_value::List;
use std::alloc::Global;

/// Cuts a script into its statements, whose bytes are copied once, into memory of `alloc`.
///
/// Each `;` outside of texts, quoted names and comments ends a statement, and so does the script's end. A text is in
/// single quotes, in which two quotes in a row stand for one and a backslash is an ordinary character; a quoted name is
/// in double quotes, and ends at the next one. A comment is from `--` to the end of the line, which LF alone ends, or
/// from `/*` to `*/`, and these nest. In a text, a quoted name or a comment to the end of the line nothing else begins,
/// and in a block comment only `/*` and `*/` count. Statements end as in the SQL standard, where two double quotes in a
/// row stand for one in a quoted name: here they end one and begin the next, which comes to the same.
///
/// Spaces, tabs, LF and CR are blanks. A statement begins at its first byte that is no blank and in no comment, and
/// what stands in it from there on stays, comments too. Blanks and comments alone are no statement.
///
/// `Bad` comes exactly where the script has a cause, unless memory runs out first. The time is linear in the bytes.
pub fn split(alloc: Global, bytes: &[u8]) -> Result<Script, ScriptFault>
    ensures read { IfOk result (λ script. script_cause bytes.now ≡ None) }
    ensures statements { IfOk result (λ script. script.statements ≡ statements bytes.now) }
    ensures few { IfOk result (λ script. length script.statements ≤ most_statements) }
    ensures utf8 { IfOk result (λ script. All IsUtf8 script.statements) }
    ensures bad { IfErr result (λ fault. IfBad fault (λ cause. script_cause bytes.now ≡ Some cause)) }
{
    if let Err(error) = std::str::from_utf8(bytes) {
        let place = error.valid_up_to() as u64;
        return Err(ScriptFault::Bad(ScriptCause::NotUtf8 { place }));
    }
    if let Some(cause) = place_after(bytes).open_part() {
        return Err(ScriptFault::Bad(cause));
    }
    cut(alloc, bytes)
}

/// Cuts a script in which nothing is open.
fn cut(alloc: Global, bytes: &[u8]) -> Result<Script, ScriptFault>
    ensures statements { IfOk result (λ script. script.statements ≡ statements bytes.now) }
    ensures few { IfOk result (λ script. length script.statements ≤ most_statements) }
    ensures bad { IfErr result (λ fault. IfBad fault (λ cause.
        (cause ≡ ScriptCause.TooMany) × (most_statements < length (statements bytes.now)))) }
{
    let mut statements = List::new(alloc);
    let mut place = Place::Outside;
    let mut begin = 0;
    for (at, byte) in bytes.iter().enumerate() {
        if place.ends_statement(*byte) {
            push_statement(alloc, &mut statements, &bytes[begin..at])?;
            begin = at + 1;
        }
        place = place.after(at, *byte);
    }
    push_statement(alloc, &mut statements, &bytes[begin..])?;
    Ok(Script { statements })
}

/// Puts the statement of one part of a script after the others, if the part is more than blanks and comments.
fn push_statement(
    alloc: Global,
    statements: &mut List<List<u8>>,
    part: &[u8],
) -> Result<(), ScriptFault>
    requires { length statements.old ≤ most_statements }
    ensures ok { OnOk result (statements.new ≡ statements.old ++ statements_of (part.now ∷ [])) }
    ensures few { OnOk result (length statements.new ≤ most_statements) }
    ensures bad { IfErr result (λ fault. IfBad fault (λ cause. (cause ≡ ScriptCause.TooMany)
        × (most_statements < length (statements.old ++ statements_of (part.now ∷ []))))) }
{
    let content = content(part);
    if content.is_empty() {
        return Ok(());
    }
    if statements.len() == MAX_STATEMENTS {
        return Err(ScriptFault::Bad(ScriptCause::TooMany));
    }
    let statement = Vec::from_slice(alloc, content)?;
    statements.push(List::from_vec(statement))?;
    Ok(())
}

/// A part of a script from its first byte on that is no blank and in no comment.
fn content(part: &[u8]) -> &[u8]
    ensures { result.now ≡ content part.now }
{
    let mut place = Place::Outside;
    for (at, byte) in part.iter().enumerate() {
        if place.begins_statement(*byte) {
            return &part[at - place.pending_mark_len()..];
        }
        place = place.after(at, *byte);
    }
    &part[part.len() - place.pending_mark_len()..]
}
