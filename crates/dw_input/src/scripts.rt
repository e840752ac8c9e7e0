//! Scripts, from their bytes to their statements.
ghost use Rattle.std.specs.Prelude.{◌≡◌, ◌≤◌, None, length, map, zip, IfOk, IfErr};
ghost use Rattle.dw_script.specs.Statements.{most_statements, script_cause};
ghost use Rattle.dw_journal.specs.Worlds.{AreShort};
ghost use Rattle.dw_input.specs.Scripts.{given_of, given_of_form, givens_of, refusal_of, bad_script};
ghost use Rattle.dw_input.specs.Statuses.{MayReject, ComesOfBytes};

use dw_journal::Given;
use dw_lex::{LexFault, tokens};
use dw_model::{Refusal, Statement};
use dw_parse::{ParseFault, parse};
use dw_script::{Script, ScriptFault, Status, split};
use dw_value::{List, Text};
use std::alloc::{AllocError, Global};

/// A statement that the grammar derives, as a script has it: read, or refused where no session can do it yet.
fn given_of_form(statement: Statement) -> Given
    ensures { result ≡ given_of_form statement }
{
    match statement {
        Statement::Vacuum { .. } => Given::Refused(Refusal::Syntax { place: 0 }),
        Statement::Create { .. }
        | Statement::Drop { .. }
        | Statement::Lock { .. }
        | Statement::Insert { .. }
        | Statement::Select { .. }
        | Statement::Begin
        | Statement::Commit
        | Statement::Rollback => Given::Read(statement),
    }
}

/// What the grammar makes of a statement's bytes.
fn given(alloc: Global, statement: &[u8]) -> Result<Given, AllocError>
    ensures { IfOk result (λ given. given ≡ given_of statement.now) }
{
    match tokens(alloc, statement) {
        Ok(tokens) => match parse(alloc, &tokens) {
            Ok(statement) => Ok(given_of_form(statement)),
            Err(ParseFault::Syntax { place }) => Ok(Given::Refused(Refusal::Syntax { place })),
            Err(ParseFault::Memory) => Err(AllocError),
        },
        Err(LexFault::Foreign { place }) => Ok(Given::Refused(Refusal::Syntax { place })),
        Err(LexFault::Memory) => Err(AllocError),
    }
}

/// What the grammar makes of each statement.
fn given_statements(alloc: Global, script: &Script) -> Result<List<Given>, AllocError>
    ensures { IfOk result (λ givens. givens ≡ map given_of script.now.statements) }
{
    let statements = script.statements.as_slice();
    let mut givens = List::new(alloc);
    for statement in statements {
        givens.push(given(alloc, statement.as_slice())?)?;
    }
    Ok(givens)
}

/// What the grammar makes of each statement of the script `name`, or why these bytes are no script.
fn read_script(alloc: Global, name: &Text, bytes: &[u8]) -> Result<List<Given>, Status>
    ensures read { IfOk result (λ givens. script_cause bytes.now ≡ None) }
    ensures givens { IfOk result (λ givens. givens ≡ givens_of bytes.now) }
    ensures few { IfOk result (λ givens. length givens ≤ most_statements) }
    ensures rejected { IfErr result (MayReject (refusal_of (name.now, bytes.now))) }
    ensures of_bytes { IfErr result ComesOfBytes }
{
    let script = match split(alloc, bytes) {
        Ok(script) => script,
        Err(ScriptFault::Memory) => return Err(Status::Memory),
        Err(ScriptFault::Bad(cause)) => {
            return match name.copy() {
                Ok(name) => Err(Status::BadScript { name, cause }),
                Err(_) => Err(Status::Memory),
            };
        }
    };
    match given_statements(alloc, &script) {
        Ok(givens) => Ok(givens),
        Err(_) => Err(Status::Memory),
    }
}

/// What the grammar makes of each script, of which each is named, or why the first that is none isn't: `BadScript` with
/// its name, where it isn't UTF-8, has an open text or comment, or too many statements. A statement that the grammar
/// doesn't derive is no fault of its script: it is given with its refusal. Want of memory is `Memory`.
pub fn read_scripts(
    alloc: Global,
    names: &[Text],
    files: &[List<u8>],
) -> Result<List<List<Given>>, Status>
    requires { length names.now ≡ length files.now }
    ensures read { IfOk result (λ scripts. bad_script (zip names.now files.now) ≡ None) }
    ensures scripts { IfOk result (λ scripts. scripts ≡ map givens_of files.now) }
    ensures short { IfOk result AreShort }
    ensures rejected { IfErr result (MayReject (bad_script (zip names.now files.now))) }
    ensures of_bytes { IfErr result ComesOfBytes }
{
    let mut scripts = List::new(alloc);
    for (name, bytes) in names.iter().zip(files) {
        let script = read_script(alloc, name, bytes.as_slice())?;
        if scripts.push(script).is_err() {
            return Err(Status::Memory);
        }
    }
    Ok(scripts)
}
