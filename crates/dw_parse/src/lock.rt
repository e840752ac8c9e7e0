//! LOCK.
ghost use Rattle.std.specs.Prelude.{◌≡◌, ◌≤◌, length, IfOk};
ghost use Rattle.dw_parse.specs.Reading.{lock_from, read_lock};

use dw_lex::Token;
use dw_model::Statement;
use dw_parse_words::{TableName, listed_at, texts_of, word_at};
use dw_value::List;
use std::alloc::{AllocError, Global};

// The statement whose names are at this place, up to the end.
fn lock_from(
    alloc: Global,
    tokens: &List<Token>,
    start: usize,
) -> Result<Option<Statement>, AllocError>
    requires { start ≤ length tokens.now }
    ensures { IfOk result (λ statement. statement ≡ lock_from tokens.now start) }
{
    match listed_at::<TableName>(alloc, tokens, start)? {
        Some((names, end)) => {
            if end == tokens.len() {
                let tables = texts_of(alloc, names)?;
                Ok(Some(Statement::Lock { tables }))
            } else {
                Ok(None)
            }
        }
        None => Ok(None),
    }
}

/// The LOCK whose first word is the first token.
pub fn read_lock(alloc: Global, tokens: &List<Token>) -> Result<Option<Statement>, AllocError>
    requires { 1 ≤ length tokens.now }
    ensures { IfOk result (λ statement. statement ≡ read_lock tokens.now) }
{
    if word_at(tokens, 1, "table") {
        lock_from(alloc, tokens, 2)
    } else {
        lock_from(alloc, tokens, 1)
    }
}
