//! INSERT.
ghost use Rattle.std.specs.Prelude.{◌≡◌, ◌≤◌, length, IfOk};
ghost use Rattle.dw_parse.specs.Reading.{insert_values, insert_after, read_insert};

use dw_lex::Token;
use dw_model::{Literal, Statement};
use dw_parse_words::{listed_at, maybe_names_at, table_at, word_at};
use dw_value::{List, Text};
use std::alloc::{AllocError, Global};

// The statement from the word VALUES on, up to the end.
fn insert_values(
    alloc: Global,
    tokens: &List<Token>,
    table: Text,
    columns: List<Text>,
    at: usize,
) -> Result<Option<Statement>, AllocError>
    ensures { IfOk result (λ statement. statement ≡ insert_values tokens.now table (columns, at)) }
{
    if !word_at(tokens, at, "values") {
        return Ok(None);
    }
    match listed_at::<List<Literal>>(alloc, tokens, at + 1)? {
        Some((rows, end)) => {
            if end == tokens.len() {
                Ok(Some(Statement::Insert {
                    table,
                    columns,
                    rows,
                }))
            } else {
                Ok(None)
            }
        }
        None => Ok(None),
    }
}

fn insert_after(
    alloc: Global,
    tokens: &List<Token>,
    table: Text,
    at: usize,
) -> Result<Option<Statement>, AllocError>
    requires { at ≤ length tokens.now }
    ensures { IfOk result (λ statement. statement ≡ insert_after tokens.now (table, at)) }
{
    match maybe_names_at(alloc, tokens, at)? {
        Some((columns, end)) => insert_values(alloc, tokens, table, columns, end),
        None => Ok(None),
    }
}

/// The INSERT whose first word is the first token.
pub fn read_insert(alloc: Global, tokens: &List<Token>) -> Result<Option<Statement>, AllocError>
    ensures { IfOk result (λ statement. statement ≡ read_insert tokens.now) }
{
    if !word_at(tokens, 1, "into") {
        return Ok(None);
    }
    match table_at(alloc, tokens, 2)? {
        Some((table, end)) => insert_after(alloc, tokens, table, end),
        None => Ok(None),
    }
}
