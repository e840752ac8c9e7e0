//! CREATE TABLE and DROP TABLE.
ghost use Rattle.std.specs.Prelude.{◌≡◌, ◌≤◌, length, IfOk};
ghost use Rattle.dw_parse.specs.Reading.{create_with, read_create, create_after, read_drop};

use crate::parts::{Attribute, Part};
use crate::tables::table_made;
use dw_lex::{Sign, Token};
use dw_model::Statement;
use dw_parse_words::{is_sign_at, listed_at, repeated_at, table_at, word_at};
use dw_value::{List, Text};
use std::alloc::{AllocError, Global};

// The most columns that a table may have.
const COLUMNS: usize = 1600;

// The statement after its parts, up to the end.
fn create_with(
    alloc: Global,
    tokens: &List<Token>,
    name: Text,
    parts: List<Part>,
    at: usize,
) -> Result<Option<Statement>, AllocError>
    ensures { IfOk result (λ statement. statement ≡ create_with tokens.now name (parts, at)) }
{
    if !is_sign_at(tokens, at, Sign::Close) {
        return Ok(None);
    }
    let (attributes, end) = repeated_at::<Attribute>(alloc, tokens, at + 1)?;
    if end != tokens.len() {
        return Ok(None);
    }
    let spec = table_made(alloc, name, parts, attributes)?;
    if spec.columns.len() <= COLUMNS {
        Ok(Some(Statement::Create { spec }))
    } else {
        Ok(None)
    }
}

fn create_after(
    alloc: Global,
    tokens: &List<Token>,
    name: Text,
    at: usize,
) -> Result<Option<Statement>, AllocError>
    ensures { IfOk result (λ statement. statement ≡ create_after tokens.now (name, at)) }
{
    if !is_sign_at(tokens, at, Sign::Open) {
        return Ok(None);
    }
    match listed_at::<Part>(alloc, tokens, at + 1)? {
        Some((parts, end)) => create_with(alloc, tokens, name, parts, end),
        None => Ok(None),
    }
}

/// The CREATE TABLE whose first word is the first token.
pub fn read_create(alloc: Global, tokens: &List<Token>) -> Result<Option<Statement>, AllocError>
    ensures { IfOk result (λ statement. statement ≡ read_create tokens.now) }
{
    if !word_at(tokens, 1, "table") {
        return Ok(None);
    }
    match table_at(alloc, tokens, 2)? {
        Some((name, end)) => create_after(alloc, tokens, name, end),
        None => Ok(None),
    }
}

/// The DROP TABLE whose first word is the first token.
pub fn read_drop(alloc: Global, tokens: &List<Token>) -> Result<Option<Statement>, AllocError>
    ensures { IfOk result (λ statement. statement ≡ read_drop tokens.now) }
{
    if !word_at(tokens, 1, "table") {
        return Ok(None);
    }
    match table_at(alloc, tokens, 2)? {
        Some((table, end)) if end == tokens.len() => Ok(Some(Statement::Drop { table })),
        _ => Ok(None),
    }
}
