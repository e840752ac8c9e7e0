//! SELECT.
ghost use Rattle.std.specs.Prelude.{◌≡◌, ◌<◌, ◌≤◌, length, IfOk};
ghost use Rattle.dw_parse.specs.Reading.{test_at, condition_at, read_select, select_after};

use dw_lex::Token;
use dw_model::{Literal, Query, Statement, Test};
use dw_parse_words::{Element, comparison_of, listed_at, name_at, sign_at, table_at, word_at};
use dw_value::{List, Text};
use std::alloc::{AllocError, Global};

// The test after the word `where` at this place, up to the end.
fn test_at(alloc: Global, tokens: &List<Token>, at: usize) -> Result<Option<Test>, AllocError>
    requires { at < length tokens.now }
    ensures { IfOk result (λ test. test ≡ test_at tokens.now at) }
{
    let _count = tokens.len();
    let Some(column) = name_at(alloc, tokens, at + 1)? else {
        return Ok(None);
    };
    let Some(sign) = sign_at(tokens, at + 2) else {
        return Ok(None);
    };
    let Some(comparison) = comparison_of(Some(sign)) else {
        return Ok(None);
    };
    let Some((literal, end)) = Literal::at(alloc, tokens, at + 3)? else {
        return Ok(None);
    };
    if end == tokens.len() {
        Ok(Some(Test {
            column,
            comparison,
            literal,
        }))
    } else {
        Ok(None)
    }
}

fn condition_at(
    alloc: Global,
    tokens: &List<Token>,
    at: usize,
) -> Result<Option<Option<Test>>, AllocError>
    ensures { IfOk result (λ condition. condition ≡ condition_at tokens.now at) }
{
    if word_at(tokens, at, "where") {
        match test_at(alloc, tokens, at)? {
            Some(test) => Ok(Some(Some(test))),
            None => Ok(None),
        }
    } else if at == tokens.len() {
        Ok(Some(None))
    } else {
        Ok(None)
    }
}

fn select_after(
    alloc: Global,
    tokens: &List<Token>,
    items: List<Text>,
    at: usize,
) -> Result<Option<Statement>, AllocError>
    ensures { IfOk result (λ statement. statement ≡ select_after tokens.now (items, at)) }
{
    if !word_at(tokens, at, "from") {
        return Ok(None);
    }
    let Some((table, end)) = table_at(alloc, tokens, at + 1)? else {
        return Ok(None);
    };
    match condition_at(alloc, tokens, end)? {
        Some(keep) => {
            let query = Query { items, table, keep };
            Ok(Some(Statement::Select { query }))
        }
        None => Ok(None),
    }
}

/// The SELECT whose first word is the first token.
pub fn read_select(alloc: Global, tokens: &List<Token>) -> Result<Option<Statement>, AllocError>
    requires { 1 ≤ length tokens.now }
    ensures { IfOk result (λ statement. statement ≡ read_select tokens.now) }
{
    match listed_at::<Text>(alloc, tokens, 1)? {
        Some((names, end)) => select_after(alloc, tokens, names, end),
        None => Ok(None),
    }
}
