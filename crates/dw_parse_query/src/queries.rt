//! What stands after the word SELECT.
ghost use Rattle.std.specs.Prelude.{◌≡◌, ◌≤◌, length, IfOk};
ghost use Rattle.dw_parse_query.specs.Reading.{query_after, query_at};

use crate::conditions::condition_at;
use crate::lists::listed_at;
use crate::sources::from_at;
use dw_lex::Token;
use dw_query::{Item, Query};
use dw_value::List;
use std::alloc::{AllocError, Global};

// The query of these items, from the place after them up to the end.
fn query_after(
    alloc: Global,
    tokens: &List<Token>,
    items: List<Item>,
    at: usize,
) -> Result<Option<Query>, AllocError>
    requires { at ≤ length tokens.now }
    ensures { IfOk result (λ query. query ≡ query_after tokens.now (items, at)) }
{
    let Some((source, end)) = from_at(alloc, tokens, at)? else {
        return Ok(None);
    };
    match condition_at(alloc, tokens, end)? {
        Some(keep) => Ok(Some(Query {
            items,
            source,
            keep,
        })),
        None => Ok(None),
    }
}

/// The query that the tokens from a place up to the end are, which is that of the word SELECT before them. `None` comes
/// exactly where they read as none; by the laws, where the grammar derives none.
pub fn query_at(alloc: Global, tokens: &List<Token>, at: usize) -> Result<Option<Query>, AllocError>
    requires { at ≤ length tokens.now }
    ensures { IfOk result (λ query. query ≡ query_at tokens.now at) }
{
    match listed_at::<Item>(alloc, tokens, at)? {
        Some((items, end)) => query_after(alloc, tokens, items, end),
        None => Ok(None),
    }
}
