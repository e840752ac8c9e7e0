//! The source of a query.
ghost use Rattle.std.specs.Prelude.{◌≡◌, ◌<◌, ◌≤◌, length, IfOk, IfSome};
ghost use Rattle.dw_parse_query.specs.Reading.{source_at, from_at};

use crate::items::alias_at;
use dw_lex::Token;
use dw_parse_words::{table_at, word_at};
use dw_query::Source;
use dw_value::List;
use std::alloc::{AllocError, Global};

// The source at a place, with the place after it.
fn source_at(
    alloc: Global,
    tokens: &List<Token>,
    at: usize,
) -> Result<Option<(Source, usize)>, AllocError>
    ensures value { IfOk result (λ source. source ≡ source_at tokens.now at) }
    ensures within { IfOk result (λ source.
        IfSome source (λ found. (at < found.1) × (found.1 ≤ length tokens.now))) }
{
    let Some((table, end)) = table_at(alloc, tokens, at)? else {
        return Ok(None);
    };
    let Some((name, after)) = alias_at(alloc, tokens, end)? else {
        return Ok(None);
    };
    let alias = match name {
        Some(name) => name,
        None => table.copy()?,
    };
    Ok(Some((Source { table, alias }, after)))
}

/// The source after the word FROM at a place, or none where that word doesn't stand there, with the place after it.
pub(crate) fn from_at(
    alloc: Global,
    tokens: &List<Token>,
    at: usize,
) -> Result<Option<(Option<Source>, usize)>, AllocError>
    requires { at ≤ length tokens.now }
    ensures value { IfOk result (λ source. source ≡ from_at tokens.now at) }
    ensures within { IfOk result (λ source. IfSome source (λ found. found.1 ≤ length tokens.now)) }
{
    if !word_at(tokens, at, "from") {
        return Ok(Some((None, at)));
    }
    match source_at(alloc, tokens, at + 1)? {
        Some((source, end)) => Ok(Some((Some(source), end))),
        None => Ok(None),
    }
}
