//! Items of a query, and the names that may follow them.
ghost use Rattle.std.specs.Prelude.{◌≡◌, ◌≤◌, length, IfOk, IfSome};
ghost use Rattle.dw_parse_query.specs.Reading.{alias_at};

use crate::lists::Element;
use dw_lex::{Sign, Token};
use dw_parse_expr::expression_at;
use dw_parse_words::{is_sign_at, name_at, word_at};
use dw_query::Item;
use dw_value::{List, Text};
use std::alloc::{AllocError, Global};

/// The alias at a place, or none where none stands there, with the place after it. `None` comes exactly where the word
/// AS stands there without a name after it.
pub(crate) fn alias_at(
    alloc: Global,
    tokens: &List<Token>,
    at: usize,
) -> Result<Option<(Option<Text>, usize)>, AllocError>
    requires { at ≤ length tokens.now }
    ensures value { IfOk result (λ alias. alias ≡ alias_at tokens.now at) }
    ensures within { IfOk result (λ alias.
        IfSome alias (λ found. (at ≤ found.1) × (found.1 ≤ length tokens.now))) }
{
    if word_at(tokens, at, "as") {
        match name_at(alloc, tokens, at + 1)? {
            Some(name) => Ok(Some((Some(name), at + 2))),
            None => Ok(None),
        }
    } else {
        match name_at(alloc, tokens, at)? {
            Some(name) => Ok(Some((Some(name), at + 1))),
            None => Ok(Some((None, at))),
        }
    }
}

// `*` or `expr [[as] name]`
impl Element for Item {
    ghost use Rattle.dw_parse_query.specs.Reading.{item_at};

    ghost read_at = { item_at };

    fn at(
        alloc: Global,
        tokens: &List<Token>,
        at: usize,
    ) -> Result<Option<(Item, usize)>, AllocError> {
        if is_sign_at(tokens, at, Sign::Star) {
            return Ok(Some((Item::All, at + 1)));
        }
        let Some((expr, end)) = expression_at(alloc, tokens, at)? else {
            return Ok(None);
        };
        match alias_at(alloc, tokens, end)? {
            Some((name, after)) => Ok(Some((Item::One { expr, name }, after))),
            None => Ok(None),
        }
    }
}
