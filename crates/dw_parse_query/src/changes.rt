//! What stands after the word SET.
ghost use Rattle.std.specs.Prelude.{◌≡◌, ◌≤◌, length, IfOk};
ghost use Rattle.dw_parse_query.specs.Reading.{change_at};

use crate::conditions::condition_at;
use crate::lists::{Element, listed_at};
use dw_expr::Expr;
use dw_lex::{Sign, Token};
use dw_parse_expr::expression_at;
use dw_parse_words::{is_sign_at, name_at};
use dw_query::Assignment;
use dw_value::List;
use std::alloc::{AllocError, Global};

// `name = expr`
impl Element for Assignment {
    ghost use Rattle.dw_parse_query.specs.Reading.{assignment_at};

    ghost read_at = { assignment_at };

    fn at(
        alloc: Global,
        tokens: &List<Token>,
        at: usize,
    ) -> Result<Option<(Assignment, usize)>, AllocError> {
        let Some(column) = name_at(alloc, tokens, at)? else {
            return Ok(None);
        };
        if !is_sign_at(tokens, at + 1, Sign::Equal) {
            return Ok(None);
        }
        match expression_at(alloc, tokens, at + 2)? {
            Some((value, end)) => Ok(Some((Assignment { column, value }, end))),
            None => Ok(None),
        }
    }
}

/// The assignments and the condition that the tokens from a place up to the end are, which are those of the word SET
/// before them. `None` comes exactly where they read as none; by the laws, where the grammar derives none.
pub fn change_at(
    alloc: Global,
    tokens: &List<Token>,
    at: usize,
) -> Result<Option<(List<Assignment>, Option<Expr>)>, AllocError>
    requires { at ≤ length tokens.now }
    ensures { IfOk result (λ change. change ≡ change_at tokens.now at) }
{
    let Some((sets, end)) = listed_at::<Assignment>(alloc, tokens, at)? else {
        return Ok(None);
    };
    match condition_at(alloc, tokens, end)? {
        Some(keep) => Ok(Some((sets, keep))),
        None => Ok(None),
    }
}
