//! What stands after the word VALUES.
ghost use Rattle.std.specs.Prelude.{◌≡◌, ◌≤◌, length, IfOk};
ghost use Rattle.dw_parse_query.specs.Reading.{tuples_at};

use crate::lists::{Element, listed_at};
use dw_expr::Expr;
use dw_lex::{Sign, Token};
use dw_parse_expr::expression_at;
use dw_parse_words::is_sign_at;
use dw_value::List;
use std::alloc::{AllocError, Global};

// An expression of a tuple.
impl Element for Expr {
    ghost use Rattle.dw_parse_expr.specs.Reading.{expression_at};

    ghost read_at = { expression_at };

    fn at(
        alloc: Global,
        tokens: &List<Token>,
        at: usize,
    ) -> Result<Option<(Expr, usize)>, AllocError> {
        expression_at(alloc, tokens, at)
    }
}

// `( expr {, expr} )`
impl Element for List<Expr> {
    ghost use Rattle.dw_parse_query.specs.Reading.{tuple_at};

    ghost read_at = { tuple_at };

    fn at(
        alloc: Global,
        tokens: &List<Token>,
        at: usize,
    ) -> Result<Option<(List<Expr>, usize)>, AllocError> {
        if !is_sign_at(tokens, at, Sign::Open) {
            return Ok(None);
        }
        let Some((exprs, end)) = listed_at::<Expr>(alloc, tokens, at + 1)? else {
            return Ok(None);
        };
        if is_sign_at(tokens, end, Sign::Close) {
            Ok(Some((exprs, end + 1)))
        } else {
            Ok(None)
        }
    }
}

/// The tuples that the tokens from a place up to the end are, which are those of the word VALUES before them. `None`
/// comes exactly where they read as none; by the laws, where the grammar derives none.
pub fn tuples_at(
    alloc: Global,
    tokens: &List<Token>,
    at: usize,
) -> Result<Option<List<List<Expr>>>, AllocError>
    requires { at ≤ length tokens.now }
    ensures { IfOk result (λ rows. rows ≡ tuples_at tokens.now at) }
{
    match listed_at::<List<Expr>>(alloc, tokens, at)? {
        Some((rows, end)) => {
            if end == tokens.len() {
                Ok(Some(rows))
            } else {
                Ok(None)
            }
        }
        None => Ok(None),
    }
}
