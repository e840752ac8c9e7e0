//! WHERE.
ghost use Rattle.std.specs.Prelude.{◌≡◌, ◌≤◌, length, IfOk};
ghost use Rattle.dw_parse_query.specs.Reading.{last_expression_at, condition_at};

use dw_expr::Expr;
use dw_lex::Token;
use dw_parse_expr::expression_at;
use dw_parse_words::word_at;
use dw_value::List;
use std::alloc::{AllocError, Global};

// The expression from a place up to the end.
fn last_expression_at(
    alloc: Global,
    tokens: &List<Token>,
    at: usize,
) -> Result<Option<Expr>, AllocError>
    requires { at ≤ length tokens.now }
    ensures { IfOk result (λ expr. expr ≡ last_expression_at tokens.now at) }
{
    match expression_at(alloc, tokens, at)? {
        Some((expr, end)) => {
            if end == tokens.len() {
                Ok(Some(expr))
            } else {
                Ok(None)
            }
        }
        None => Ok(None),
    }
}

/// The condition that the tokens from a place up to the end are: the expression after the word WHERE, or none at the
/// end. `None` comes exactly where they are neither; by the laws, where the grammar derives none.
pub fn condition_at(
    alloc: Global,
    tokens: &List<Token>,
    at: usize,
) -> Result<Option<Option<Expr>>, AllocError>
    requires { at ≤ length tokens.now }
    ensures { IfOk result (λ condition. condition ≡ condition_at tokens.now at) }
{
    if word_at(tokens, at, "where") {
        match last_expression_at(alloc, tokens, at + 1)? {
            Some(expr) => Ok(Some(Some(expr))),
            None => Ok(None),
        }
    } else if at == tokens.len() {
        Ok(Some(None))
    } else {
        Ok(None)
    }
}
