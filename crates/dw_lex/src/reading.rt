//! The tokens of a text.
ghost use Rattle.std.specs.Prelude.{◌≡◌, ◌<◌, ◌≤◌, length, drop, IfOk};
ghost use Rattle.dw_lex.specs.Forms.{token_at};
ghost use Rattle.dw_lex.specs.Places.{IsSlice, AreInOrder};
ghost use Rattle.dw_lex.specs.Reading.{read_tokens, Gives, GivesToken};

use crate::fault::LexFault;
use crate::forms::token_at;
use crate::gaps::gap_at;
use crate::token::Token;
use dw_value::{List, Text};
use std::alloc::Global;

// The token at this place of the text.
fn token(alloc: Global, text: &[u8], start: usize) -> Result<Token, LexFault>
    requires { start ≤ length text.now }
    ensures given { GivesToken result start (token_at (drop start text.now)) }
    ensures starts { IfOk result (λ token. token.start ≡ start) }
    ensures slice { IfOk result (λ token. IsSlice text.now token) }
{
    let Some((form, found)) = token_at(&text[start..]) else {
        return Err(LexFault::Foreign {
            place: start as u64,
        });
    };
    let end = start + found.len();
    let text = Text::from_str(alloc, found)?;
    Ok(Token {
        form,
        text,
        start: start as u64,
        end: end as u64,
    })
}

/// The tokens of a text, in order. A token is the longest that can be read at its place, and blanks and comments may
/// stand around it. Spaces, tabs, line feeds and carriage returns are blanks. A comment is from `--` to the end of the
/// line or from `/*` to `*/`, and these nest; it begins wherever a token could, as in `a--b` and in `1/* */`.
///
/// `Foreign` has the first place where neither begins: another character stands there, or a name of more than 127
/// bytes, a number of more than 38 digits, a quoted part that is no name of at most 127 bytes or isn't closed, a text
/// that isn't closed or isn't UTF-8, or the `/*` of a comment that isn't closed. Each token's text is a copy of its own.
pub fn tokens(alloc: Global, text: &[u8]) -> Result<List<Token>, LexFault>
    ensures read { Gives result (read_tokens text.now) }
    // The tokens are slices of the text, in order, and nothing but blanks and comments is left out.
    ensures places { IfOk result (λ tokens. AreInOrder text.now 0 tokens (length text.now)) }
{
    let mut tokens = List::new(alloc);
    let mut at = 0;
    while at < text.len() {
        let gap = gap_at(&text[at..]);
        if gap > 0 {
            at += gap;
        } else {
            let token = token(alloc, text, at)?;
            at = token.end as usize;
            tokens.push(token)?;
        }
    }
    Ok(tokens)
}
