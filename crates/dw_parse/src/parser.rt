//! The statement of tokens.
ghost use Rattle.std.specs.Prelude.{◌≡◌, IfOk};
ghost use Rattle.dw_parse.specs.Reading.{read_statement};
ghost use Rattle.dw_parse.specs.Gives.{Gives};

use crate::block::read_block;
use crate::create::{read_create, read_drop};
use crate::fault::ParseFault;
use crate::insert::read_insert;
use crate::lock::read_lock;
use crate::select::read_select;
use dw_lex::Token;
use dw_model::Statement;
use dw_parse_words::word_at;
use dw_value::List;
use std::alloc::{AllocError, Global};

fn read_statement(alloc: Global, tokens: &List<Token>) -> Result<Option<Statement>, AllocError>
    ensures { IfOk result (λ statement. statement ≡ read_statement tokens.now) }
{
    if word_at(tokens, 0, "create") {
        read_create(alloc, tokens)
    } else if word_at(tokens, 0, "drop") {
        read_drop(alloc, tokens)
    } else if word_at(tokens, 0, "insert") {
        read_insert(alloc, tokens)
    } else if word_at(tokens, 0, "select") {
        read_select(alloc, tokens)
    } else if word_at(tokens, 0, "lock") {
        read_lock(alloc, tokens)
    } else {
        Ok(read_block(tokens))
    }
}

/// The statement that the grammar derives from these tokens, with memory of `alloc` for its names, texts and rows.
///
/// `Syntax` comes with place 0, the first token's, exactly where the grammar derives no statement. Words count without
/// regard to the case of their ASCII letters, and names are folded to lower case.
pub fn parse(alloc: Global, tokens: &List<Token>) -> Result<Statement, ParseFault>
    ensures { Gives result tokens.now }
{
    match read_statement(alloc, tokens)? {
        Some(statement) => Ok(statement),
        None => Err(ParseFault::Syntax { place: 0 }),
    }
}
