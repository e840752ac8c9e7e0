//! Statements that begin or end a block.
ghost use Rattle.std.specs.Prelude.{◌≡◌};
ghost use Rattle.dw_parse.specs.Reading.{is_rest, block_word, read_block};

use dw_lex::Token;
use dw_model::Statement;
use dw_parse_words::word_at;
use dw_value::List;

// Whether nothing is left from this place on, or just one of the words that may stand after the first.
fn is_rest(tokens: &List<Token>, at: usize) -> bool
    ensures { result ≡ is_rest tokens.now at }
{
    let count = tokens.len();
    if at == count {
        return true;
    }
    let is_word = word_at(tokens, at, "transaction") || word_at(tokens, at, "work");
    is_word && at < count && at + 1 == count
}

fn block_word(tokens: &List<Token>) -> Option<Statement>
    ensures { result ≡ block_word tokens.now }
{
    if word_at(tokens, 0, "begin") {
        Some(Statement::Begin)
    } else if word_at(tokens, 0, "commit") || word_at(tokens, 0, "end") {
        Some(Statement::Commit)
    } else if word_at(tokens, 0, "rollback") || word_at(tokens, 0, "abort") {
        Some(Statement::Rollback)
    } else {
        None
    }
}

/// The statement that begins or ends a block of statements.
pub fn read_block(tokens: &List<Token>) -> Option<Statement>
    ensures { result ≡ read_block tokens.now }
{
    if word_at(tokens, 0, "start") {
        if word_at(tokens, 1, "transaction") && tokens.len() == 2 {
            Some(Statement::Begin)
        } else {
            None
        }
    } else if is_rest(tokens, 1) {
        block_word(tokens)
    } else {
        None
    }
}
