//! What is printed of an answer.
ghost use Rattle.std.specs.Prelude.{◌≡◌, ◌++◌, flat_map, OnOk};
ghost use Rattle.dw_print.specs.Rows.{fields_line};
ghost use Rattle.dw_print.specs.Answers.{word_text, answer_text};
ghost use Rattle.dw_print.specs.Typed.{AreTypedRows, IsTypedAnswer};

use crate::fields::{write_number, write_text};
use crate::rows::{write_fields_line, write_names_line};
use dw_model::{Answer, Word};
use dw_value::{Field, List};
use std::alloc::AllocError;

/// Writes an answer, from the words of its statement to the end of its last line.
pub fn write_answer(out: &mut Vec<u8>, answer: &Answer) -> Result<(), AllocError>
    ensures text { OnOk result (out.new.items ≡ out.old.items ++ answer_text answer.now) }
    ensures typed { OnOk result (IsTypedAnswer answer.now) }
{
    match answer {
        Answer::Rows { word, names, rows } => {
            write_word(out, *word)?;
            write_number(out, " ", rows.len())?;
            write_text(out, "\n")?;
            write_names_line(out, names.as_slice())?;
            write_rows(out, rows.as_slice())
        }
        Answer::Count { word, count } => {
            write_word(out, *word)?;
            write_number(out, " ", *count)?;
            write_text(out, "\n")
        }
        Answer::Plain { word } => {
            write_word(out, *word)?;
            write_text(out, "\n")
        }
    }
}

/// Writes the words that a statement begins with.
pub fn write_word(out: &mut Vec<u8>, word: Word) -> Result<(), AllocError>
    ensures { OnOk result (out.new.items ≡ out.old.items ++ word_text word) }
{
    match word {
        Word::Begin => write_text(out, "BEGIN"),
        Word::Commit => write_text(out, "COMMIT"),
        Word::Rollback => write_text(out, "ROLLBACK"),
        Word::CreateTable => write_text(out, "CREATE TABLE"),
        Word::DropTable => write_text(out, "DROP TABLE"),
        Word::LockTable => write_text(out, "LOCK TABLE"),
        Word::Insert => write_text(out, "INSERT"),
        Word::Select => write_text(out, "SELECT"),
    }
}

/// Writes the rows of an answer, each as a line.
fn write_rows(out: &mut Vec<u8>, rows: &[List<Field>]) -> Result<(), AllocError>
    ensures text { OnOk result (out.new.items ≡ out.old.items ++ flat_map fields_line rows.now) }
    ensures typed { OnOk result (AreTypedRows rows.now) }
{
    for row in rows {
        write_fields_line(out, row.as_slice())?;
    }
    Ok(())
}
