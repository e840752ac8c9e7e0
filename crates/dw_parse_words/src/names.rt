//! Names of tables and columns.
ghost use Rattle.std.specs.Prelude.{◌≡◌, ◌<◌, ◌≤◌, length, IfOk, IfSome};
ghost use Rattle.dw_parse_words.specs.PieceReading.{table_at, names_at, maybe_names_at};

use crate::lists::{Element, listed_at};
use crate::words::{is_sign_at, name_at, word_at};
use dw_lex::{Sign, Token};
use dw_value::{List, Text};
use std::alloc::{AllocError, Global};
use std::marker::Model;

/// The table's name at a place, with the place after it.
pub fn table_at(
    alloc: Global,
    tokens: &List<Token>,
    at: usize,
) -> Result<Option<(Text, usize)>, AllocError>
    ensures value { IfOk result (λ table. table ≡ table_at tokens.now at) }
    ensures within { IfOk result (λ table.
        IfSome table (λ found. (at < found.1) × (found.1 ≤ length tokens.now))) }
{
    if word_at(tokens, at, "public") && is_sign_at(tokens, at + 1, Sign::Dot) {
        match name_at(alloc, tokens, at + 2)? {
            Some(name) => Ok(Some((name, at + 3))),
            None => Ok(None),
        }
    } else {
        match name_at(alloc, tokens, at)? {
            Some(name) => Ok(Some((name, at + 1))),
            None => Ok(None),
        }
    }
}

// `name`
impl Element for Text {
    ghost use Rattle.dw_parse_words.specs.PieceReading.{named_at};

    ghost read_at = { named_at };

    fn at(
        alloc: Global,
        tokens: &List<Token>,
        at: usize,
    ) -> Result<Option<(Text, usize)>, AllocError> {
        match name_at(alloc, tokens, at)? {
            Some(name) => Ok(Some((name, at + 1))),
            None => Ok(None),
        }
    }
}

/// A table's name where it stands in a list. Contracts see it as the name.
#[derive(Drop)]
pub struct TableName {
    name: Text,
}

impl Model for TableName {
    ghost use Rattle.std.specs.Prelude.{ℕ, List};
    ghost use Rattle.std.specs.Coded.{coded_list, coded_ℕ};

    ghost Value = { List ℕ };

    ghost coded = { coded_list coded_ℕ };

    ghost view = { λ table. table.name };
}

impl TableName {
    fn new(name: Text) -> TableName
        ensures { result ≡ name }
    {
        TableName { name }
    }

    fn into_text(self) -> Text
        ensures { result ≡ self }
    {
        let TableName { name } = self;
        name
    }
}

// `[public .] name`
impl Element for TableName {
    ghost use Rattle.dw_parse_words.specs.PieceReading.{table_at};

    ghost read_at = { table_at };

    fn at(
        alloc: Global,
        tokens: &List<Token>,
        at: usize,
    ) -> Result<Option<(TableName, usize)>, AllocError> {
        match table_at(alloc, tokens, at)? {
            Some((name, end)) => Ok(Some((TableName::new(name), end))),
            None => Ok(None),
        }
    }
}

/// The names of tables as texts, in the same order.
pub fn texts_of(alloc: Global, tables: List<TableName>) -> Result<List<Text>, AllocError>
    ensures { IfOk result (λ names. names ≡ tables) }
{
    let mut names = List::new(alloc);
    for table in tables.into_vec() {
        names.push(table.into_text())?;
    }
    Ok(names)
}

/// The names in parentheses at a place, with the place after them.
pub fn names_at(
    alloc: Global,
    tokens: &List<Token>,
    at: usize,
) -> Result<Option<(List<Text>, usize)>, AllocError>
    ensures value { IfOk result (λ names. names ≡ names_at tokens.now at) }
    ensures within { IfOk result (λ names.
        IfSome names (λ found. (at < found.1) × (found.1 ≤ length tokens.now))) }
{
    if !is_sign_at(tokens, at, Sign::Open) {
        return Ok(None);
    }
    let Some((names, end)) = listed_at::<Text>(alloc, tokens, at + 1)? else {
        return Ok(None);
    };
    if is_sign_at(tokens, end, Sign::Close) {
        Ok(Some((names, end + 1)))
    } else {
        Ok(None)
    }
}

/// The names in parentheses at a place, or none where no parenthesis stands there, with the place after them.
pub fn maybe_names_at(
    alloc: Global,
    tokens: &List<Token>,
    at: usize,
) -> Result<Option<(List<Text>, usize)>, AllocError>
    requires { at ≤ length tokens.now }
    ensures value { IfOk result (λ names. names ≡ maybe_names_at tokens.now at) }
    ensures within { IfOk result (λ names.
        IfSome names (λ found. (at ≤ found.1) × (found.1 ≤ length tokens.now))) }
{
    if is_sign_at(tokens, at, Sign::Open) {
        names_at(alloc, tokens, at)
    } else {
        Ok(Some((List::new(alloc), at)))
    }
}
