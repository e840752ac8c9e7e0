//! Parts of tables: columns and constraints.
ghost use Rattle.std.specs.Prelude.{◌≡◌, ◌<◌, ◌≤◌, length, IfOk, IfSome};
ghost use Rattle.dw_parse.specs.CreateReading.{column_at, constraint_at, foreign_of, foreign_after, constraint_by};

use crate::parts::{ColumnOption, Part, PartWord};
use dw_lex::Token;
use dw_parse_words::{
    Element, Said, kind_at, maybe_names_at, meant_at, name_at, names_at, repeated_at, says,
    table_at, word_at,
};
use dw_value::{List, Text};
use std::alloc::{AllocError, Global};

impl Said for PartWord {
    ghost use Rattle.dw_parse.specs.Tables.{part_words};

    ghost words = { part_words };

    fn of(token: &Token) -> Option<PartWord> {
        if says(token, "primary") {
            Some(PartWord::Primary)
        } else if says(token, "unique") {
            Some(PartWord::Unique)
        } else if says(token, "foreign") {
            Some(PartWord::Foreign)
        } else {
            None
        }
    }
}

// A column of this name, whose kind is at this place, with the place after it.
fn column_at(
    alloc: Global,
    tokens: &List<Token>,
    name: Text,
    at: usize,
) -> Result<Option<(Part, usize)>, AllocError>
    ensures value { IfOk result (λ part. part ≡ column_at tokens.now name at) }
    ensures within { IfOk result (λ part.
        IfSome part (λ found. (at < found.1) × (found.1 ≤ length tokens.now))) }
{
    let Some((kind, end)) = kind_at(tokens, at) else {
        return Ok(None);
    };
    let (options, end) = repeated_at::<ColumnOption>(alloc, tokens, end)?;
    let part = Part::Column {
        name,
        kind,
        options,
    };
    Ok(Some((part, end)))
}

// A constraint whose names are at this place, with the place after it.
fn constraint_at(
    alloc: Global,
    tokens: &List<Token>,
    at: usize,
) -> Result<Option<(Part, usize)>, AllocError>
    ensures value { IfOk result (λ part. part ≡ constraint_at tokens.now at) }
    ensures within { IfOk result (λ part.
        IfSome part (λ found. (at < found.1) × (found.1 ≤ length tokens.now))) }
{
    match names_at(alloc, tokens, at)? {
        Some((names, end)) => Ok(Some((Part::Constraint { names }, end))),
        None => Ok(None),
    }
}

// A foreign key after its names, with the place after it.
fn foreign_after(
    alloc: Global,
    tokens: &List<Token>,
    names: List<Text>,
    at: usize,
) -> Result<Option<(Part, usize)>, AllocError>
    ensures value { IfOk result (λ part. part ≡ foreign_after tokens.now (names, at)) }
    ensures within { IfOk result (λ part.
        IfSome part (λ found. (at < found.1) × (found.1 ≤ length tokens.now))) }
{
    if !word_at(tokens, at, "references") {
        return Ok(None);
    }
    let Some((_, end)) = table_at(alloc, tokens, at + 1)? else {
        return Ok(None);
    };
    match maybe_names_at(alloc, tokens, end)? {
        Some((_, end)) => Ok(Some((Part::Constraint { names }, end))),
        None => Ok(None),
    }
}

// The constraint by its first word, which is at this place, with the place after it.
fn constraint_by(
    alloc: Global,
    tokens: &List<Token>,
    at: usize,
    word: PartWord,
) -> Result<Option<(Part, usize)>, AllocError>
    requires { at < length tokens.now }
    ensures value { IfOk result (λ part. part ≡ constraint_by tokens.now at word) }
    ensures within { IfOk result (λ part.
        IfSome part (λ found. (at < found.1) × (found.1 ≤ length tokens.now))) }
{
    let _count = tokens.len();
    if matches!(word, PartWord::Unique) {
        return constraint_at(alloc, tokens, at + 1);
    }
    if !word_at(tokens, at + 1, "key") {
        return Ok(None);
    }
    if matches!(word, PartWord::Primary) {
        return constraint_at(alloc, tokens, at + 2);
    }
    match names_at(alloc, tokens, at + 2)? {
        Some((names, end)) => foreign_after(alloc, tokens, names, end),
        None => Ok(None),
    }
}

// A column or a constraint.
impl Element for Part {
    ghost use Rattle.dw_parse.specs.CreateReading.{part_at};

    ghost read_at = { part_at };

    fn at(
        alloc: Global,
        tokens: &List<Token>,
        at: usize,
    ) -> Result<Option<(Part, usize)>, AllocError> {
        if let Some(name) = name_at(alloc, tokens, at)? {
            return column_at(alloc, tokens, name, at + 1);
        }
        match meant_at::<PartWord>(tokens, at) {
            Some(word) => constraint_by(alloc, tokens, at, word),
            None => Ok(None),
        }
    }
}
