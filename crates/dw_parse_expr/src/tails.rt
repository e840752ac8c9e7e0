//! What comes after the last expression within a form. An expression goes with its depth and the place after it.
ghost use Rattle.std.specs.Prelude.{◌≡◌, suc, ◌+◌, ◌<◌, ◌≤◌, max, length, Some, IfOk, IfSome};
ghost use Rattle.std.specs.Option.{option_map};
ghost use Rattle.dw_expr.specs.Tree as t;
ghost use Rattle.dw_parse_words.specs.Words.{name_at};
ghost use Rattle.dw_parse_expr.specs.declared.marks.Mark.TheVariants as mark;
ghost use Rattle.dw_parse_expr.specs.Reading.{null_test, cast_after, among, closed, cast_closed, as_kind, coalesced, rows_counted, otherwise, date_at, branches};

use crate::lookup::{marked, not_at, past_not};
use crate::marks::Mark;
use crate::nodes::{
    aggregate, branches, cast, choice, choice_else, coalesce, column, count_rows, in_list, is_null,
    literal, trees,
};
use dw_expr::{Aggregate, Expr, Literal};
use dw_lex::Token;
use dw_parse_words::{kind_at, name_at, text_at, word_at};
use dw_value::{Kind, List, Text};
use std::alloc::{AllocError, Global};

/// What is read at a place, with its depth and the place after it, or that nothing is.
pub(crate) type Outcome<T> = Result<Option<(T, usize, usize)>, AllocError>;

/// `[not] null` after an expression and IS.
pub(crate) fn null_test(
    alloc: Global,
    tokens: &List<Token>,
    left: (Expr, usize, usize),
) -> Outcome<Expr>
    requires place { left.2 < length tokens.now }
    requires room { left.1 < 64 }
    ensures value { IfOk result (λ found. found ≡ null_test tokens.now left) }
    ensures within { IfOk result (λ found. IfSome found (λ f. f.2 ≤ length tokens.now)) }
    ensures deep { IfOk result (λ found. IfSome found (λ f. f.1 ≤ left.1 + 1)) }
{
    let (a, depth, at) = left;
    let _count = tokens.len();
    let negated = not_at(tokens, at + 1);
    let last = past_not(tokens, at + 1);
    if !marked(tokens, Mark::Null, last) {
        return Ok(None);
    }
    let tree = is_null(alloc, negated, a)?;
    Ok(Some((tree, depth + 1, last + 1)))
}

/// The kind after an expression and `::`.
pub(crate) fn cast_after(
    alloc: Global,
    tokens: &List<Token>,
    left: (Expr, usize, usize),
) -> Outcome<Expr>
    requires place { left.2 < length tokens.now }
    requires room { left.1 < 64 }
    ensures value { IfOk result (λ found. found ≡ cast_after tokens.now left) }
    ensures within { IfOk result (λ found. IfSome found (λ f. f.2 ≤ length tokens.now)) }
    ensures deep { IfOk result (λ found. IfSome found (λ f. f.1 ≤ left.1 + 1)) }
{
    let (a, depth, at) = left;
    let _count = tokens.len();
    let Some((kind, end)) = kind_at(tokens, at + 1) else {
        return Ok(None);
    };
    let tree = cast(alloc, a, kind)?;
    Ok(Some((tree, depth + 1, end)))
}

/// `)` after the list of IN.
pub(crate) fn among(
    alloc: Global,
    tokens: &List<Token>,
    left: (Expr, usize, usize),
    all: (List<Expr>, usize, usize),
) -> Outcome<Expr>
    requires room { left.1 < 64 }
    requires room_within { all.1 < 64 }
    ensures value { IfOk result (λ found. found ≡ among tokens.now left all) }
    ensures within { IfOk result (λ found. IfSome found (λ f. f.2 ≤ length tokens.now)) }
    ensures deep { IfOk result (λ found. IfSome found (λ f. f.1 ≤ max left.1 all.1 + 1)) }
{
    let (a, depth, at) = left;
    let (list, deep, end) = all;
    let negated = not_at(tokens, at);
    if !marked(tokens, Mark::Close, end) {
        return Ok(None);
    }
    let list = trees(alloc, list)?;
    let tree = in_list(alloc, negated, a, list)?;
    Ok(Some((tree, depth.max(deep) + 1, end + 1)))
}

/// `)` after an expression in parentheses.
pub(crate) fn enclosed(
    tokens: &List<Token>,
    found: (Expr, usize, usize),
) -> Option<(Expr, usize, usize)>
    requires room { found.1 < 64 }
    ensures value { result ≡ closed tokens.now mark.Close (λ a. a) found }
    ensures within { IfSome result (λ f. f.2 ≤ length tokens.now) }
    ensures deep { IfSome result (λ f. f.1 ≤ found.1 + 1) }
{
    let (a, depth, end) = found;
    if marked(tokens, Mark::Close, end) {
        Some((a, depth + 1, end + 1))
    } else {
        None
    }
}

/// `)` after the argument of an aggregate.
pub(crate) fn aggregated(
    alloc: Global,
    tokens: &List<Token>,
    function: Aggregate,
    found: (Expr, usize, usize),
) -> Outcome<Expr>
    requires room { found.1 < 64 }
    ensures value { IfOk result (λ whole. whole ≡ closed tokens.now mark.Close (t.aggregate function) found) }
    ensures within { IfOk result (λ whole. IfSome whole (λ f. f.2 ≤ length tokens.now)) }
    ensures deep { IfOk result (λ whole. IfSome whole (λ f. f.1 ≤ found.1 + 1)) }
{
    let (a, depth, end) = found;
    if !marked(tokens, Mark::Close, end) {
        return Ok(None);
    }
    let tree = aggregate(alloc, function, a)?;
    Ok(Some((tree, depth + 1, end + 1)))
}

// `)` after the kind of CAST.
fn cast_closed(
    alloc: Global,
    tokens: &List<Token>,
    found: (Expr, usize, usize),
    kind: (Kind, usize),
) -> Outcome<Expr>
    requires room { found.1 < 64 }
    ensures value { IfOk result (λ whole. whole ≡ cast_closed tokens.now found kind) }
    ensures within { IfOk result (λ whole. IfSome whole (λ f. f.2 ≤ length tokens.now)) }
    ensures deep { IfOk result (λ whole. IfSome whole (λ f. f.1 ≤ found.1 + 1)) }
{
    let (a, depth, _) = found;
    let (kind, end) = kind;
    if !marked(tokens, Mark::Close, end) {
        return Ok(None);
    }
    let tree = cast(alloc, a, kind)?;
    Ok(Some((tree, depth + 1, end + 1)))
}

/// `as kind )` after the expression of CAST.
pub(crate) fn as_kind(
    alloc: Global,
    tokens: &List<Token>,
    found: (Expr, usize, usize),
) -> Outcome<Expr>
    requires room { found.1 < 64 }
    ensures value { IfOk result (λ whole. whole ≡ as_kind tokens.now found) }
    ensures within { IfOk result (λ whole. IfSome whole (λ f. f.2 ≤ length tokens.now)) }
    ensures deep { IfOk result (λ whole. IfSome whole (λ f. f.1 ≤ found.1 + 1)) }
{
    if !marked(tokens, Mark::As, found.2) {
        return Ok(None);
    }
    match kind_at(tokens, found.2 + 1) {
        Some(kind) => cast_closed(alloc, tokens, found, kind),
        None => Ok(None),
    }
}

/// `)` after the arguments of COALESCE.
pub(crate) fn coalesced(
    alloc: Global,
    tokens: &List<Token>,
    all: (List<Expr>, usize, usize),
) -> Outcome<Expr>
    requires room { all.1 < 64 }
    ensures value { IfOk result (λ whole. whole ≡ coalesced tokens.now all) }
    ensures within { IfOk result (λ whole. IfSome whole (λ f. f.2 ≤ length tokens.now)) }
    ensures deep { IfOk result (λ whole. IfSome whole (λ f. f.1 ≤ all.1 + 1)) }
{
    let (list, depth, end) = all;
    if !marked(tokens, Mark::Close, end) {
        return Ok(None);
    }
    let list = trees(alloc, list)?;
    let tree = coalesce(alloc, list)?;
    Ok(Some((tree, depth + 1, end + 1)))
}

/// `)` after `count ( *`, whose first word is at this place.
pub(crate) fn rows_counted(tokens: &List<Token>, at: usize) -> Option<(Expr, usize, usize)>
    requires { at + 2 < length tokens.now }
    ensures value { result ≡ rows_counted tokens.now at }
    ensures within { IfSome result (λ f. f.2 ≤ length tokens.now) }
    ensures deep { IfSome result (λ f. f.1 ≤ 1) }
{
    let _count = tokens.len();
    if marked(tokens, Mark::Close, at + 3) {
        Some((count_rows(), 1, at + 4))
    } else {
        None
    }
}

/// `. name` after a name, which is at this place: a column after its source's name.
pub(crate) fn qualified(
    alloc: Global,
    tokens: &List<Token>,
    at: usize,
    source: Text,
) -> Outcome<Expr>
    requires { at + 1 < length tokens.now }
    ensures value { IfOk result (λ found. found
        ≡ option_map (λ other. (t.column (Some source) other, 1, at + 3)) (name_at tokens.now (at + 2))) }
    ensures within { IfOk result (λ found. IfSome found (λ f. f.2 ≤ length tokens.now)) }
    ensures deep { IfOk result (λ found. IfSome found (λ f. f.1 ≤ 1)) }
{
    let _count = tokens.len();
    match name_at(alloc, tokens, at + 2)? {
        Some(name) => Ok(Some((column(Some(source), name), 1, at + 3))),
        None => Ok(None),
    }
}

/// The text after the word DATE, which is at this place.
pub(crate) fn date_at(alloc: Global, tokens: &List<Token>, at: usize) -> Outcome<Expr>
    requires { at < length tokens.now }
    ensures value { IfOk result (λ found. found ≡ date_at tokens.now at) }
    ensures within { IfOk result (λ found. IfSome found (λ f. f.2 ≤ length tokens.now)) }
    ensures deep { IfOk result (λ found. IfSome found (λ f. f.1 ≤ 1)) }
{
    let _count = tokens.len();
    if !word_at(tokens, at, "date") {
        return Ok(None);
    }
    match text_at(alloc, tokens, at + 1)? {
        Some(text) => Ok(Some((literal(Literal::Date { text }), 1, at + 2))),
        None => Ok(None),
    }
}

/// CASE without ELSE, whose END is at the place after its branches.
pub(crate) fn ended(
    alloc: Global,
    tokens: &List<Token>,
    arms: (List<(Expr, Expr)>, usize, usize),
) -> Outcome<Expr>
    requires place { arms.2 < length tokens.now }
    requires room { arms.1 < 64 }
    ensures value { IfOk result (λ found. found ≡ Some (t.choice (branches arms.0), suc arms.1, arms.2 + 1)) }
    ensures within { IfOk result (λ found. IfSome found (λ f. f.2 ≤ length tokens.now)) }
    ensures deep { IfOk result (λ found. IfSome found (λ f. f.1 ≤ arms.1 + 1)) }
{
    let (list, depth, end) = arms;
    let _count = tokens.len();
    let row = branches(alloc, list)?;
    let tree = choice(alloc, row)?;
    Ok(Some((tree, depth + 1, end + 1)))
}

/// END after the expression of ELSE.
pub(crate) fn otherwise(
    alloc: Global,
    tokens: &List<Token>,
    arms: (List<(Expr, Expr)>, usize, usize),
    other: (Expr, usize, usize),
) -> Outcome<Expr>
    requires room { arms.1 < 64 }
    requires room_within { other.1 < 64 }
    ensures value { IfOk result (λ found. found ≡ otherwise tokens.now arms other) }
    ensures within { IfOk result (λ found. IfSome found (λ f. f.2 ≤ length tokens.now)) }
    ensures deep { IfOk result (λ found. IfSome found (λ f. f.1 ≤ max arms.1 other.1 + 1)) }
{
    let (list, depth, _) = arms;
    let (c, deep, end) = other;
    if !marked(tokens, Mark::End, end) {
        return Ok(None);
    }
    let row = branches(alloc, list)?;
    let tree = choice_else(alloc, row, c)?;
    Ok(Some((tree, depth.max(deep) + 1, end + 1)))
}
