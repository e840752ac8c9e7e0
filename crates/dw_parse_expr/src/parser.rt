//! The reading of expressions. An expression goes with its depth and the place after it; a budget is the greatest depth
//! that is taken.
ghost use Rattle.std.specs.Prelude.{◌≡◌, suc, ◌+◌, ◌<◌, ◌≤◌, max, length, [], Some, IfOk, IfSome};
ghost use Rattle.std.specs.Option.{option_map, option_and_then};
ghost use Rattle.dw_expr.specs.Tree as t;
ghost use Rattle.dw_parse_expr.specs.declared.marks.Mark.TheVariants as mark;
ghost use Rattle.dw_parse_expr.specs.Marks.{mark_at, not_at, operator_of, prefix_made};
ghost use Rattle.dw_parse_expr.specs.Reading.{Found, below, listed_at, arm_result, arm_at, armed, case_after, case_at, aggregate_of, count_at, call_at, named};
ghost use Rattle.dw_parse_expr.specs.Reading.{closed, marked_atom, atom_at, among, upper, tested, goes_on, chain, steps, read, expression_at};

use crate::lookup::{
    aggregate_at, groups, level_at, mark_at, marked, not_at, operator_at, past_not, prefix_at,
};
use crate::marks::{Mark, Operator};
use crate::nodes::{between, column, like, literal, made, prefix_made};
use crate::tails::{
    Outcome, aggregated, among, as_kind, cast_after, coalesced, date_at, enclosed, ended,
    null_test, otherwise, qualified, rows_counted,
};
use dw_expr::{Aggregate, Expr, Literal};
use dw_lex::Token;
use dw_parse_words::{digits_at, name_at, text_at, word_at};
use dw_value::{List, Text};
use std::alloc::{AllocError, Global};

// The greatest depth of an expression.
const DEPTH_LIMIT: usize = 64;

/// The expression that the tokens from a place on read as, at most 64 deep, with the place after it. `None` comes exactly
/// where they read as none. Where no expression goes on at the place after it, it is the one that the grammar derives.
pub fn expression_at(
    alloc: Global,
    tokens: &List<Token>,
    at: usize,
) -> Result<Option<(Expr, usize)>, AllocError>
    requires { at ≤ length tokens.now }
    ensures value { IfOk result (λ found. found ≡ expression_at tokens.now at) }
    ensures within { IfOk result (λ found.
        IfSome found (λ one. (at < one.1) × (one.1 ≤ length tokens.now))) }
{
    match read(alloc, tokens, DEPTH_LIMIT, 8, at)? {
        Some((tree, _, end)) => Ok(Some((tree, end))),
        None => Ok(None),
    }
}

// How many operators of a level may follow one another.
fn most_steps(level: usize, budget: usize) -> usize
    ensures { result ≡ steps level budget }
{
    if groups(level) { budget } else { 1 }
}

// The expression of a level at a place, of at most this depth.
#[cycle(reading)]
fn read(
    alloc: Global,
    tokens: &List<Token>,
    budget: usize,
    level: usize,
    at: usize,
) -> Outcome<Expr>
    requires place { at ≤ length tokens.now }
    requires few { level ≤ 8 }
    requires room { budget ≤ 64 }
    ensures value { IfOk result (λ found. found ≡ read tokens.now budget level at) }
    ensures within { IfOk result (λ found. IfSome found (λ f. f.2 ≤ length tokens.now)) }
    ensures deep { IfOk result (λ found. IfSome found (λ f. f.1 ≤ budget)) }
{
    if budget == 0 {
        return Ok(None);
    }
    if level == 0 {
        return atom(alloc, tokens, budget - 1, at);
    }
    if prefix_at(tokens, at) == level {
        return prefixed(alloc, tokens, budget - 1, level, at);
    }
    let Some(first) = read(alloc, tokens, budget, level - 1, at)? else {
        return Ok(None);
    };
    chain(alloc, tokens, budget, level, first)
}

// The expression after an operator at a place, and before it the operator.
#[cycle(reading)]
fn prefixed(
    alloc: Global,
    tokens: &List<Token>,
    budget: usize,
    level: usize,
    at: usize,
) -> Outcome<Expr>
    requires place { at < length tokens.now }
    requires few { level ≤ 8 }
    requires room { budget < 64 }
    ensures value { IfOk result (λ found. found
        ≡ option_map (λ (a : Found). (prefix_made (mark_at tokens.now at) a.0, suc a.1, a.2))
        (read tokens.now budget level (at + 1))) }
    ensures within { IfOk result (λ found. IfSome found (λ f. f.2 ≤ length tokens.now)) }
    ensures deep { IfOk result (λ found. IfSome found (λ f. f.1 ≤ budget + 1)) }
{
    let _count = tokens.len();
    let mark = mark_at(tokens, at);
    let Some((a, depth, end)) = read(alloc, tokens, budget, level, at + 1)? else {
        return Ok(None);
    };
    let tree = prefix_made(alloc, mark, a)?;
    Ok(Some((tree, depth + 1, end)))
}

// An expression with what goes on after it at a level.
#[cycle(reading)]
fn chain(
    alloc: Global,
    tokens: &List<Token>,
    budget: usize,
    level: usize,
    first: (Expr, usize, usize),
) -> Outcome<Expr>
    requires place { first.2 ≤ length tokens.now }
    requires some { 1 ≤ level }
    requires few { level ≤ 8 }
    requires one { 1 ≤ budget }
    requires room { budget ≤ 64 }
    requires depth { first.1 ≤ budget }
    ensures value { IfOk result (λ found. found
        ≡ chain tokens.now (read tokens.now (below budget)) budget level (steps level budget) first) }
    ensures within { IfOk result (λ found. IfSome found (λ f. f.2 ≤ length tokens.now)) }
    ensures deep { IfOk result (λ found. IfSome found (λ f. f.1 ≤ budget)) }
{
    let mut left = first;
    let limit = most_steps(level, budget);
    for step in 0..limit {
        if level_at(tokens, left.2) != level {
            return Ok(Some(left));
        }
        if left.1 >= budget {
            return Ok(None);
        }
        let Some(next) = goes_on(alloc, tokens, budget - 1, level - 1, left)? else {
            return Ok(None);
        };
        left = next;
    }
    Ok(Some(left))
}

// An expression with the cast, the test or the operator after it.
#[cycle(reading)]
fn goes_on(
    alloc: Global,
    tokens: &List<Token>,
    budget: usize,
    level: usize,
    left: (Expr, usize, usize),
) -> Outcome<Expr>
    requires place { left.2 < length tokens.now }
    requires few { level ≤ 7 }
    requires room { budget < 64 }
    requires depth { left.1 ≤ budget }
    ensures value { IfOk result (λ found. found
        ≡ goes_on tokens.now (read tokens.now budget) level left (operator_of (mark_at tokens.now left.2))) }
    ensures within { IfOk result (λ found. IfSome found (λ f. f.2 ≤ length tokens.now)) }
    ensures deep { IfOk result (λ found. IfSome found (λ f. f.1 ≤ budget + 1)) }
{
    if let Some(operator) = operator_at(tokens, left.2) {
        return operated(alloc, tokens, budget, level, left, operator);
    }
    if marked(tokens, Mark::Is, left.2) {
        null_test(alloc, tokens, left)
    } else if marked(tokens, Mark::Cast, left.2) {
        cast_after(alloc, tokens, left)
    } else {
        tested(alloc, tokens, budget, level, left)
    }
}

// The expression after an operator, with the one before it.
#[cycle(reading)]
fn operated(
    alloc: Global,
    tokens: &List<Token>,
    budget: usize,
    level: usize,
    left: (Expr, usize, usize),
    operator: Operator,
) -> Outcome<Expr>
    requires place { left.2 < length tokens.now }
    requires few { level ≤ 7 }
    requires room { budget < 64 }
    requires depth { left.1 ≤ budget }
    ensures value { IfOk result (λ found. found
        ≡ goes_on tokens.now (read tokens.now budget) level left (Some operator)) }
    ensures within { IfOk result (λ found. IfSome found (λ f. f.2 ≤ length tokens.now)) }
    ensures deep { IfOk result (λ found. IfSome found (λ f. f.1 ≤ budget + 1)) }
{
    let (a, depth, at) = left;
    let _count = tokens.len();
    let Some((b, deep, end)) = read(alloc, tokens, budget, level, at + 1)? else {
        return Ok(None);
    };
    let tree = made(alloc, operator, a, b)?;
    Ok(Some((tree, depth.max(deep) + 1, end)))
}

// An expression with BETWEEN, LIKE or IN after it.
#[cycle(reading)]
fn tested(
    alloc: Global,
    tokens: &List<Token>,
    budget: usize,
    level: usize,
    left: (Expr, usize, usize),
) -> Outcome<Expr>
    requires place { left.2 < length tokens.now }
    requires few { level ≤ 7 }
    requires room { budget < 64 }
    requires depth { left.1 ≤ budget }
    ensures value { IfOk result (λ found. found ≡ tested tokens.now (read tokens.now budget) level left) }
    ensures within { IfOk result (λ found. IfSome found (λ f. f.2 ≤ length tokens.now)) }
    ensures deep { IfOk result (λ found. IfSome found (λ f. f.1 ≤ budget + 1)) }
{
    let word = past_not(tokens, left.2);
    if marked(tokens, Mark::Between, word) {
        between_test(alloc, tokens, budget, level, left, word)
    } else if marked(tokens, Mark::Like, word) {
        like_test(alloc, tokens, budget, level, left, word)
    } else if marked(tokens, Mark::In, word) && marked(tokens, Mark::Open, word + 1) {
        in_test(alloc, tokens, budget, left, word)
    } else {
        Ok(None)
    }
}

// The lower and the upper bound after BETWEEN, which is at this place.
#[cycle(reading)]
fn between_test(
    alloc: Global,
    tokens: &List<Token>,
    budget: usize,
    level: usize,
    left: (Expr, usize, usize),
    word: usize,
) -> Outcome<Expr>
    requires place { word < length tokens.now }
    requires few { level ≤ 7 }
    requires room { budget < 64 }
    requires depth { left.1 ≤ budget }
    ensures value { IfOk result (λ found. found
        ≡ option_and_then (upper tokens.now (read tokens.now budget) level left)
        (read tokens.now budget level (word + 1))) }
    ensures within { IfOk result (λ found. IfSome found (λ f. f.2 ≤ length tokens.now)) }
    ensures deep { IfOk result (λ found. IfSome found (λ f. f.1 ≤ budget + 1)) }
{
    let _count = tokens.len();
    let Some(low) = read(alloc, tokens, budget, level, word + 1)? else {
        return Ok(None);
    };
    upper(alloc, tokens, budget, level, left, low)
}

// AND and the upper bound after the lower one.
#[cycle(reading)]
fn upper(
    alloc: Global,
    tokens: &List<Token>,
    budget: usize,
    level: usize,
    left: (Expr, usize, usize),
    low: (Expr, usize, usize),
) -> Outcome<Expr>
    requires few { level ≤ 7 }
    requires room { budget < 64 }
    requires depth { left.1 ≤ budget }
    requires low_depth { low.1 ≤ budget }
    ensures value { IfOk result (λ found. found ≡ upper tokens.now (read tokens.now budget) level left low) }
    ensures within { IfOk result (λ found. IfSome found (λ f. f.2 ≤ length tokens.now)) }
    ensures deep { IfOk result (λ found. IfSome found (λ f. f.1 ≤ budget + 1)) }
{
    let (a, depth, at) = left;
    let (b, low_depth, and) = low;
    let negated = not_at(tokens, at);
    if !marked(tokens, Mark::And, and) {
        return Ok(None);
    }
    let Some((c, high_depth, end)) = read(alloc, tokens, budget, level, and + 1)? else {
        return Ok(None);
    };
    let tree = between(alloc, negated, a, b, c)?;
    let deepest = depth.max(low_depth.max(high_depth));
    Ok(Some((tree, deepest + 1, end)))
}

// The pattern after LIKE, which is at this place.
#[cycle(reading)]
fn like_test(
    alloc: Global,
    tokens: &List<Token>,
    budget: usize,
    level: usize,
    left: (Expr, usize, usize),
    word: usize,
) -> Outcome<Expr>
    requires place { word < length tokens.now }
    requires few { level ≤ 7 }
    requires room { budget < 64 }
    requires depth { left.1 ≤ budget }
    ensures value { IfOk result (λ found. found
        ≡ option_map (λ (b : Found). (t.like (not_at tokens.now left.2) left.0 b.0, suc (max left.1 b.1), b.2))
        (read tokens.now budget level (word + 1))) }
    ensures within { IfOk result (λ found. IfSome found (λ f. f.2 ≤ length tokens.now)) }
    ensures deep { IfOk result (λ found. IfSome found (λ f. f.1 ≤ budget + 1)) }
{
    let (a, depth, at) = left;
    let _count = tokens.len();
    let negated = not_at(tokens, at);
    let Some((b, deep, end)) = read(alloc, tokens, budget, level, word + 1)? else {
        return Ok(None);
    };
    let tree = like(alloc, negated, a, b)?;
    Ok(Some((tree, depth.max(deep) + 1, end)))
}

// The list in parentheses after IN, which is at this place.
#[cycle(reading)]
fn in_test(
    alloc: Global,
    tokens: &List<Token>,
    budget: usize,
    left: (Expr, usize, usize),
    word: usize,
) -> Outcome<Expr>
    requires place { word + 1 < length tokens.now }
    requires room { budget < 64 }
    requires depth { left.1 ≤ budget }
    ensures value { IfOk result (λ found. found
        ≡ option_and_then (among tokens.now left) (listed_at tokens.now (read tokens.now budget) (word + 2))) }
    ensures within { IfOk result (λ found. IfSome found (λ f. f.2 ≤ length tokens.now)) }
    ensures deep { IfOk result (λ found. IfSome found (λ f. f.1 ≤ budget + 1)) }
{
    let _count = tokens.len();
    let Some(all) = listed(alloc, tokens, budget, word + 2)? else {
        return Ok(None);
    };
    among(alloc, tokens, left, all)
}

// The expressions from a place on, with a comma between two.
#[cycle(reading)]
fn listed(alloc: Global, tokens: &List<Token>, budget: usize, start: usize) -> Outcome<List<Expr>>
    requires place { start ≤ length tokens.now }
    requires room { budget < 64 }
    ensures value { IfOk result (λ found. found ≡ listed_at tokens.now (read tokens.now budget) start) }
    ensures within { IfOk result (λ found. IfSome found (λ f. f.2 ≤ length tokens.now)) }
    ensures deep { IfOk result (λ found. IfSome found (λ f. f.1 ≤ budget)) }
{
    let mut list = List::new(alloc);
    let mut depth = 0;
    let mut at = start;
    for step in 0..tokens.len() {
        let Some((tree, deep, end)) = read(alloc, tokens, budget, 8, at)? else {
            return Ok(None);
        };
        list.push(tree)?;
        depth = depth.max(deep);
        if !marked(tokens, Mark::Comma, end) {
            return Ok(Some((list, depth, end)));
        }
        at = end + 1;
    }
    Ok(None)
}

// The expression of one token or more at a place: a literal, a column, a call, CASE or one in parentheses.
#[cycle(reading)]
fn atom(alloc: Global, tokens: &List<Token>, budget: usize, at: usize) -> Outcome<Expr>
    requires place { at ≤ length tokens.now }
    requires room { budget < 64 }
    ensures value { IfOk result (λ found. found ≡ atom_at tokens.now (read tokens.now budget) at) }
    ensures within { IfOk result (λ found. IfSome found (λ f. f.2 ≤ length tokens.now)) }
    ensures deep { IfOk result (λ found. IfSome found (λ f. f.1 ≤ budget + 1)) }
{
    if let Some(name) = name_at(alloc, tokens, at)? {
        return named(alloc, tokens, budget, at, name);
    }
    if let Some((number, scale)) = digits_at(alloc, tokens, at)? {
        let coefficient = number as i128;
        let tree = literal(Literal::Number { coefficient, scale });
        return Ok(Some((tree, 1, at + 1)));
    }
    if let Some(text) = text_at(alloc, tokens, at)? {
        let tree = literal(Literal::Words { text });
        return Ok(Some((tree, 1, at + 1)));
    }
    marked_atom(alloc, tokens, budget, at)
}

// What begins with a name, which is at this place.
#[cycle(reading)]
fn named(alloc: Global, tokens: &List<Token>, budget: usize, at: usize, name: Text) -> Outcome<Expr>
    requires place { at < length tokens.now }
    requires room { budget < 64 }
    ensures value { IfOk result (λ found. found ≡ named tokens.now (read tokens.now budget) at name) }
    ensures within { IfOk result (λ found. IfSome found (λ f. f.2 ≤ length tokens.now)) }
    ensures deep { IfOk result (λ found. IfSome found (λ f. f.1 ≤ budget + 1)) }
{
    let _count = tokens.len();
    if marked(tokens, Mark::Dot, at + 1) {
        return qualified(alloc, tokens, at, name);
    }
    if marked(tokens, Mark::Open, at + 1) {
        return call_at(alloc, tokens, budget, at);
    }
    if marked(tokens, Mark::Text, at + 1) {
        return date_at(alloc, tokens, at);
    }
    Ok(Some((column(None, name), 1, at + 1)))
}

// The call of the word at a place, which a parenthesis comes after.
#[cycle(reading)]
fn call_at(alloc: Global, tokens: &List<Token>, budget: usize, at: usize) -> Outcome<Expr>
    requires place { at + 1 < length tokens.now }
    requires room { budget < 64 }
    ensures value { IfOk result (λ found. found ≡ call_at tokens.now (read tokens.now budget) at) }
    ensures within { IfOk result (λ found. IfSome found (λ f. f.2 ≤ length tokens.now)) }
    ensures deep { IfOk result (λ found. IfSome found (λ f. f.1 ≤ budget + 1)) }
{
    let _count = tokens.len();
    if word_at(tokens, at, "cast") {
        let Some(found) = read(alloc, tokens, budget, 8, at + 2)? else {
            return Ok(None);
        };
        return as_kind(alloc, tokens, found);
    }
    if word_at(tokens, at, "coalesce") {
        let Some(all) = listed(alloc, tokens, budget, at + 2)? else {
            return Ok(None);
        };
        return coalesced(alloc, tokens, all);
    }
    match aggregate_at(tokens, at) {
        Some(function) => count_at(alloc, tokens, budget, at, function),
        None => Ok(None),
    }
}

// The call of an aggregate, whose word is at this place.
#[cycle(reading)]
fn count_at(
    alloc: Global,
    tokens: &List<Token>,
    budget: usize,
    at: usize,
    function: Aggregate,
) -> Outcome<Expr>
    requires place { at + 1 < length tokens.now }
    requires room { budget < 64 }
    ensures value { IfOk result (λ found. found ≡ count_at tokens.now (read tokens.now budget) at function) }
    ensures within { IfOk result (λ found. IfSome found (λ f. f.2 ≤ length tokens.now)) }
    ensures deep { IfOk result (λ found. IfSome found (λ f. f.1 ≤ budget + 1)) }
{
    let _count = tokens.len();
    let is_count = word_at(tokens, at, "count");
    if is_count && marked(tokens, Mark::Star, at + 2) {
        Ok(rows_counted(tokens, at))
    } else if is_count && marked(tokens, Mark::Distinct, at + 2) {
        aggregate_of(alloc, tokens, budget, Aggregate::CountDistinct, at + 3)
    } else {
        aggregate_of(alloc, tokens, budget, function, at + 2)
    }
}

// An aggregate of the argument at a place.
#[cycle(reading)]
fn aggregate_of(
    alloc: Global,
    tokens: &List<Token>,
    budget: usize,
    function: Aggregate,
    at: usize,
) -> Outcome<Expr>
    requires place { at ≤ length tokens.now }
    requires room { budget < 64 }
    ensures value { IfOk result (λ found. found ≡ aggregate_of tokens.now (read tokens.now budget) function at) }
    ensures within { IfOk result (λ found. IfSome found (λ f. f.2 ≤ length tokens.now)) }
    ensures deep { IfOk result (λ found. IfSome found (λ f. f.1 ≤ budget + 1)) }
{
    let Some(found) = read(alloc, tokens, budget, 8, at)? else {
        return Ok(None);
    };
    aggregated(alloc, tokens, function, found)
}

// What begins with a word or a sign of the grammar, at this place.
#[cycle(reading)]
fn marked_atom(alloc: Global, tokens: &List<Token>, budget: usize, at: usize) -> Outcome<Expr>
    requires place { at ≤ length tokens.now }
    requires room { budget < 64 }
    ensures value { IfOk result (λ found. found ≡ marked_atom tokens.now (read tokens.now budget) at) }
    ensures within { IfOk result (λ found. IfSome found (λ f. f.2 ≤ length tokens.now)) }
    ensures deep { IfOk result (λ found. IfSome found (λ f. f.1 ≤ budget + 1)) }
{
    if marked(tokens, Mark::Null, at) {
        Ok(Some((literal(Literal::Null), 1, at + 1)))
    } else if marked(tokens, Mark::True, at) {
        Ok(Some((literal(Literal::Truth { value: true }), 1, at + 1)))
    } else if marked(tokens, Mark::False, at) {
        Ok(Some((literal(Literal::Truth { value: false }), 1, at + 1)))
    } else if marked(tokens, Mark::Open, at) {
        parenthesised(alloc, tokens, budget, at + 1)
    } else if marked(tokens, Mark::Case, at) {
        case_at(alloc, tokens, budget, at)
    } else {
        Ok(None)
    }
}

// The expression at a place, which stands after a parenthesis, with the other parenthesis.
#[cycle(reading)]
fn parenthesised(alloc: Global, tokens: &List<Token>, budget: usize, at: usize) -> Outcome<Expr>
    requires place { at ≤ length tokens.now }
    requires room { budget < 64 }
    ensures value { IfOk result (λ found. found
        ≡ option_and_then (closed tokens.now mark.Close (λ a. a)) (read tokens.now budget 8 at)) }
    ensures within { IfOk result (λ found. IfSome found (λ f. f.2 ≤ length tokens.now)) }
    ensures deep { IfOk result (λ found. IfSome found (λ f. f.1 ≤ budget + 1)) }
{
    match read(alloc, tokens, budget, 8, at)? {
        Some(found) => Ok(enclosed(tokens, found)),
        None => Ok(None),
    }
}

// CASE, which is at this place.
#[cycle(reading)]
fn case_at(alloc: Global, tokens: &List<Token>, budget: usize, at: usize) -> Outcome<Expr>
    requires place { at < length tokens.now }
    requires room { budget < 64 }
    ensures value { IfOk result (λ found. found ≡ case_at tokens.now (read tokens.now budget) at) }
    ensures within { IfOk result (λ found. IfSome found (λ f. f.2 ≤ length tokens.now)) }
    ensures deep { IfOk result (λ found. IfSome found (λ f. f.1 ≤ budget + 1)) }
{
    let _count = tokens.len();
    if !marked(tokens, Mark::When, at + 1) {
        return Ok(None);
    }
    let Some(arms) = armed(alloc, tokens, budget, at + 2)? else {
        return Ok(None);
    };
    case_after(alloc, tokens, budget, arms)
}

// What comes after the branches of CASE: ELSE and an expression, or nothing, and END.
#[cycle(reading)]
fn case_after(
    alloc: Global,
    tokens: &List<Token>,
    budget: usize,
    arms: (List<(Expr, Expr)>, usize, usize),
) -> Outcome<Expr>
    requires room { budget < 64 }
    requires depth { arms.1 ≤ budget }
    ensures value { IfOk result (λ found. found ≡ case_after tokens.now (read tokens.now budget) arms) }
    ensures within { IfOk result (λ found. IfSome found (λ f. f.2 ≤ length tokens.now)) }
    ensures deep { IfOk result (λ found. IfSome found (λ f. f.1 ≤ budget + 1)) }
{
    if marked(tokens, Mark::End, arms.2) {
        return ended(alloc, tokens, arms);
    }
    if !marked(tokens, Mark::Else, arms.2) {
        return Ok(None);
    }
    let Some(other) = read(alloc, tokens, budget, 8, arms.2 + 1)? else {
        return Ok(None);
    };
    otherwise(alloc, tokens, arms, other)
}

// The branches of CASE from the first condition on, with WHEN between two.
#[cycle(reading)]
fn armed(
    alloc: Global,
    tokens: &List<Token>,
    budget: usize,
    start: usize,
) -> Outcome<List<(Expr, Expr)>>
    requires place { start ≤ length tokens.now }
    requires room { budget < 64 }
    ensures value { IfOk result (λ found. found
        ≡ armed tokens.now (read tokens.now budget) (length tokens.now) [] 0 start) }
    ensures within { IfOk result (λ found. IfSome found (λ f. f.2 ≤ length tokens.now)) }
    ensures deep { IfOk result (λ found. IfSome found (λ f. f.1 ≤ budget)) }
{
    let mut arms = List::new(alloc);
    let mut depth = 0;
    let mut at = start;
    for step in 0..tokens.len() {
        let Some((arm, deep, end)) = arm_at(alloc, tokens, budget, at)? else {
            return Ok(None);
        };
        arms.push(arm)?;
        depth = depth.max(deep);
        if !marked(tokens, Mark::When, end) {
            return Ok(Some((arms, depth, end)));
        }
        at = end + 1;
    }
    Ok(None)
}

// The branch of CASE whose condition is at this place.
#[cycle(reading)]
fn arm_at(alloc: Global, tokens: &List<Token>, budget: usize, at: usize) -> Outcome<(Expr, Expr)>
    requires place { at ≤ length tokens.now }
    requires room { budget < 64 }
    ensures value { IfOk result (λ found. found ≡ arm_at tokens.now (read tokens.now budget) at) }
    ensures within { IfOk result (λ found. IfSome found (λ f. f.2 ≤ length tokens.now)) }
    ensures deep { IfOk result (λ found. IfSome found (λ f. f.1 ≤ budget)) }
{
    let Some(condition) = read(alloc, tokens, budget, 8, at)? else {
        return Ok(None);
    };
    arm_result(alloc, tokens, budget, condition)
}

// THEN and the result after the condition of a branch.
#[cycle(reading)]
fn arm_result(
    alloc: Global,
    tokens: &List<Token>,
    budget: usize,
    condition: (Expr, usize, usize),
) -> Outcome<(Expr, Expr)>
    requires room { budget < 64 }
    requires depth { condition.1 ≤ budget }
    ensures value { IfOk result (λ found. found ≡ arm_result tokens.now (read tokens.now budget) condition) }
    ensures within { IfOk result (λ found. IfSome found (λ f. f.2 ≤ length tokens.now)) }
    ensures deep { IfOk result (λ found. IfSome found (λ f. f.1 ≤ budget)) }
{
    let (a, depth, end) = condition;
    if !marked(tokens, Mark::Then, end) {
        return Ok(None);
    }
    let Some((b, deep, last)) = read(alloc, tokens, budget, 8, end + 1)? else {
        return Ok(None);
    };
    Ok(Some(((a, b), depth.max(deep), last)))
}
