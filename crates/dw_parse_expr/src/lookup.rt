//! What the token at a place is to the grammar of expressions.
ghost use Rattle.std.specs.Prelude.{◌≡◌, ◌<◌, ◌≤◌, ◌^◌, length, slice_get, true, OnSome};
ghost use Rattle.std.specs.Option.{option_copied};
ghost use Rattle.dw_parse_words.specs.Words.{meant};
ghost use Rattle.dw_parse_expr.specs.Marks.{mark_words, sign_mark, mark_of, mark_at, aggregate_words, aggregate_at, is_not, not_at, past_not};
ghost use Rattle.dw_parse_expr.specs.Marks.{level_of, operator_of, groups, prefix_level, rank, marked};

use crate::marks::{Mark, Operator};
use dw_expr::Aggregate;
use dw_lex::{Form, Sign, Token};
use dw_parse_words::says;
use dw_value::{Comparison, List, Op};

// The word of the grammar that a token is.
fn word_mark(token: &Token) -> Option<Mark>
    ensures { result ≡ meant mark_words token.now }
{
    if says(token, "or") {
        Some(Mark::Or)
    } else if says(token, "and") {
        Some(Mark::And)
    } else if says(token, "not") {
        Some(Mark::Not)
    } else if says(token, "is") {
        Some(Mark::Is)
    } else if says(token, "null") {
        Some(Mark::Null)
    } else if says(token, "true") {
        Some(Mark::True)
    } else if says(token, "false") {
        Some(Mark::False)
    } else if says(token, "between") {
        Some(Mark::Between)
    } else if says(token, "in") {
        Some(Mark::In)
    } else if says(token, "like") {
        Some(Mark::Like)
    } else if says(token, "case") {
        Some(Mark::Case)
    } else if says(token, "when") {
        Some(Mark::When)
    } else if says(token, "then") {
        Some(Mark::Then)
    } else if says(token, "else") {
        Some(Mark::Else)
    } else if says(token, "end") {
        Some(Mark::End)
    } else if says(token, "as") {
        Some(Mark::As)
    } else if says(token, "distinct") {
        Some(Mark::Distinct)
    } else {
        None
    }
}

fn sign_mark(sign: Sign) -> Mark
    ensures { result ≡ sign_mark sign }
{
    match sign {
        Sign::Open => Mark::Open,
        Sign::Close => Mark::Close,
        Sign::Comma => Mark::Comma,
        Sign::Dot => Mark::Dot,
        Sign::Plus => Mark::Plus,
        Sign::Minus => Mark::Minus,
        Sign::Star => Mark::Star,
        Sign::Slash => Mark::Slash,
        Sign::Percent => Mark::Percent,
        Sign::Equal => Mark::Compared(Comparison::Equal),
        Sign::Unequal => Mark::Compared(Comparison::Unequal),
        Sign::Less => Mark::Compared(Comparison::Less),
        Sign::AtMost => Mark::Compared(Comparison::AtMost),
        Sign::Greater => Mark::Compared(Comparison::Greater),
        Sign::AtLeast => Mark::Compared(Comparison::AtLeast),
        Sign::Join => Mark::Join,
        Sign::Cast => Mark::Cast,
    }
}

fn mark_of(token: &Token) -> Option<Mark>
    ensures { result ≡ mark_of token.now }
{
    match token.form {
        Form::Name => word_mark(token),
        Form::Quoted | Form::Number => None,
        Form::Words => Some(Mark::Text),
        Form::Sign(sign) => Some(sign_mark(sign)),
    }
}

fn token_at(tokens: &List<Token>, at: usize) -> Option<&Token>
    ensures value { option_copied result ≡ slice_get tokens.now at }
    ensures within { OnSome result (at < length tokens.now) }
    ensures few { length tokens.now < 2 ^ 64 }
{
    let _count = tokens.len();
    tokens.get(at)
}

/// The word or sign of the grammar at a place, or a text.
pub(crate) fn mark_at(tokens: &List<Token>, at: usize) -> Option<Mark>
    ensures value { result ≡ mark_at tokens.now at }
    ensures within { OnSome result (at < length tokens.now) }
    ensures few { length tokens.now < 2 ^ 64 }
{
    match token_at(tokens, at) {
        Some(token) => mark_of(token),
        None => None,
    }
}

// A mark's number in the order of its type.
fn rank(mark: Mark) -> u8
    ensures { result ≡ rank mark }
{
    match mark {
        Mark::Or => 0,
        Mark::And => 1,
        Mark::Not => 2,
        Mark::Is => 3,
        Mark::Null => 4,
        Mark::True => 5,
        Mark::False => 6,
        Mark::Between => 7,
        Mark::In => 8,
        Mark::Like => 9,
        Mark::Case => 10,
        Mark::When => 11,
        Mark::Then => 12,
        Mark::Else => 13,
        Mark::End => 14,
        Mark::As => 15,
        Mark::Distinct => 16,
        Mark::Compared(_) => 17,
        Mark::Plus => 18,
        Mark::Minus => 19,
        Mark::Join => 20,
        Mark::Star => 21,
        Mark::Slash => 22,
        Mark::Percent => 23,
        Mark::Cast => 24,
        Mark::Open => 25,
        Mark::Close => 26,
        Mark::Comma => 27,
        Mark::Dot => 28,
        Mark::Text => 29,
    }
}

/// Whether this mark is at a place.
pub(crate) fn marked(tokens: &List<Token>, mark: Mark, at: usize) -> bool
    ensures value { result ≡ marked tokens.now mark at }
    ensures within { result ≡ true → at < length tokens.now }
    ensures few { length tokens.now < 2 ^ 64 }
{
    match mark_at(tokens, at) {
        Some(found) => rank(found) == rank(mark),
        None => false,
    }
}

fn level_of(mark: Option<Mark>) -> usize
    ensures { result ≡ level_of mark }
{
    match mark {
        Some(Mark::Or) => 8,
        Some(Mark::And) => 7,
        Some(Mark::Compared(_) | Mark::Is | Mark::Not) => 5,
        Some(Mark::Between | Mark::In | Mark::Like) => 5,
        Some(Mark::Plus | Mark::Minus | Mark::Join) => 4,
        Some(Mark::Star | Mark::Slash | Mark::Percent) => 3,
        Some(Mark::Cast) => 1,
        Some(Mark::Open | Mark::Dot | Mark::Text) => 0,
        _ => 10,
    }
}

/// The level at which what stands at a place goes on with an expression before it, or 10 where it never does.
pub(crate) fn level_at(tokens: &List<Token>, at: usize) -> usize
    ensures value { result ≡ level_of (mark_at tokens.now at) }
    ensures within { result < 10 → at < length tokens.now }
{
    match mark_at(tokens, at) {
        Some(mark) => level_of(Some(mark)),
        None => 10,
    }
}

fn operator_of(mark: Option<Mark>) -> Option<Operator>
    ensures { result ≡ operator_of mark }
{
    match mark {
        Some(Mark::Or) => Some(Operator::Or),
        Some(Mark::And) => Some(Operator::And),
        Some(Mark::Compared(comparison)) => Some(Operator::Compared(comparison)),
        Some(Mark::Plus) => Some(Operator::Arithmetic(Op::Add)),
        Some(Mark::Minus) => Some(Operator::Arithmetic(Op::Subtract)),
        Some(Mark::Join) => Some(Operator::Joined),
        Some(Mark::Star) => Some(Operator::Arithmetic(Op::Multiply)),
        Some(Mark::Slash) => Some(Operator::Arithmetic(Op::Divide)),
        Some(Mark::Percent) => Some(Operator::Arithmetic(Op::Remainder)),
        _ => None,
    }
}

/// The operator at a place, between two expressions.
pub(crate) fn operator_at(tokens: &List<Token>, at: usize) -> Option<Operator>
    ensures { result ≡ operator_of (mark_at tokens.now at) }
{
    operator_of(mark_at(tokens, at))
}

/// Whether the operators of a level group to the left.
pub(crate) fn groups(level: usize) -> bool
    ensures { result ≡ groups level }
{
    level == 1 || level == 3 || level == 4 || level == 7 || level == 8
}

fn prefix_level(mark: Option<Mark>) -> usize
    ensures { result ≡ prefix_level mark }
{
    match mark {
        Some(Mark::Not) => 6,
        Some(Mark::Minus) => 2,
        _ => 0,
    }
}

/// The level of the operator at a place, before an expression, or 0 where there is none.
pub(crate) fn prefix_at(tokens: &List<Token>, at: usize) -> usize
    ensures value { result ≡ prefix_level (mark_at tokens.now at) }
    ensures within { 0 < result → at < length tokens.now }
{
    match mark_at(tokens, at) {
        Some(mark) => prefix_level(Some(mark)),
        None => 0,
    }
}

fn is_not(mark: Option<Mark>) -> bool
    ensures { result ≡ is_not mark }
{
    matches!(mark, Some(Mark::Not))
}

/// Whether NOT is at a place.
pub(crate) fn not_at(tokens: &List<Token>, at: usize) -> bool
    ensures { result ≡ not_at tokens.now at }
{
    is_not(mark_at(tokens, at))
}

/// The place after NOT, or this place where there is none.
pub(crate) fn past_not(tokens: &List<Token>, at: usize) -> usize
    requires { at ≤ length tokens.now }
    ensures value { result ≡ past_not tokens.now at }
    ensures within { result ≤ length tokens.now }
{
    match mark_at(tokens, at) {
        Some(mark) if is_not(Some(mark)) => at + 1,
        _ => at,
    }
}

fn aggregate_of(token: &Token) -> Option<Aggregate>
    ensures { result ≡ meant aggregate_words token.now }
{
    if says(token, "count") {
        Some(Aggregate::Count)
    } else if says(token, "sum") {
        Some(Aggregate::Sum)
    } else if says(token, "min") {
        Some(Aggregate::Min)
    } else if says(token, "max") {
        Some(Aggregate::Max)
    } else {
        None
    }
}

/// The aggregate with one argument that the word at a place is.
pub(crate) fn aggregate_at(tokens: &List<Token>, at: usize) -> Option<Aggregate>
    ensures { result ≡ aggregate_at tokens.now at }
{
    match token_at(tokens, at) {
        Some(token) => aggregate_of(token),
        None => None,
    }
}
