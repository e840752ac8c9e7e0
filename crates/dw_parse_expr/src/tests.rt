//! What texts are read as.
//!
//! An expected expression stands in postfix form, operands before what is made of them: `a b +` is `a + b`,
//! `a 1 2 in/2` is `a in (1, 2)`, and `a b case/1` is `case when a then b end`. A text stands after `'` and a date
//! after `@`.
use crate::expression_at;
use dw_expr::{Aggregate, Arms, ArmsNode, Expr, Exprs, ExprsNode, Literal, Node};
use dw_lex::{LexFault, Token, tokens};
use dw_value::{Comparison, Kind, List, Op, Text};
use std::alloc::{AllocError, Global};
use std::test::Fail;

/// In each line a text, and after `=>` the number of the tokens that are read and what they are read as, or `none`.
const TEXTS: &str = "a and b between c and d and e => 9 a b c d between and e and
not a = b => 4 a b = not
not a and b => 4 a not b and
- - 1 => 3 1 minus minus
1 - -1 => 4 1 1 minus -
- a * b => 4 a minus b *
- a::int => 4 a ::int minus
a::int::text => 5 a ::int ::text
a + b < c * d => 7 a b + c d * <
x is not null = y => 4 x is_not_null
null is null => 3 null is_null
a = b = c => 3 a b =
a - b - c => 5 a b - c -
a / b * c => 5 a b / c *
a || b || c => 5 a b || c ||
a or b and c => 5 a b c and or
(a or b) and c => 7 a b or c and
a between 1 and 2 or b => 7 a 1 2 between b or
a between 1 or 2 => none
a not between 1 and 2 => 6 a 1 2 not_between
a not like 'x%' => 4 a 'x% not_like
a like b => 3 a b like
a not in (1) => 6 a 1 not_in/1
x in (1, 2) => 7 x 1 2 in/2
\"Select\" or \"from\" => 3 select from or
\"count\" => 1 count
\"count\"(a) => none
\"date\" 'x' => none
a.\"null\" => 3 a.null
a::\"int\" => none
x in () => none
x in 1 => none
a not b => none
case when a then b end => 6 a b case/1
case when a then b when c then d end => 10 a b c d case/2
case when a then b else c end => 8 a b c case_else/1
case when a then b => none
case a when b then c end => none
count => 1 count
count(*) => 4 count(*)
count(distinct a) => 5 a count_distinct()
count(a + 1) => 6 a 1 + count()
SUM(a) => 4 a sum()
min(A.B) => 6 a.b min()
max(*) => none
upper(a) => none
date => 1 date
date '2024-02-29' => 2 @2024-02-29
date = date '2024-02-29' => 4 date @2024-02-29 =
day '2024-02-29' => none
a.b => 3 a.b
a.b.c => 3 a.b
a b => 1 a
cast(a as int) => 6 a ::int
cast(a, int) => none
coalesce(a, 1) => 6 a 1 coalesce/2
coalesce() => none
1.50 % 2 => 3 1.50 2 %
true <> false => 3 true false <>
select => none
( => none
=> none";

fn of(node: Node) -> Expr {
    Expr { node }
}

fn last(made: &mut Vec<Expr>) -> Expr {
    match made.pop() {
        Some(expr) => expr,
        None => of(Node::Literal(Literal::Null)),
    }
}

fn boxed(alloc: Global, made: &mut Vec<Expr>) -> Result<Box<Expr>, AllocError> {
    Ok(Box::new(alloc, last(made))?)
}

// The last expressions, so many of them, in a row.
fn row(alloc: Global, made: &mut Vec<Expr>, count: u8) -> Result<Box<Exprs>, AllocError> {
    let mut list = Exprs {
        node: ExprsNode::End,
    };
    for _ in 0..count {
        let first = boxed(alloc, made)?;
        let rest = Box::new(alloc, list)?;
        list = Exprs {
            node: ExprsNode::More(first, rest),
        };
    }
    Ok(Box::new(alloc, list)?)
}

// The last branches, so many of them, each a condition and a result.
fn arms(alloc: Global, made: &mut Vec<Expr>, count: u8) -> Result<Box<Arms>, AllocError> {
    let mut list = Arms {
        node: ArmsNode::End,
    };
    for _ in 0..count {
        let value = boxed(alloc, made)?;
        let condition = boxed(alloc, made)?;
        let rest = Box::new(alloc, list)?;
        list = Arms {
            node: ArmsNode::More(condition, value, rest),
        };
    }
    Ok(Box::new(alloc, list)?)
}

// What a form with a list makes of the last expressions.
fn counted(alloc: Global, form: &str, count: u8, made: &mut Vec<Expr>) -> Result<Expr, AllocError> {
    Ok(of(match form {
        "in" | "not_in" => {
            let list = row(alloc, made, count)?;
            Node::InList(form == "not_in", boxed(alloc, made)?, list)
        }
        "case" => Node::Case(arms(alloc, made, count)?, None),
        "case_else" => {
            let other = boxed(alloc, made)?;
            Node::Case(arms(alloc, made, count)?, Some(other))
        }
        _ => Node::Coalesce(row(alloc, made, count)?),
    }))
}

// What an operator makes of the last two expressions.
fn of_two(alloc: Global, word: &str, made: &mut Vec<Expr>) -> Result<Expr, AllocError> {
    let b = boxed(alloc, made)?;
    let a = boxed(alloc, made)?;
    Ok(of(match word {
        "+" => Node::Arithmetic(Op::Add, a, b),
        "-" => Node::Arithmetic(Op::Subtract, a, b),
        "*" => Node::Arithmetic(Op::Multiply, a, b),
        "/" => Node::Arithmetic(Op::Divide, a, b),
        "%" => Node::Arithmetic(Op::Remainder, a, b),
        "||" => Node::Joined(a, b),
        "=" => Node::Compared(Comparison::Equal, a, b),
        "<>" => Node::Compared(Comparison::Unequal, a, b),
        "<" => Node::Compared(Comparison::Less, a, b),
        "and" => Node::And(a, b),
        "or" => Node::Or(a, b),
        _ => Node::Like(word == "not_like", a, b),
    }))
}

fn of_three(alloc: Global, word: &str, made: &mut Vec<Expr>) -> Result<Expr, AllocError> {
    let high = boxed(alloc, made)?;
    let low = boxed(alloc, made)?;
    let a = boxed(alloc, made)?;
    Ok(of(Node::Between(word == "not_between", a, low, high)))
}

// A column, after its source's name where that is written, or a number.
fn column_or_number(alloc: Global, word: &str) -> Result<Expr, AllocError> {
    Ok(of(match word {
        "1" | "2" => Node::Literal(Literal::Number {
            coefficient: if word == "1" { 1 } else { 2 },
            scale: 0,
        }),
        "1.50" => Node::Literal(Literal::Number {
            coefficient: 150,
            scale: 2,
        }),
        _ => match word.split_once('.') {
            Some((source, name)) => Node::Column {
                source: Some(Text::from_str(alloc, source)?),
                name: Text::from_str(alloc, name)?,
            },
            None => Node::Column {
                source: None,
                name: Text::from_str(alloc, word)?,
            },
        },
    }))
}

// An expression without operands.
fn atom(alloc: Global, word: &str) -> Result<Expr, AllocError> {
    if let Some(text) = word.strip_prefix("'") {
        let text = Text::from_str(alloc, text)?;
        return Ok(of(Node::Literal(Literal::Words { text })));
    }
    if let Some(text) = word.strip_prefix("@") {
        let text = Text::from_str(alloc, text)?;
        return Ok(of(Node::Literal(Literal::Date { text })));
    }
    match word {
        "true" | "false" => Ok(of(Node::Literal(Literal::Truth {
            value: word == "true",
        }))),
        "null" => Ok(of(Node::Literal(Literal::Null))),
        "count(*)" => Ok(of(Node::CountRows)),
        _ => column_or_number(alloc, word),
    }
}

// The aggregate of a name.
fn aggregate_of(name: &str) -> Aggregate {
    match name {
        "count" => Aggregate::Count,
        "count_distinct" => Aggregate::CountDistinct,
        "sum" => Aggregate::Sum,
        "min" => Aggregate::Min,
        _ => Aggregate::Max,
    }
}

// The expression that a word is, or makes of the last ones.
fn next(alloc: Global, word: &str, made: &mut Vec<Expr>) -> Result<Expr, AllocError> {
    if let Some(function) = word.strip_suffix("()") {
        return Ok(of(Node::Aggregate(aggregate_of(function), boxed(alloc, made)?)));
    }
    match word {
        "minus" => Ok(of(Node::Negative(boxed(alloc, made)?))),
        "not" => Ok(of(Node::Not(boxed(alloc, made)?))),
        "is_null" => Ok(of(Node::IsNull(false, boxed(alloc, made)?))),
        "is_not_null" => Ok(of(Node::IsNull(true, boxed(alloc, made)?))),
        "::int" => Ok(of(Node::Cast(boxed(alloc, made)?, Kind::Int))),
        "::text" => Ok(of(Node::Cast(boxed(alloc, made)?, Kind::Varchar { length: 256 }))),
        "between" | "not_between" => of_three(alloc, word, made),
        "+"
        | "-"
        | "*"
        | "/"
        | "%"
        | "||"
        | "="
        | "<>"
        | "<"
        | "and"
        | "or"
        | "like"
        | "not_like" => { of_two(alloc, word, made) }
        _ => match word.split_once('/') {
            Some((form, count)) => counted(alloc, form, count.parse::<u8>().unwrap_or(0), made),
            None => atom(alloc, word),
        },
    }
}

// The expression that words in postfix form write.
fn written(alloc: Global, words: &str) -> Result<Expr, AllocError> {
    let mut made = Vec::new(alloc);
    for word in words.split(' ') {
        let expr = next(alloc, word, &mut made)?;
        made.push(expr)?;
    }
    Ok(last(&mut made))
}

fn tokens_of(alloc: Global, text: &str) -> Result<List<Token>, AllocError> {
    match tokens(alloc, text.as_bytes()) {
        Ok(found) => Ok(found),
        Err(LexFault::Foreign { .. }) => Ok(List::new(alloc)),
        Err(LexFault::Memory) => Err(AllocError),
    }
}

// Whether the text of a line is read as the line says.
fn is_read(alloc: Global, line: &str) -> Result<bool, AllocError> {
    let (text, wanted) = line.split_once("=> ").unwrap_or((line, ""));
    let tokens = tokens_of(alloc, text)?;
    let Some((tree, end)) = expression_at(alloc, &tokens, 0)? else {
        return Ok(wanted == "none");
    };
    let (count, words) = wanted.split_once(' ').unwrap_or((wanted, ""));
    let expected = written(alloc, words)?;
    Ok(count.parse::<usize>().unwrap_or(0) == end && tree == expected)
}

// How many of the tokens are read of a text that has `before` so many times, then `core`, and then `after` as often; 0
// where nothing is read.
fn read_of_deep(
    alloc: Global,
    count: usize,
    before: &str,
    core: &str,
    after: &str,
) -> Result<usize, AllocError> {
    let mut text = String::new(alloc);
    for _ in 0..count {
        text.push_str(before)?;
    }
    text.push_str(core)?;
    for _ in 0..count {
        text.push_str(after)?;
    }
    let tokens = tokens_of(alloc, text.as_str())?;
    match expression_at(alloc, &tokens, 0)? {
        Some((_, end)) => Ok(end),
        None => Ok(0),
    }
}

#[test]
fn texts_are_read(rt: HostRuntime) -> Result<(), Fail> {
    for line in TEXTS.lines() {
        assert!(rt; is_read(rt.alloc(), line)?, "{line}");
    }
    Ok(())
}

#[test]
fn expressions_are_at_most_64_deep(rt: HostRuntime) -> Result<(), Fail> {
    for (before, core, after, tokens) in [
        ("(", "1", ")", 127),
        ("- ", "a", "", 64),
        ("not ", "a", "", 64),
        ("", "a", " + 1", 127),
        ("coalesce(", "a", ")", 190),
        ("a in (", "a", ")", 253),
    ] {
        let most = read_of_deep(rt.alloc(), 63, before, core, after)?;
        assert_eq!(rt; most, tokens, "63 times {before}{after}");
        let more = read_of_deep(rt.alloc(), 64, before, core, after)?;
        assert_eq!(rt; more, 0, "64 times {before}{after}");
    }
    Ok(())
}
