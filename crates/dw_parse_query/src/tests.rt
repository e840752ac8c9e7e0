//! What texts are read as.
use crate::{change_at, condition_at, query_at, tuples_at};
use dw_expr::{Expr, Node};
use dw_lex::{LexFault, Token, tokens};
use dw_query::{Assignment, Item, Query, Source};
use dw_value::{List, Text};
use std::alloc::{AllocError, Global};
use std::test::Fail;

/// In each line a text, and after `=>` what is read after its first word, or `none`. An expression is shown by the name
/// of its column or by a word for its form. A name after `:` is an alias, and an expression after `:=` a new value.
const TEXTS: &str = "select a b => a:b
select a as b => a:b
SELECT * => *
select *, a => * a
select count(*) n => count:n
select a::int b => cast:b
select a, b c, a + b as D from t => a b:c other:d from t:t
select a from t u where a = 1 => a from t:u where compared
select a from t as u => a from t:u
select a from public.t => a from t:t
select a from Public.T U => a from t:u
select a from public t => a from public:t
select 1 => literal
select 1 where true => literal where literal
select a b c => none
select a as select => none
select a as => none
select a select => none
select a from => none
select a from t, u => none
select a from t u v => none
select a where => none
select a where b c => none
select a, => none
select a from public. => none
select * b => none
select x is not null = y => none
select a in () => none
select => none
values (1,2),(3,-4) => ( literal literal ) ( literal minus )
values (a = b) => ( compared )
values () => none
values (1), => none
values (1,) => none
values (1) (2) => none
values 1 => none
set a = b, b = a where a > 1 => a:=b b:=a where compared
set A = b = c => a:=compared
set a = 1 b = 2 => none
set t.a = 1 => none
set a = 1, => none
set a => none
delete =>
delete where a => where a
delete where => none
delete where a b => none
delete a => none";

// The name of an expression's column, or a word for its form.
fn form(expr: &Expr) -> &str {
    match &expr.node {
        Node::Column { name, .. } => name.as_str(),
        Node::Literal(_) => "literal",
        Node::Negative(_) => "minus",
        Node::Compared(_, _, _) => "compared",
        Node::Cast(_, _) => "cast",
        Node::CountRows => "count",
        _ => "other",
    }
}

fn show_item(line: &mut String, item: &Item) -> Result<(), AllocError> {
    match item {
        Item::All => line.push_str(" *"),
        Item::One { expr, name } => {
            line.push_str(" ")?;
            line.push_str(form(expr))?;
            show_alias(line, name)
        }
    }
}

fn show_alias(line: &mut String, alias: &Option<Text>) -> Result<(), AllocError> {
    match alias {
        Some(name) => {
            line.push_str(":")?;
            line.push_str(name.as_str())
        }
        None => Ok(()),
    }
}

fn show_source(line: &mut String, source: &Option<Source>) -> Result<(), AllocError> {
    match source {
        Some(source) => {
            line.push_str(" from ")?;
            line.push_str(source.table.as_str())?;
            line.push_str(":")?;
            line.push_str(source.alias.as_str())
        }
        None => Ok(()),
    }
}

fn show_condition(line: &mut String, keep: &Option<Expr>) -> Result<(), AllocError> {
    match keep {
        Some(expr) => {
            line.push_str(" where ")?;
            line.push_str(form(expr))
        }
        None => Ok(()),
    }
}

fn show_query(line: &mut String, query: &Query) -> Result<(), AllocError> {
    for item in query.items.as_slice() {
        show_item(line, item)?;
    }
    show_source(line, &query.source)?;
    show_condition(line, &query.keep)
}

fn show_tuple(line: &mut String, tuple: &List<Expr>) -> Result<(), AllocError> {
    line.push_str(" (")?;
    for expr in tuple.as_slice() {
        line.push_str(" ")?;
        line.push_str(form(expr))?;
    }
    line.push_str(" )")
}

fn show_tuples(line: &mut String, rows: &List<List<Expr>>) -> Result<(), AllocError> {
    for tuple in rows.as_slice() {
        show_tuple(line, tuple)?;
    }
    Ok(())
}

fn show_sets(line: &mut String, sets: &List<Assignment>) -> Result<(), AllocError> {
    for set in sets.as_slice() {
        line.push_str(" ")?;
        line.push_str(set.column.as_str())?;
        line.push_str(":=")?;
        line.push_str(form(&set.value))?;
    }
    Ok(())
}

fn tokens_of(alloc: Global, text: &str) -> Result<List<Token>, AllocError> {
    match tokens(alloc, text.as_bytes()) {
        Ok(found) => Ok(found),
        Err(LexFault::Foreign { .. }) => Ok(List::new(alloc)),
        Err(LexFault::Memory) => Err(AllocError),
    }
}

// What the tokens after the first are read as, which says what they are to be.
fn show_part(
    alloc: Global,
    line: &mut String,
    word: &str,
    tokens: &List<Token>,
) -> Result<(), AllocError> {
    if tokens.is_empty() {
        return Ok(());
    }
    match word {
        "values" => match tuples_at(alloc, tokens, 1)? {
            Some(rows) => show_tuples(line, &rows),
            None => line.push_str(" none"),
        },
        "set" => match change_at(alloc, tokens, 1)? {
            Some((sets, keep)) => {
                show_sets(line, &sets)?;
                show_condition(line, &keep)
            }
            None => line.push_str(" none"),
        },
        "delete" => match condition_at(alloc, tokens, 1)? {
            Some(keep) => show_condition(line, &keep),
            None => line.push_str(" none"),
        },
        _ => match query_at(alloc, tokens, 1)? {
            Some(query) => show_query(line, &query),
            None => line.push_str(" none"),
        },
    }
}

// Whether the text of a line is read as the line says.
fn is_read(alloc: Global, line: &str) -> Result<bool, AllocError> {
    let (text, wanted) = line.split_once("=>").unwrap_or((line, ""));
    let (word, _) = text.split_once(' ').unwrap_or((text, ""));
    let tokens = tokens_of(alloc, text)?;
    let mut shown = String::new(alloc);
    show_part(alloc, &mut shown, word, &tokens)?;
    Ok(shown.as_str() == wanted)
}

#[test]
fn texts_are_read(rt: HostRuntime) -> Result<(), Fail> {
    for line in TEXTS.lines() {
        assert!(rt; is_read(rt.alloc(), line)?, "{line}");
    }
    Ok(())
}
