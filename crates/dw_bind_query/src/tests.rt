//! Queries, tuples and new values over a table `t` with an integer `x` and a text `y`, as short texts.
//!
//! An expression is a number, a text after `'`, `count` for `count(*)`, or a column's name.
use super::*;
use dw_bind::Sight;
use dw_expr::{BindFault, Expr, Literal, NamedColumn, NamedSource, Node};
use dw_query::{Assignment, BoundChange, BoundQuery, BoundTuples, Item, Query, Target};
use dw_value::{Kind, List, Text};
use std::alloc::{AllocError, Global};
use std::test::Fail;

fn columns(alloc: Global) -> Result<List<NamedColumn>, AllocError> {
    let mut columns = List::new(alloc);
    columns.push(NamedColumn {
        name: Text::from_str(alloc, "x")?,
        kind: Kind::Int,
    })?;
    columns.push(NamedColumn {
        name: Text::from_str(alloc, "y")?,
        kind: Kind::Varchar { length: 3 },
    })?;
    Ok(columns)
}

fn sight(alloc: Global, of_table: bool) -> Result<Sight, AllocError> {
    let mut sources = List::new(alloc);
    if of_table {
        sources.push(NamedSource {
            alias: Text::from_str(alloc, "t")?,
            columns: columns(alloc)?,
        })?;
    }
    Sight::new(alloc, sources)
}

fn node_of(alloc: Global, word: &str) -> Result<Node, AllocError> {
    if let Ok(coefficient) = word.parse::<i128>() {
        return Ok(Node::Literal(Literal::Number {
            coefficient,
            scale: 0,
        }));
    }
    if let Some(text) = word.strip_prefix('\'') {
        let text = Text::from_str(alloc, text)?;
        return Ok(Node::Literal(Literal::Words { text }));
    }
    if word == "count" {
        return Ok(Node::CountRows);
    }
    let name = Text::from_str(alloc, word)?;
    Ok(Node::Column { source: None, name })
}

fn expr(alloc: Global, word: &str) -> Result<Expr, AllocError> {
    let node = node_of(alloc, word)?;
    Ok(Expr { node })
}

fn condition(alloc: Global, word: &str) -> Result<Option<Expr>, AllocError> {
    if word.is_empty() {
        return Ok(None);
    }
    Ok(Some(expr(alloc, word)?))
}

/// `*`, an expression, or an expression and its name with `:` between them.
fn item(alloc: Global, word: &str) -> Result<Item, AllocError> {
    if word == "*" {
        return Ok(Item::All);
    }
    let Some((written, name)) = word.split_once(':') else {
        let expr = expr(alloc, word)?;
        return Ok(Item::One { expr, name: None });
    };
    let expr = expr(alloc, written)?;
    let name = Some(Text::from_str(alloc, name)?);
    Ok(Item::One { expr, name })
}

fn query(alloc: Global, words: &str, keep: &str) -> Result<Query, AllocError> {
    let mut items = List::new(alloc);
    for word in words.split_whitespace() {
        items.push(item(alloc, word)?)?;
    }
    let keep = condition(alloc, keep)?;
    let source = None;
    Ok(Query {
        items,
        source,
        keep,
    })
}

fn texts(alloc: Global, words: &str) -> Result<List<Text>, AllocError> {
    let mut texts = List::new(alloc);
    for word in words.split_whitespace() {
        texts.push(Text::from_str(alloc, word)?)?;
    }
    Ok(texts)
}

fn tuple(alloc: Global, words: &str) -> Result<List<Expr>, AllocError> {
    let mut tuple = List::new(alloc);
    for word in words.split_whitespace() {
        tuple.push(expr(alloc, word)?)?;
    }
    Ok(tuple)
}

fn tuples(alloc: Global, lines: &str) -> Result<List<List<Expr>>, AllocError> {
    let mut tuples = List::new(alloc);
    for line in lines.split(';') {
        tuples.push(tuple(alloc, line)?)?;
    }
    Ok(tuples)
}

/// New values, each as a column and its value with `=` between them.
fn sets(alloc: Global, words: &str) -> Result<List<Assignment>, AllocError> {
    let mut sets = List::new(alloc);
    for word in words.split_whitespace() {
        let (column, value) = word.split_once('=').unwrap_or((word, ""));
        sets.push(Assignment {
            column: Text::from_str(alloc, column)?,
            value: expr(alloc, value)?,
        })?;
    }
    Ok(sets)
}

fn fault_told(alloc: Global, fault: BindFault) -> Result<String, AllocError> {
    match fault {
        BindFault::Unknown { name } => {
            let name = name.as_str();
            format!(in alloc; "unknown {name}")
        }
        BindFault::Clash => String::from_str(alloc, "clash"),
        BindFault::Memory => Err(AllocError),
    }
}

fn targets_told(alloc: Global, targets: &[Target]) -> Result<String, AllocError> {
    let mut told = String::new(alloc);
    for target in targets {
        match target.place {
            Some(place) => told.push_str(format!(in alloc; "{place} ")?.as_str())?,
            None => told.push_str("- ")?,
        }
    }
    Ok(told)
}

fn query_told(alloc: Global, bound: Result<BoundQuery, BindFault>) -> Result<String, AllocError> {
    let query = match bound {
        Ok(query) => query,
        Err(fault) => return fault_told(alloc, fault),
    };
    let mut told = String::new(alloc);
    for name in query.names.as_slice() {
        told.push_str(name.as_str())?;
        told.push(' ')?;
    }
    let items = query.items.len();
    told.push_str(format!(in alloc; "{items}")?.as_str())?;
    Ok(told)
}

fn tuples_told(alloc: Global, bound: Result<BoundTuples, BindFault>) -> Result<String, AllocError> {
    match bound {
        Ok(bound) => targets_told(alloc, bound.targets.as_slice()),
        Err(fault) => fault_told(alloc, fault),
    }
}

fn change_told(alloc: Global, bound: Result<BoundChange, BindFault>) -> Result<String, AllocError> {
    match bound {
        Ok(bound) => targets_told(alloc, bound.targets.as_slice()),
        Err(fault) => fault_told(alloc, fault),
    }
}

/// What a form with these parts is bound to over the table, or without one.
fn told(alloc: Global, form: &str, a: &str, b: &str) -> Result<String, AllocError> {
    let sight = sight(alloc, form != "values")?;
    let columns = columns(alloc)?;
    match form {
        "insert" => {
            let listed = texts(alloc, a)?;
            let tuples = tuples(alloc, b)?;
            let bound = bind_tuples(
                alloc,
                columns.as_slice(),
                listed.as_slice(),
                tuples.as_slice(),
            );
            tuples_told(alloc, bound)
        }
        "update" => {
            let sets = sets(alloc, a)?;
            let keep = condition(alloc, b)?;
            let bound = bind_change(alloc, &sight, columns.as_slice(), sets.as_slice(), &keep);
            change_told(alloc, bound)
        }
        _ => query_told(alloc, bind_query(alloc, &sight, &query(alloc, a, b)?)),
    }
}

#[test]
fn statements_are_bound_to_a_table(rt: HostRuntime) -> Result<(), Fail> {
    let alloc = rt.alloc();
    for (form, a, b, wanted) in [
        ("select", "*", "", "x y 2"),
        ("select", "y * x:z 'a 1", "", "y x y z ?column? ?column? 6"),
        ("select", "x", "1", "clash"),
        ("select", "count", "", "clash"),
        ("select", "count x", "q", "unknown q"),
        ("select", "r x", "q", "unknown r"),
        ("values", "1:one 2", "", "one ?column? 2"),
        ("values", "*", "", "clash"),
        ("values", "* x", "", "unknown x"),
        ("insert", "", "1 'a;2 'b", "0 1 "),
        ("insert", "y x", "'a 1", "1 0 "),
        ("insert", "y", "'a", "- 0 "),
        ("insert", "y q", "1", "unknown q"),
        ("insert", "y y", "'a 'b", "clash"),
        ("insert", "y y", "'a r", "unknown r"),
        ("insert", "", "1", "clash"),
        ("insert", "", "1 'a;1 'a 2", "clash"),
        ("insert", "", "'a 'a;1 x", "unknown x"),
        ("update", "y='a x=1", "", "1 0 "),
        ("update", "x=x", "", "0 - "),
        ("update", "x=y", "", "clash"),
        ("update", "x=1 x=2", "", "clash"),
        ("update", "x=1 x=r", "q", "unknown r"),
        ("update", "q=r", "", "unknown q"),
        ("update", "x=1", "y", "clash"),
    ] {
        let told = told(alloc, form, a, b)?;
        assert_eq!(rt; told.as_str(), wanted, "{form} {a} {b}");
    }
    Ok(())
}
