//! Tests of what statements are made of.
use super::{
    TableName, digits_at, kind_at, listed_at, maybe_names_at, name_at, names_at, repeated_at,
    table_at, text_at, texts_of,
};
use dw_lex::{LexFault, Token, tokens};
use dw_model::Literal;
use dw_value::{Kind, List, Text};
use std::alloc::{AllocError, Global};
use std::test::Fail;

fn tokens_of(alloc: Global, text: &str) -> Result<List<Token>, AllocError> {
    match tokens(alloc, text.as_bytes()) {
        Ok(found) => Ok(found),
        Err(LexFault::Foreign { .. }) => Ok(List::new(alloc)),
        Err(LexFault::Memory) => Err(AllocError),
    }
}

fn show_text(line: &mut String, found: &Option<Text>) -> Result<(), AllocError> {
    match found {
        Some(text) => {
            let text = text.as_str();
            write!(line, "{text};")
        }
        None => line.push_str("none;"),
    }
}

// Names, and the place after them.
fn show_names(line: &mut String, names: &List<Text>, end: usize) -> Result<(), AllocError> {
    for name in names.as_slice() {
        let name = name.as_str();
        write!(line, "{name} ")?;
    }
    write!(line, "{end};")
}

fn show_found(line: &mut String, found: &Option<(List<Text>, usize)>) -> Result<(), AllocError> {
    match found {
        Some((names, end)) => show_names(line, names, *end),
        None => line.push_str("none;"),
    }
}

// The name, the table's name, the names in parentheses, and those that may be left out, at the first place.
fn names_in(alloc: Global, text: &str) -> Result<String, AllocError> {
    let tokens = tokens_of(alloc, text)?;
    let mut line = String::new(alloc);
    show_text(&mut line, &name_at(alloc, &tokens, 0)?)?;
    match table_at(alloc, &tokens, 0)? {
        Some((table, end)) => {
            let table = table.as_str();
            write!(line, "{table} {end};")?;
        }
        None => line.push_str("none;")?,
    }
    show_found(&mut line, &names_at(alloc, &tokens, 0)?)?;
    show_found(&mut line, &maybe_names_at(alloc, &tokens, 0)?)?;
    Ok(line)
}

// The tables between commas, and the names one after the other, from the first place on.
fn lists_in(alloc: Global, text: &str) -> Result<String, AllocError> {
    let tokens = tokens_of(alloc, text)?;
    let mut line = String::new(alloc);
    match listed_at::<TableName>(alloc, &tokens, 0)? {
        Some((tables, end)) => show_names(&mut line, &texts_of(alloc, tables)?, end)?,
        None => line.push_str("none;")?,
    }
    let (names, end) = repeated_at::<Text>(alloc, &tokens, 0)?;
    show_names(&mut line, &names, end)?;
    Ok(line)
}

// How many literals stand between commas, and the place after them.
fn literals_in(alloc: Global, text: &str) -> Result<Option<(usize, usize)>, AllocError> {
    let tokens = tokens_of(alloc, text)?;
    match listed_at::<Literal>(alloc, &tokens, 0)? {
        Some((literals, end)) => Ok(Some((literals.len(), end))),
        None => Ok(None),
    }
}

#[test]
fn names_and_lists_are_read(rt: HostRuntime) -> Result<(), Fail> {
    for (text, names, lists) in [
        ("", "none;none;none;0;", "none;0;"),
        ("T", "t;t 1;none;0;", "t 1;t 1;"),
        ("public.t", "public;t 3;none;0;", "t 3;public 1;"),
        ("public", "public;public 1;none;0;", "public 1;public 1;"),
        ("select", "none;none;none;0;", "none;0;"),
        (
            "\"Select\"",
            "select;select 1;none;0;",
            "select 1;select 1;",
        ),
        (
            "public.\"From\"",
            "public;from 3;none;0;",
            "from 3;public 1;",
        ),
        (
            "\"public\".t",
            "public;public 1;none;0;",
            "public 1;public 1;",
        ),
        ("(a, B)", "none;none;a b 5;a b 5;", "none;0;"),
        ("(a,)", "none;none;none;none;", "none;0;"),
        ("()", "none;none;none;none;", "none;0;"),
        ("a, public.b c", "a;a 1;none;0;", "a b 5;a 1;"),
        ("a b (c)", "a;a 1;none;0;", "a 1;a b 2;"),
        ("a,", "a;a 1;none;0;", "none;a 1;"),
    ] {
        assert_eq!(rt; names_in(rt.alloc(), text)?.as_str(), names, "{text}");
        assert_eq!(rt; lists_in(rt.alloc(), text)?.as_str(), lists, "{text}");
    }
    Ok(())
}

#[test]
fn literals_and_kinds_are_read(rt: HostRuntime) -> Result<(), Fail> {
    for (text, digits, said, literals) in [
        ("1.50", Some((150, 2)), "none;", Some((1, 1))),
        ("- 7, null", None, "none;", Some((2, 4))),
        ("'it''s', date '', true", None, "it's;", Some((3, 6))),
        ("1,", Some((1, 0)), "none;", None),
        ("a", None, "none;", None),
        ("\"null\"", None, "none;", None),
    ] {
        let tokens = tokens_of(rt.alloc(), text)?;
        let mut line = String::new(rt.alloc());
        show_text(&mut line, &text_at(rt.alloc(), &tokens, 0)?)?;
        assert_eq!(rt; digits_at(rt.alloc(), &tokens, 0)?, digits, "{text}");
        assert_eq!(rt; line.as_str(), said, "{text}");
        assert_eq!(rt; literals_in(rt.alloc(), text)?, literals, "{text}");
    }
    for (text, kind) in [
        ("char(3)", Some((Kind::Char { length: 3 }, 4))),
        ("character", Some((Kind::Char { length: 1 }, 1))),
        (
            "character varying",
            Some((Kind::Varchar { length: 256 }, 2)),
        ),
        (
            "decimal(5, 2)",
            Some((
                Kind::Decimal {
                    precision: 5,
                    scale: 2,
                },
                6,
            )),
        ),
        ("character \"varying\"", Some((Kind::Char { length: 1 }, 1))),
        ("\"int\"", None),
        ("decimal(5, 6)", None),
        ("varchar(0)", None),
    ] {
        let tokens = tokens_of(rt.alloc(), text)?;
        assert_eq!(rt; kind_at(&tokens, 0), kind, "{text}");
    }
    Ok(())
}
