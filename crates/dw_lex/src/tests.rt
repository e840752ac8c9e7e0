//! Tests of tokens.
use super::{Form, LexFault, Sign, tokens};
use std::alloc::{AllocError, Global};
use std::test::Fail;

// A line of each token's form, start and end, or the place that is foreign.
fn shown(alloc: Global, text: &[u8]) -> Result<String, AllocError> {
    let found = match tokens(alloc, text) {
        Ok(found) => found,
        Err(LexFault::Foreign { place }) => return format!(in alloc; "foreign {place}"),
        Err(LexFault::Memory) => return Err(AllocError),
    };
    let mut line = String::new(alloc);
    for token in found.as_slice() {
        let form = token.form;
        let start = token.start;
        let end = token.end;
        write!(line, "{form:?} {start} {end};")?;
    }
    Ok(line)
}

fn repeated(alloc: Global, character: char, count: u32) -> Result<String, AllocError> {
    let mut text = String::new(alloc);
    for _ in 0..count {
        text.push(character)?;
    }
    Ok(text)
}

#[test]
fn tokens_are_the_longest_at_their_place(rt: HostRuntime) -> Result<(), Fail> {
    for (text, expected) in [
        ("", ""),
        (" \t\r\n", ""),
        ("a$1 _x", "Name 0 3;Name 4 6;"),
        ("1.5.", "Number 0 3;Sign(Dot) 3 4;"),
        ("1.2.3", "Number 0 3;Sign(Dot) 3 4;Number 4 5;"),
        (
            "1. .5",
            "Number 0 1;Sign(Dot) 1 2;Sign(Dot) 3 4;Number 4 5;",
        ),
        ("1a a1", "Number 0 1;Name 1 2;Name 3 5;"),
        ("'it''s'", "Words 0 7;"),
        ("''''''''", "Words 0 8;"),
        ("'' 'a\\'b", "Words 0 2;Words 3 7;Name 7 8;"),
        ("'\"\n;é--'", "Words 0 9;"),
        ("'it''s", "foreign 0"),
        ("a 'b", "foreign 2"),
        ("x\"", "foreign 1"),
        ("\"a\" \"Select\"", "Quoted 0 3;Quoted 4 12;"),
        (
            "\"a\"\"b\".\"c$1\"d",
            "Quoted 0 3;Quoted 3 6;Sign(Dot) 6 7;Quoted 7 12;Name 12 13;",
        ),
        ("a \"\"", "foreign 2"),
        ("a \"a b\"", "foreign 2"),
        ("\"a", "foreign 0"),
        ("\"1a\"", "foreign 0"),
        ("\"é\"", "foreign 0"),
        ("\"a'\"'", "foreign 0"),
        ("é", "foreign 0"),
        ("a é 'b", "foreign 2"),
        ("$1", "foreign 0"),
        ("a!b", "foreign 1"),
        ("a|b", "foreign 1"),
        ("a:b", "foreign 1"),
        ("a;", "foreign 1"),
        (
            "(),.+",
            "Sign(Open) 0 1;Sign(Close) 1 2;Sign(Comma) 2 3;Sign(Dot) 3 4;Sign(Plus) 4 5;",
        ),
        (
            "- -*/%",
            "Sign(Minus) 0 1;Sign(Minus) 2 3;Sign(Star) 3 4;Sign(Slash) 4 5;Sign(Percent) 5 6;",
        ),
        (
            "=<>!=",
            "Sign(Equal) 0 1;Sign(Unequal) 1 3;Sign(Unequal) 3 5;",
        ),
        (
            "< <=>>=",
            "Sign(Less) 0 1;Sign(AtMost) 2 4;Sign(Greater) 4 5;Sign(AtLeast) 5 7;",
        ),
        (
            "||::/ *",
            "Sign(Join) 0 2;Sign(Cast) 2 4;Sign(Slash) 4 5;Sign(Star) 6 7;",
        ),
    ] {
        let line = shown(rt.alloc(), text.as_bytes())?;
        assert_eq!(rt; line.as_str(), expected, "{text}");
    }
    assert_eq!(rt; shown(rt.alloc(), b"'\xc3'")?.as_str(), "foreign 0");
    assert_eq!(rt; shown(rt.alloc(), b"'\xc3\xa9'")?.as_str(), "Words 0 4;");
    Ok(())
}

#[test]
fn comments_stand_between_tokens(rt: HostRuntime) -> Result<(), Fail> {
    for (text, expected) in [
        ("--", ""),
        ("-- a\n b--c", "Name 6 7;"),
        ("--a\r\nb", "Name 5 6;"),
        ("a--b\nc", "Name 0 1;Name 5 6;"),
        ("/**/a/* */b/*c*/", "Name 4 5;Name 10 11;"),
        ("1/* . */.5", "Number 0 1;Sign(Dot) 8 9;Number 9 10;"),
        ("/* /* */ ' \" -- */a", "Name 18 19;"),
        ("/*/**/*/a", "Name 8 9;"),
        ("/***/a", "Name 5 6;"),
        ("-- /*\na", "Name 6 7;"),
        ("/* é */a", "Name 8 9;"),
        ("'--' '/*'", "Words 0 4;Words 5 9;"),
        ("--->", ""),
        ("-/**/-", "Sign(Minus) 0 1;Sign(Minus) 5 6;"),
        ("</**/>", "Sign(Less) 0 1;Sign(Greater) 5 6;"),
        ("a*/", "Name 0 1;Sign(Star) 1 2;Sign(Slash) 2 3;"),
        ("a /*", "foreign 2"),
        ("a /*/", "foreign 2"),
        ("/* /* */ a", "foreign 0"),
        ("/**/ \"", "foreign 5"),
    ] {
        let line = shown(rt.alloc(), text.as_bytes())?;
        assert_eq!(rt; line.as_str(), expected, "{text}");
    }
    Ok(())
}

#[test]
fn long_names_and_numbers_are_foreign(rt: HostRuntime) -> Result<(), Fail> {
    for (character, count, expected) in [
        ('a', 127, "Name 0 127;"),
        ('a', 128, "foreign 0"),
        ('7', 38, "Number 0 38;"),
        ('7', 39, "foreign 0"),
    ] {
        let text = repeated(rt.alloc(), character, count)?;
        assert_eq!(rt; shown(rt.alloc(), text.as_bytes())?.as_str(), expected);
    }
    for (count, expected) in [(127, "Quoted 0 129;"), (128, "foreign 0")] {
        let name = repeated(rt.alloc(), 'a', count)?;
        let text = format!(in rt.alloc(); "\"{name}\"")?;
        assert_eq!(rt; shown(rt.alloc(), text.as_bytes())?.as_str(), expected);
    }
    let mut text = repeated(rt.alloc(), '7', 37)?;
    text.push_str(".5")?;
    assert_eq!(rt;
        shown(rt.alloc(), text.as_bytes())?.as_str(),
        "Number 0 39;"
    );
    text.push('5')?;
    assert_eq!(rt; shown(rt.alloc(), text.as_bytes())?.as_str(), "foreign 0");
    Ok(())
}

#[test]
fn tokens_say_what_they_stand_for(rt: HostRuntime) -> Result<(), Fail> {
    let alloc = rt.alloc();
    let found = tokens(
        alloc,
        b"SeLect \"SeLect\" 'it''s' '''' '' 007 99999999999999999999999999999999999999 1.5 <> !=",
    )?;
    let mut said = String::new(alloc);
    for token in found.as_slice() {
        if token.is_word("select") && !token.is_word("selec") {
            let name = token.folded(alloc)?;
            said.push_str(name.as_str())?;
        }
        if let Some(name) = token.written_name(alloc)? {
            let name = name.as_str();
            write!(said, "+{name}")?;
        }
        if token.is_sign(Sign::Unequal) {
            said.push_str("unequal")?;
        }
        if matches!(token.form, Form::Words) {
            let words = token.words(alloc)?;
            said.push_str(words.as_str())?;
        }
        if let Some(number) = token.whole_number() {
            write!(said, "{number}")?;
        }
        if let Some((number, places)) = token.decimal_number(alloc)? {
            write!(said, "~{number}~{places}")?;
        }
        said.push('|')?;
    }
    assert_eq!(rt;
        said.as_str(),
        "select+select|+select|it's|'||7~7~0|\
         99999999999999999999999999999999999999~99999999999999999999999999999999999999~0|~15~1|unequal|unequal|"
    );
    Ok(())
}
