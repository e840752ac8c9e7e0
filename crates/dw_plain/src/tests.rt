//! What statements answer and change, by tables of rows `statement => answer`.
use crate::{bound_refusal, plain_outcome, plain_run};
use dw_model::{
    Answer, Change, Column, ColumnSpec, Database, FileMap, Literal, Plain, Query, Refusal,
    Statement, StyleWord, TableDef, TableSpec, Test,
};
use dw_value::{Comparison, Encoding, Field, Kind, List, Row, Style, Text, Value};
use std::alloc::{AllocError, Global};
use std::mem;
use std::test::Fail;

// What each statement is answered or refused with, one after another. A column is its name, its kind and its options,
// each after a colon. A text stands after a quote, with `_` for a space, a date after d and a quote. The columns of an
// INSERT stand in parentheses, and a condition before the items.
const CREATES: &str = "create t x:int x:int => exists x
create u a:int b:int b:int a:int => exists b
create t x:int y:int dist=x dist=x => clash
create t x:int style=even dist=x => clash
create t x:int style=all dist=x => clash
create t x:int style=key => clash
create t x:int y:int sort=x sort=y => clash
create t x:int sort=y => unknown y
create t x:int dist=z sort=y => unknown z
create t x:int x:int dist=y => exists x
create t x:int:default='abc x:int => exists x
create t x:int:default='abc dist=y => unknown y
create t x:int:default='abc => clash
create t x:small:default=40000 => clash
create t x:date:default=d'2023-02-29 => clash
create t x:date:default='2023-02-29 => clash
create t y:int x:bool:encode=delta => clash
create t x:small:default=300 => done
create t y:int => exists t
create t y:int:default='abc y:int dist=z => exists t
drop u => unknown u
drop t => done
drop t => unknown t
select t x => unknown t
create t x:int style=key dist=x => done
insert t 5 => 1
drop t => done
create t x:int => done
select t x => rows x";

const INSERTS: &str = "create t x:int s:var3 => done
insert t 2147483647 'b => 1
insert t -2147483648 'üx => 1
insert t null null => 1
insert t 2147483648 'b => range
insert t -2147483649 'b => range
insert t 1 'abcd => range
insert t 1 'üüx => range
insert t 'a 'b => clash
insert t 1 2 => clash
insert t 1 => clash
insert t 1 'b 2 => clash
insert t 2147483648 'b , 'a 'b => clash
insert u 'a => unknown u
insert t 7 'c , 7 'c => 2
select t s x => rows s x | b 2147483647 | c 7 | c 7 | üx -2147483648 | \\N \\N
create d x:date => done
insert d '2023-02-29 => range
insert d d'2023-02-29 => clash
insert d 20240229 => clash
insert d '2024-02-29 , d'2024-03-01 , null => 3
select d x => rows x | 2024-02-29 | 2024-03-01 | \\N
create n x:int => done
insert n 0.5 , -0.5 , 0.4 => 3
insert n 2147483647.5 => range
select n x => rows x | -1 | 0 | 1
create m x:dec4.2 => done
insert m 1.005 => 1
insert m 99.995 => range
insert m 99.994 => 1
select m x => rows x | 1.01 | 99.99
create c x:char2 => done
insert c 'a__ , 'aa_ => 2
insert c 'aaa => range
select c x => rows x | a | aa
create b x:bool s:var3 => done
insert b 'true null => clash
insert b null 1 => clash
insert b true 'x , false null => 2
select b x s => rows x s | f \\N | t x";

const LISTED: &str = "create t a:int:notnull b:int:default=7 c:var3 d:int:notnull:default=9 => done
insert t (c,a) 'x 1 , null 2 => 2
insert t 3 null null 4 => 1
insert t (a,b) 4 null => 1
select t a b c d => rows a b c d | 1 7 x 9 | 2 7 \\N 9 | 3 \\N \\N 4 | 4 \\N \\N 9
insert u (z) 1 => unknown u
insert t (a,z) 1 => unknown z
insert t (a,a,z) 1 2 3 => unknown z
insert t (a,a) 1 2 => clash
insert t (a,b) 1 => clash
insert t (a) 1 2 => clash
insert t (c,a) 1 'x => clash
insert t (a) null => null a
insert t (b) 1 => null a
insert t (a) 1 , null => null a
insert t (a,d) 1 null , null 1 => null a
insert t (a,d) 1 null , 2 1 => null d
insert t (a) null , 2147483648 => range
insert t (a) null , 'x => clash
select t a => rows a | 1 | 2 | 3 | 4";

const QUERIES: &str = "create t x:int s:var3 => done
select t x => rows x
insert t 2 'b , 1 null , null 'a => 3
where t x < 2 x s => rows x s | 1 \\N
where t x <= 2 x s => rows x s | 1 \\N | 2 b
where t x = 2 x s => rows x s | 2 b
where t x <> 2 x s => rows x s | 1 \\N
where t x > 1 x s => rows x s | 2 b
where t x >= 1 x s => rows x s | 1 \\N | 2 b
where t x = null x s => rows x s
where t x <> null x s => rows x s
where t s < 'b x s => rows x s | \\N a
where t s <= 'b x s => rows x s | 2 b | \\N a
where t s = 'a x s => rows x s | \\N a
where t s <> 'a x s => rows x s | 2 b
where t s > 'a x s => rows x s | 2 b
where t s >= 'a x s => rows x s | 2 b | \\N a
where t x = 'a x => clash
where t s = 1 x => clash
where t y = 1 x => unknown y
where t z = 1 x y => unknown y
select t x x => rows x x | 1 1 | 2 2 | \\N \\N
select u y => unknown u
create k x:dec12.2 d:date b:bool => done
insert k 1.5 '2024-02-29 true , -0.05 d'2024-03-01 false , null null null => 3
select k x d b => rows x d b | -0.05 2024-03-01 f | 1.50 2024-02-29 t | \\N \\N \\N
where k x = 1.5 x => rows x | 1.50
where k x = 1.500 x => rows x | 1.50
where k x < 1 x => rows x | -0.05
where k x = 150 x => rows x
where k x = '1.5 x => clash
where k d = '2024-02-29 x => rows x | 1.50
where k d < d'2024-03-01 x => rows x | 1.50
where k d = '2023-02-29 x => clash
where k d = d'2023-02-29 x => clash
where k d = 1 x => clash
where k b = true x => rows x | 1.50
where k b = 'true x => clash";

fn text(alloc: Global, word: &str) -> Result<Text, AllocError> {
    let mut text = Text::new(alloc);
    for character in word.chars() {
        text.push(if character == '_' { ' ' } else { character })?;
    }
    Ok(text)
}

fn number(alloc: Global, word: &str) -> Result<Literal, AllocError> {
    let (whole, part) = word.split_once('.').unwrap_or((word, ""));
    let digits = format!(in alloc; "{whole}{part}")?;
    Ok(Literal::Number {
        coefficient: digits.as_str().parse::<i128>().unwrap_or(0),
        scale: u8::try_from(part.len()).unwrap_or(0),
    })
}

fn literal(alloc: Global, word: &str) -> Result<Literal, AllocError> {
    if let Some(words) = word.strip_prefix('\'') {
        return Ok(Literal::Words {
            text: text(alloc, words)?,
        });
    }
    if let Some(date) = word.strip_prefix("d'") {
        return Ok(Literal::Date {
            text: text(alloc, date)?,
        });
    }
    match word {
        "null" => Ok(Literal::Null),
        "true" => Ok(Literal::Truth { value: true }),
        "false" => Ok(Literal::Truth { value: false }),
        _ => number(alloc, word),
    }
}

fn kind(word: &str) -> Kind {
    match word {
        "small" => Kind::Small,
        "dec4.2" => Kind::Decimal {
            precision: 4,
            scale: 2,
        },
        "dec12.2" => Kind::Decimal {
            precision: 12,
            scale: 2,
        },
        "char2" => Kind::Char { length: 2 },
        "var3" => Kind::Varchar { length: 3 },
        "date" => Kind::Date,
        "bool" => Kind::Bool,
        _ => Kind::Int,
    }
}

fn column(alloc: Global, word: &str) -> Result<ColumnSpec, AllocError> {
    let (name, rest) = word.split_once(':').unwrap_or((word, ""));
    let (kind_word, options) = rest.split_once(':').unwrap_or((rest, ""));
    let mut column = ColumnSpec::new(Text::from_str(alloc, name)?, kind(kind_word));
    for option in options.split(':') {
        if let Some(word) = option.strip_prefix("default=") {
            column.default = Some(literal(alloc, word)?);
        }
        if option == "notnull" {
            column.not_null = true;
        }
        if option == "encode=delta" {
            column.encoding = Some(Encoding::Delta);
        }
    }
    Ok(column)
}

fn names(alloc: Global, words: &str) -> Result<List<Text>, AllocError> {
    let mut names = List::new(alloc);
    for name in words.split(',') {
        names.push(Text::from_str(alloc, name)?)?;
    }
    Ok(names)
}

fn create(alloc: Global, name: Text, text: &str) -> Result<Statement, AllocError> {
    let mut spec = TableSpec::new(name, List::new(alloc));
    for word in text.split_whitespace().skip(2) {
        if let Some(key) = word.strip_prefix("dist=") {
            spec.dist_keys.push(Text::from_str(alloc, key)?)?;
            spec.named.push(Text::from_str(alloc, key)?)?;
        } else if let Some(key) = word.strip_prefix("sort=") {
            spec.sort_keys.push(names(alloc, key)?)?;
            for name in key.split(',') {
                spec.named.push(Text::from_str(alloc, name)?)?;
            }
        } else if let Some(style) = word.strip_prefix("style=") {
            spec.style = Some(match style {
                "even" => StyleWord::Even,
                "key" => StyleWord::Key,
                _ => StyleWord::All,
            });
        } else {
            spec.columns.push(column(alloc, word)?)?;
        }
    }
    Ok(Statement::Create { spec })
}

fn insert(alloc: Global, table: Text, text: &str) -> Result<Statement, AllocError> {
    let mut columns = List::new(alloc);
    let mut rows = List::new(alloc);
    let mut tuple = List::new(alloc);
    for word in text.split_whitespace().skip(2) {
        if let Some(listed) = word.strip_prefix('(') {
            columns = names(alloc, listed.strip_suffix(')').unwrap_or(listed))?;
        } else if word == "," {
            rows.push(mem::replace(&mut tuple, List::new(alloc)))?;
        } else {
            tuple.push(literal(alloc, word)?)?;
        }
    }
    rows.push(tuple)?;
    Ok(Statement::Insert {
        table,
        columns,
        rows,
    })
}

fn comparison(word: &str) -> Comparison {
    match word {
        "=" => Comparison::Equal,
        "<>" => Comparison::Unequal,
        "<" => Comparison::Less,
        "<=" => Comparison::AtMost,
        ">" => Comparison::Greater,
        _ => Comparison::AtLeast,
    }
}

fn condition(alloc: Global, text: &str) -> Result<Option<Test>, AllocError> {
    let mut words = text.split_whitespace().skip(2);
    let column = Text::from_str(alloc, words.next().unwrap_or(""))?;
    let comparison = comparison(words.next().unwrap_or(""));
    let literal = literal(alloc, words.next().unwrap_or(""))?;
    Ok(Some(Test {
        column,
        comparison,
        literal,
    }))
}

fn select(
    alloc: Global,
    table: Text,
    text: &str,
    before: usize,
    keep: Option<Test>,
) -> Result<Statement, AllocError> {
    let mut items = List::new(alloc);
    for word in text.split_whitespace().skip(before) {
        items.push(Text::from_str(alloc, word)?)?;
    }
    Ok(Statement::Select {
        query: Query { items, table, keep },
    })
}

fn statement(alloc: Global, text: &str) -> Result<Statement, AllocError> {
    let mut words = text.split_whitespace();
    let form = words.next().unwrap_or("");
    let table = Text::from_str(alloc, words.next().unwrap_or(""))?;
    match form {
        "create" => create(alloc, table, text),
        "drop" => Ok(Statement::Drop { table }),
        "insert" => insert(alloc, table, text),
        "where" => {
            let keep = condition(alloc, text)?;
            select(alloc, table, text, 5, keep)
        }
        _ => select(alloc, table, text, 2, None),
    }
}

fn refusal_text(alloc: Global, refusal: &Refusal) -> Result<String, AllocError> {
    match refusal {
        Refusal::Unknown { name } => format!(in alloc; "unknown {}", name.as_str()),
        Refusal::Exists { name } => format!(in alloc; "exists {}", name.as_str()),
        Refusal::Clash => String::from_str(alloc, "clash"),
        Refusal::Range => String::from_str(alloc, "range"),
        Refusal::NullIn { column } => format!(in alloc; "null {}", column.as_str()),
        _ => String::from_str(alloc, "other"),
    }
}

fn rows_text(alloc: Global, names: &[Text], rows: &[List<Field>]) -> Result<String, AllocError> {
    let mut text = String::from_str(alloc, "rows")?;
    for name in names {
        text.push(' ')?;
        text.push_str(name.as_str())?;
    }
    for row in rows {
        text.push_str(" |")?;
        for field in row.as_slice() {
            text.push(' ')?;
            match field {
                Field::Shown(shown) => text.push_str(shown.as_str())?,
                Field::Null => text.push_str("\\N")?,
            }
        }
    }
    Ok(text)
}

// What a statement is answered or refused with. The database becomes the next one.
fn told(alloc: Global, text: &str, database: &mut Database) -> Result<String, AllocError> {
    let statement = statement(alloc, text)?;
    match plain_run(alloc, &statement, database, &FileMap::new(alloc))? {
        Plain::Refused(refusal) => refusal_text(alloc, &refusal),
        Plain::Done { answer, next } => {
            *database = next;
            match answer {
                Answer::Plain { .. } => String::from_str(alloc, "done"),
                Answer::Count { count, .. } => format!(in alloc; "{count}"),
                Answer::Rows { names, rows, .. } => rows_text(
                    alloc,
                    names.as_slice(),
                    rows.as_slice(),
                ),
            }
        }
    }
}

#[test]
fn statements_are_answered(rt: HostRuntime) -> Result<(), Fail> {
    let alloc = rt.alloc();
    for steps in [CREATES, INSERTS, LISTED, QUERIES] {
        let mut database = Database::new(alloc);
        for line in steps.lines() {
            let (text, wanted) = line.split_once(" => ").ok_or("a row has two parts")?;
            assert_eq!(rt;
                told(alloc, text, &mut database)?.as_str(),
                wanted,
                "{line}"
            );
        }
    }
    Ok(())
}

// What each statement changes where there is a table `t` of an INTEGER and a VARCHAR of 3 bytes. A column of a table
// that is made has `!` where it takes no NULL, `~` where it isn't RAW, and its default.
const CHANGES: &str = "insert t 2 'b , 1 null => t | 2 b | 1 \\N
insert t 2 'b , 2 'b => t | 2 b | 2 b
insert t (s) 'b => t | \\N b
insert t 2 'b , 2147483648 'b => range
insert t 2 'b , 'a 'b => clash
insert t 2 'b , 1 => clash
insert u 1 'b => unknown u
create t x:int => exists t
create u x:int y:var3 => u x y even sort
create u x:int y:var3 style=even => u x y even sort
create u x:int y:var3 style=all sort=y => u x y all sort 1
create u x:int y:var3 dist=y sort=y,x => u x y key 1 sort 1 0
create u x:int y:var3 style=key dist=x sort=x,x => u x y key 0 sort 0 0
create u x:dec4.2:default=1.005:notnull y:date:encode=delta:default='1970-01-03 => u x!101 y~2 even sort
create u x:char2:default='a__ y:int:default=-0.5 => u xa y-1 even sort
drop t => t goes
drop u => unknown u
select t x => nothing
select t y => unknown y";

fn value_text(alloc: Global, value: &Value) -> Result<String, AllocError> {
    match value {
        Value::Number(number) => format!(in alloc; "{number}"),
        Value::Words(words) => String::from_str(alloc, words.as_str()),
        Value::Day(day) => format!(in alloc; "{day}"),
        _ => String::from_str(alloc, "\\N"),
    }
}

// The values of each row after a bar.
fn add_rows(alloc: Global, text: &mut String, rows: &[Row]) -> Result<(), AllocError> {
    for row in rows {
        text.push_str(" |")?;
        for value in row.values.as_slice() {
            text.push(' ')?;
            text.push_str(value_text(alloc, value)?.as_str())?;
        }
    }
    Ok(())
}

fn add_column(alloc: Global, text: &mut String, column: &Column) -> Result<(), AllocError> {
    text.push(' ')?;
    text.push_str(column.name.as_str())?;
    if column.not_null {
        text.push('!')?;
    }
    if column.encoding != Encoding::Raw {
        text.push('~')?;
    }
    if !column.default.is_null() {
        text.push_str(value_text(alloc, &column.default)?.as_str())?;
    }
    Ok(())
}

fn def_text(alloc: Global, def: &TableDef) -> Result<String, AllocError> {
    let mut text = String::from_str(alloc, def.name.as_str())?;
    for column in def.columns.as_slice() {
        add_column(alloc, &mut text, column)?;
    }
    let style = match def.style {
        Style::Even => String::from_str(alloc, " even")?,
        Style::All => String::from_str(alloc, " all")?,
        Style::Key { column } => format!(in alloc; " key {column}")?,
    };
    text.push_str(style.as_str())?;
    text.push_str(" sort")?;
    for place in def.sort.as_slice() {
        text.push_str(format!(in alloc; " {place}")?.as_str())?;
    }
    Ok(text)
}

// The table that a change makes or takes away, or the rows that go and come.
fn change_text(alloc: Global, change: &Change) -> Result<String, AllocError> {
    match change {
        Change::Unchanged => String::from_str(alloc, "nothing"),
        Change::Drops { table } => format!(in alloc; "{} goes", table.as_str()),
        Change::Creates { def, .. } => def_text(alloc, def),
        Change::Alters { table, gone, added } => {
            let mut text = String::from_str(alloc, table.as_str())?;
            add_rows(alloc, &mut text, gone.as_slice())?;
            add_rows(alloc, &mut text, added.as_slice())?;
            Ok(text)
        }
    }
}

// What a statement changes, or why it is refused.
fn changed(alloc: Global, text: &str, database: &Database) -> Result<String, AllocError> {
    let statement = statement(alloc, text)?;
    let outcome = plain_outcome(alloc, &statement, database, &FileMap::new(alloc))?;
    match &outcome {
        Ok(outcome) => change_text(alloc, &outcome.change),
        Err(refusal) => refusal_text(alloc, refusal),
    }
}

// Why a statement is refused before anything is carried out, if it is.
fn bound(alloc: Global, text: &str, database: &Database) -> Result<String, AllocError> {
    match bound_refusal(&statement(alloc, text)?, database)? {
        Some(refusal) => refusal_text(alloc, &refusal),
        None => String::from_str(alloc, "bound"),
    }
}

// Whether a row of the table is one of a statement that is refused before anything is carried out.
fn is_refused(wanted: &str) -> bool {
    wanted == "clash" || wanted.starts_with("exists ") || wanted.starts_with("unknown ")
}

#[test]
fn statements_change_tables(rt: HostRuntime) -> Result<(), Fail> {
    let alloc = rt.alloc();
    let mut database = Database::new(alloc);
    told(alloc, "create t x:int s:var3", &mut database)?;
    for line in CHANGES.lines() {
        let (text, wanted) = line.split_once(" => ").ok_or("a row has two parts")?;
        let changed = changed(alloc, text, &database)?;
        assert_eq!(rt; changed.as_str(), wanted, "{line}");
        let bound = bound(alloc, text, &database)?;
        let refused = if is_refused(wanted) { wanted } else { "bound" };
        assert_eq!(rt; bound.as_str(), refused, "{line}");
    }
    Ok(())
}
