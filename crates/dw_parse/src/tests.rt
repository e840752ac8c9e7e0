//! Tests of the grammar.
use super::{ParseFault, parse};
use dw_lex::tokens;
use dw_model::{ColumnSpec, Literal, Statement, TableSpec};
use dw_value::{Comparison, Kind, List, Text};
use std::alloc::{AllocError, Global};
use std::test::Fail;

fn show_literal(line: &mut String, literal: &Literal) -> Result<(), AllocError> {
    match literal {
        Literal::Number { coefficient, scale } => {
            let coefficient = *coefficient;
            let scale = *scale;
            write!(line, "{coefficient}/{scale} ")
        }
        Literal::Words { text } => {
            let text = text.as_str();
            write!(line, "'{text}' ")
        }
        Literal::Date { text } => {
            let text = text.as_str();
            write!(line, "date '{text}' ")
        }
        Literal::Truth { value: true } => line.push_str("true "),
        Literal::Truth { value: false } => line.push_str("false "),
        Literal::Null => line.push_str("null "),
    }
}

fn show_row(line: &mut String, row: &List<Literal>) -> Result<(), AllocError> {
    line.push_str("( ")?;
    for literal in row.as_slice() {
        show_literal(line, literal)?;
    }
    line.push_str(") ")
}

fn show_names(line: &mut String, names: &List<Text>) -> Result<(), AllocError> {
    line.push_str("( ")?;
    for name in names.as_slice() {
        let name = name.as_str();
        write!(line, "{name} ")?;
    }
    line.push_str(") ")
}

fn show_kind(line: &mut String, kind: Kind) -> Result<(), AllocError> {
    match kind {
        Kind::Small => line.push_str("small "),
        Kind::Int => line.push_str("int "),
        Kind::Big => line.push_str("big "),
        Kind::Decimal { precision, scale } => write!(line, "decimal {precision} {scale} "),
        Kind::Char { length } => write!(line, "char {length} "),
        Kind::Varchar { length } => write!(line, "varchar {length} "),
        Kind::Date => line.push_str("date "),
        Kind::Bool => line.push_str("bool "),
    }
}

fn show_column(line: &mut String, column: &ColumnSpec) -> Result<(), AllocError> {
    let name = column.name.as_str();
    write!(line, "{name} ")?;
    show_kind(line, column.kind)?;
    if column.not_null {
        line.push_str("not_null ")?;
    }
    if let Some(literal) = &column.default {
        line.push_str("default ")?;
        show_literal(line, literal)?;
    }
    if let Some(encoding) = &column.encoding {
        let encoding = *encoding;
        write!(line, "{encoding:?} ")?;
    }
    Ok(())
}

// Columns, and what the table has of a style, distribution keys, sort keys and names in its keys and constraints.
fn show_table(line: &mut String, spec: &TableSpec) -> Result<(), AllocError> {
    let name = spec.name.as_str();
    write!(line, "create {name}: ")?;
    for column in spec.columns.as_slice() {
        show_column(line, column)?;
    }
    if let Some(style) = &spec.style {
        let style = *style;
        write!(line, "{style:?} ")?;
    }
    if !spec.dist_keys.is_empty() {
        line.push_str("dist ")?;
        show_names(line, &spec.dist_keys)?;
    }
    for key in spec.sort_keys.as_slice() {
        line.push_str("sort ")?;
        show_names(line, key)?;
    }
    if !spec.named.is_empty() {
        line.push_str("named ")?;
        show_names(line, &spec.named)?;
    }
    Ok(())
}

fn sign(comparison: Comparison) -> &'static str {
    match comparison {
        Comparison::Equal => "=",
        Comparison::Unequal => "<>",
        Comparison::Less => "<",
        Comparison::AtMost => "<=",
        Comparison::Greater => ">",
        Comparison::AtLeast => ">=",
    }
}

fn show_statement(line: &mut String, statement: &Statement) -> Result<(), AllocError> {
    match statement {
        Statement::Begin => line.push_str("begin"),
        Statement::Commit => line.push_str("commit"),
        Statement::Rollback => line.push_str("rollback"),
        Statement::Vacuum { .. } => line.push_str("vacuum"),
        Statement::Create { spec } => show_table(line, spec),
        Statement::Drop { table } => {
            let name = table.as_str();
            write!(line, "drop {name}")
        }
        Statement::Lock { tables } => {
            line.push_str("lock ")?;
            show_names(line, tables)
        }
        Statement::Insert {
            table,
            columns,
            rows,
        } => {
            let name = table.as_str();
            write!(line, "insert {name}: ")?;
            if !columns.is_empty() {
                show_names(line, columns)?;
            }
            for row in rows.as_slice() {
                show_row(line, row)?;
            }
            Ok(())
        }
        Statement::Select { query } => {
            let name = query.table.as_str();
            write!(line, "select {name}: ")?;
            for item in query.items.as_slice() {
                let item = item.as_str();
                write!(line, "{item} ")?;
            }
            match &query.keep {
                Some(test) => {
                    let column = test.column.as_str();
                    let comparison = sign(test.comparison);
                    write!(line, "where {column} {comparison} ")?;
                    show_literal(line, &test.literal)
                }
                None => Ok(()),
            }
        }
    }
}

// A line that says the statement of a text, or its refusal.
fn shown(alloc: Global, text: &str) -> Result<String, AllocError> {
    let mut line = String::new(alloc);
    let Ok(found) = tokens(alloc, text.as_bytes()) else {
        line.push_str("no tokens")?;
        return Ok(line);
    };
    match parse(alloc, &found) {
        Ok(statement) => show_statement(&mut line, &statement)?,
        Err(ParseFault::Syntax { place }) => write!(line, "syntax {place}")?,
        Err(ParseFault::Memory) => return Err(AllocError),
    }
    Ok(line)
}

const REFUSED: &str = "syntax 0";

fn around(alloc: Global, front: &str, part: &str, back: &str) -> Result<String, AllocError> {
    let mut text = String::new(alloc);
    text.push_str(front)?;
    text.push_str(part)?;
    text.push_str(back)?;
    Ok(text)
}

// Whether a text is the statement that these words say, or is refused, where that is expected.
fn is_shown(
    alloc: Global,
    text: &str,
    front: &str,
    expected: &str,
    back: &str,
) -> Result<bool, AllocError> {
    let line = shown(alloc, text)?;
    if expected == REFUSED {
        return Ok(line.as_str() == REFUSED);
    }
    let wanted = around(alloc, front, expected, back)?;
    Ok(line.as_str() == wanted.as_str())
}

#[test]
fn texts_are_statements_or_refused(rt: HostRuntime) -> Result<(), Fail> {
    for (text, expected) in [
        (
            "CREATE TABLE T (x INTEGER, S varchar(3))",
            "create t: x int s varchar 3 ",
        ),
        (
            "create table Public . t(integer integer,varchar VARCHAR ( 65535 ))",
            "create t: integer int varchar varchar 65535 ",
        ),
        (
            "create table public (x varchar(1))",
            "create public: x varchar 1 ",
        ),
        ("create table t (x integer,)", "syntax 0"),
        ("create table t ()", "syntax 0"),
        ("create table t", "syntax 0"),
        ("create table other.t (x integer)", "syntax 0"),
        ("create table select (x integer)", "syntax 0"),
        (
            "create table \"Select\" (\"FROM\" int)",
            "create select: from int ",
        ),
        ("create table t (a \"int\")", "syntax 0"),
        ("create table \"public\".t (a int)", "syntax 0"),
        ("create table t (Where integer)", "syntax 0"),
        ("create table t (x integer) x", "syntax 0"),
        ("create t (x integer)", "syntax 0"),
        ("create table t (x)", "syntax 0"),
        (
            "create table t (x int distkey, y int sortkey, unique (y)) sortkey (x) distkey (y)",
            "create t: x int y int dist ( x y ) sort ( y ) sort ( x ) named ( y x y ) ",
        ),
        ("drop table t", "drop t"),
        ("DROP TABLE public.T", "drop t"),
        ("drop t", "syntax 0"),
        ("drop table", "syntax 0"),
        ("drop table t, u", "syntax 0"),
        ("drop table public.", "syntax 0"),
        ("lock a", "lock ( a ) "),
        ("LOCK TABLE a, public.b , c", "lock ( a b c ) "),
        ("lock public.a", "lock ( a ) "),
        ("lock table Public . A", "lock ( a ) "),
        ("lock a, a", "lock ( a a ) "),
        ("lock lock, public", "lock ( lock public ) "),
        ("lock", "syntax 0"),
        ("lock table", "syntax 0"),
        ("lock a b", "syntax 0"),
        ("lock a,", "syntax 0"),
        ("lock table table", "syntax 0"),
        ("lock a, table b", "syntax 0"),
        ("lock tables a", "syntax 0"),
        ("lock (a)", "syntax 0"),
        ("lock public.", "syntax 0"),
        ("lock other.a", "syntax 0"),
        (
            "insert into t values (2,'b'), (-1,NULL)",
            "insert t: ( 2/0 'b' ) ( -1/0 null ) ",
        ),
        (
            "Insert INTO public.T Values('it''s',-0)",
            "insert t: ( 'it's' 0/0 ) ",
        ),
        (
            "insert into t (B, a) values (1, 2)",
            "insert t: ( b a ) ( 1/0 2/0 ) ",
        ),
        (
            "insert into public.t(a) values (1)",
            "insert t: ( a ) ( 1/0 ) ",
        ),
        ("insert into t () values (1)", "syntax 0"),
        ("insert into t (a,) values (1)", "syntax 0"),
        ("insert into t (a) (b) values (1)", "syntax 0"),
        ("insert into t values (x)", "syntax 0"),
        ("insert into t values (1,)", "syntax 0"),
        ("insert into t values (1),", "syntax 0"),
        ("insert into t values ()", "syntax 0"),
        ("insert into t values", "syntax 0"),
        ("insert into t values (1", "syntax 0"),
        ("SELECT x, S FROM t", "select t: x s "),
        (
            "select x from public.t where X < -2",
            "select t: x where x < -2/0 ",
        ),
        (
            "select x from t where s != ''",
            "select t: x where s <> '' ",
        ),
        (
            "select x from t where x <= 1",
            "select t: x where x <= 1/0 ",
        ),
        ("select x from t where x > 1", "select t: x where x > 1/0 "),
        (
            "select x from t where x >= 1",
            "select t: x where x >= 1/0 ",
        ),
        ("select \"FROM\" from \"Select\"", "select select: from "),
        (
            "select \"a\" from t where \"b\" = 1",
            "select t: a where b = 1/0 ",
        ),
        ("\"select\" a from t", "syntax 0"),
        ("select x, from t", "syntax 0"),
        ("select from t", "syntax 0"),
        ("select x from t where", "syntax 0"),
        ("select x from t where x", "syntax 0"),
        ("select x from t where x + 1", "syntax 0"),
        ("select x from t where x = y", "syntax 0"),
        ("select x from t where x = 1 and x = 2", "syntax 0"),
        ("select x from t group", "syntax 0"),
        ("select * from t", "syntax 0"),
        ("select", "syntax 0"),
        ("", "syntax 0"),
    ] {
        let line = shown(rt.alloc(), text)?;
        assert_eq!(rt; line.as_str(), expected, "{text}");
    }
    Ok(())
}

#[test]
fn kinds_have_their_spellings_and_limits(rt: HostRuntime) -> Result<(), Fail> {
    for (part, expected) in [
        ("smallint", "small "),
        ("INT2", "small "),
        ("integer", "int "),
        ("int", "int "),
        ("int4", "int "),
        ("bigint", "big "),
        ("int8", "big "),
        ("decimal", "decimal 18 0 "),
        ("numeric", "decimal 18 0 "),
        ("decimal(1)", "decimal 1 0 "),
        ("numeric(38)", "decimal 38 0 "),
        ("Decimal(4,2)", "decimal 4 2 "),
        ("decimal(38,37)", "decimal 38 37 "),
        ("decimal(5,5)", "decimal 5 5 "),
        ("char", "char 1 "),
        ("character", "char 1 "),
        ("char(4096)", "char 4096 "),
        ("character(2)", "char 2 "),
        ("char(MAX)", "char 4096 "),
        ("varchar", "varchar 256 "),
        ("varchar(1)", "varchar 1 "),
        ("varchar(65535)", "varchar 65535 "),
        ("varchar(max)", "varchar 65535 "),
        ("character varying", "varchar 256 "),
        ("CHARACTER VARYING(7)", "varchar 7 "),
        ("character varying(max)", "varchar 65535 "),
        ("text", "varchar 256 "),
        ("date", "date "),
        ("boolean", "bool "),
        ("bool", "bool "),
        ("char(0)", "syntax 0"),
        ("char(4097)", "syntax 0"),
        ("varchar(0)", "syntax 0"),
        ("varchar(65536)", "syntax 0"),
        ("varchar(1.0)", "syntax 0"),
        ("varchar(-1)", "syntax 0"),
        ("varchar()", "syntax 0"),
        ("varchar(max", "syntax 0"),
        ("varchar(99999999999999999999)", "syntax 0"),
        ("decimal(0)", "syntax 0"),
        ("decimal(39)", "syntax 0"),
        ("decimal(5,6)", "syntax 0"),
        ("decimal(38,38)", "syntax 0"),
        ("decimal(4,)", "syntax 0"),
        ("decimal(max)", "syntax 0"),
        ("decimal(4,2,1)", "syntax 0"),
        ("decimal(4.2)", "syntax 0"),
        ("text(3)", "syntax 0"),
        ("date(3)", "syntax 0"),
        ("integer(4)", "syntax 0"),
        ("varying", "syntax 0"),
        ("char varying", "syntax 0"),
        ("float", "syntax 0"),
        ("int int", "syntax 0"),
    ] {
        let text = around(rt.alloc(), "create table t (x ", part, ")")?;
        let is_right = is_shown(rt.alloc(), text.as_str(), "create t: x ", expected, "")?;
        assert!(rt; is_right, "{part}");
    }
    Ok(())
}

#[test]
fn options_and_constraints_make_columns(rt: HostRuntime) -> Result<(), Fail> {
    for (part, expected) in [
        ("x int not null", "x int not_null "),
        ("x int null", "x int "),
        ("x int not null null", "x int "),
        ("x int null not null", "x int not_null "),
        ("x int default -1", "x int default -1/0 "),
        ("x int default 1 default null", "x int default null "),
        (
            "x int default null not null",
            "x int not_null default null ",
        ),
        (
            "d date default date '2024-02-29' default 'x'",
            "d date default 'x' ",
        ),
        ("x int encode raw", "x int Raw "),
        ("x int encode RAW encode Delta", "x int Delta "),
        (
            "a int encode bytedict, b int encode delta32k, c int encode mostly8, d int encode mostly16, e int encode mostly32, f int encode runlength",
            "a int Bytedict b int Delta32k c int Mostly8 d int Mostly16 e int Mostly32 f int Runlength ",
        ),
        (
            "x int primary key unique references u references public.u (a, b)",
            "x int ",
        ),
        ("x int references public not null", "x int not_null "),
        ("X int distkey", "x int dist ( x ) "),
        ("x int sortkey", "x int sort ( x ) "),
        (
            "x int distkey distkey, y int sortkey sortkey distkey",
            "x int y int dist ( x x y ) sort ( y ) sort ( y ) ",
        ),
        (
            "encode int encode delta, distkey int distkey",
            "encode int Delta distkey int dist ( distkey ) ",
        ),
        ("x char not null", "x char 1 not_null "),
        (
            "x character unique, y character varying unique",
            "x char 1 y varchar 256 ",
        ),
        (
            "x decimal(4,2) not null default 1.50 encode delta",
            "x decimal 4 2 not_null default 150/2 Delta ",
        ),
        (
            "x int, primary key (X), unique (y, x), foreign key (z) references u (a), foreign key (x) references public.u",
            "x int named ( x y x z x ) ",
        ),
        ("primary key (x)", "named ( x ) "),
        ("x int not", "syntax 0"),
        ("x int default", "syntax 0"),
        ("x int default y", "syntax 0"),
        ("x int encode", "syntax 0"),
        ("x int encode auto", "syntax 0"),
        ("x int encode lzo", "syntax 0"),
        ("x int primary", "syntax 0"),
        ("x int references", "syntax 0"),
        ("x int references u (", "syntax 0"),
        ("x int references u ()", "syntax 0"),
        ("x int distkey (x)", "syntax 0"),
        ("x int sortkey auto", "syntax 0"),
        ("x int default - null", "syntax 0"),
        ("x int key", "syntax 0"),
        ("x int, primary key", "syntax 0"),
        ("x int, primary (x)", "syntax 0"),
        ("x int, primary key ()", "syntax 0"),
        ("x int, unique", "syntax 0"),
        ("x int, foreign key (x)", "syntax 0"),
        ("x int, foreign key (x) references", "syntax 0"),
        ("x int, foreign (x) references u", "syntax 0"),
        ("x int, key (x)", "syntax 0"),
    ] {
        let text = around(rt.alloc(), "create table t (", part, ")")?;
        let is_right = is_shown(rt.alloc(), text.as_str(), "create t: ", expected, "")?;
        assert!(rt; is_right, "{part}");
    }
    Ok(())
}

#[test]
fn attributes_make_tables(rt: HostRuntime) -> Result<(), Fail> {
    for (part, expected) in [
        ("diststyle even", "Even "),
        ("DISTSTYLE key", "Key "),
        ("diststyle all", "All "),
        ("DistStyle Auto", "Even "),
        ("diststyle even diststyle all", "All "),
        ("diststyle all diststyle auto", "Even "),
        ("diststyle auto diststyle key", "Key "),
        ("diststyle auto distkey (x)", "Even dist ( x ) named ( x ) "),
        ("distkey (X)", "dist ( x ) named ( x ) "),
        ("distkey(x) distkey(y)", "dist ( x y ) named ( x y ) "),
        ("sortkey (x, Y)", "sort ( x y ) named ( x y ) "),
        (
            "compound sortkey (x) sortkey (y)",
            "sort ( x ) sort ( y ) named ( x y ) ",
        ),
        ("sortkey auto", ""),
        ("encode auto backup yes BACKUP no", ""),
        (
            "sortkey (y) diststyle key distkey (x)",
            "Key dist ( x ) sort ( y ) named ( y x ) ",
        ),
        ("diststyle", "syntax 0"),
        ("diststyle some", "syntax 0"),
        ("distkey", "syntax 0"),
        ("distkey x", "syntax 0"),
        ("distkey ()", "syntax 0"),
        ("distkey (x, y)", "syntax 0"),
        ("distkey auto", "syntax 0"),
        ("sortkey", "syntax 0"),
        ("sortkey ()", "syntax 0"),
        ("sortkey x", "syntax 0"),
        ("compound sortkey auto", "syntax 0"),
        ("compound", "syntax 0"),
        ("compound distkey (x)", "syntax 0"),
        ("interleaved sortkey (x)", "syntax 0"),
        ("encode", "syntax 0"),
        ("encode delta", "syntax 0"),
        ("backup", "syntax 0"),
        ("backup true", "syntax 0"),
        (", sortkey (x)", "syntax 0"),
    ] {
        let text = around(rt.alloc(), "create table t (x int) ", part, "")?;
        let is_right = is_shown(rt.alloc(), text.as_str(), "create t: x int ", expected, "")?;
        assert!(rt; is_right, "{part}");
    }
    Ok(())
}

#[test]
fn literals_are_written_in_tuples_and_tests(rt: HostRuntime) -> Result<(), Fail> {
    for (literal, expected) in [
        ("1.50", "150/2"),
        ("-0.5", "-5/1"),
        ("- 0.5", "-5/1"),
        ("0", "0/0"),
        ("007.10", "710/2"),
        (
            "99999999999999999999999999999999999999",
            "99999999999999999999999999999999999999/0",
        ),
        (
            "-99999999999999999999999999999999999999",
            "-99999999999999999999999999999999999999/0",
        ),
        ("0.0000000000000000000000000000000000001", "1/37"),
        (
            "9.9999999999999999999999999999999999999",
            "99999999999999999999999999999999999999/37",
        ),
        ("date '2024-02-29'", "date '2024-02-29'"),
        ("DATE 'no date'", "date 'no date'"),
        ("true", "true"),
        ("FALSE", "false"),
        ("Null", "null"),
        ("''''", "'''"),
        ("'Date'", "'Date'"),
        ("- 'a'", "syntax 0"),
        ("- - 1", "syntax 0"),
        ("- null", "syntax 0"),
        ("+1", "syntax 0"),
        ("date", "syntax 0"),
        ("date 1", "syntax 0"),
        ("date date '1'", "syntax 0"),
        ("- date '1'", "syntax 0"),
        ("x", "syntax 0"),
        ("(1)", "syntax 0"),
        ("true false", "syntax 0"),
        ("1 2", "syntax 0"),
    ] {
        let text = around(rt.alloc(), "insert into t values (", literal, ")")?;
        let is_right = is_shown(rt.alloc(), text.as_str(), "insert t: ( ", expected, " ) ")?;
        assert!(rt; is_right, "{literal}");
        let text = around(rt.alloc(), "select x from t where x = ", literal, "")?;
        let is_right = is_shown(
            rt.alloc(),
            text.as_str(),
            "select t: x where x = ",
            expected,
            " ",
        )?;
        assert!(rt; is_right, "{literal}");
    }
    Ok(())
}

#[test]
fn words_begin_and_end_blocks(rt: HostRuntime) -> Result<(), Fail> {
    for (text, expected) in [
        ("BEGIN", "begin"),
        ("begin transaction", "begin"),
        ("Begin Work", "begin"),
        ("START TRANSACTION", "begin"),
        ("start /* */ transaction -- x", "begin"),
        ("COMMIT", "commit"),
        ("commit TRANSACTION", "commit"),
        ("commit work", "commit"),
        ("END", "commit"),
        ("end transaction", "commit"),
        ("end work", "commit"),
        ("ROLLBACK", "rollback"),
        ("rollback transaction", "rollback"),
        ("rollback work", "rollback"),
        ("ABORT", "rollback"),
        ("abort transaction", "rollback"),
        ("abort work", "rollback"),
        ("start", "syntax 0"),
        ("start work", "syntax 0"),
        ("start transaction work", "syntax 0"),
        ("begin work transaction", "syntax 0"),
        ("begin begin", "syntax 0"),
        ("commit 1", "syntax 0"),
        ("end,", "syntax 0"),
        ("'begin'", "syntax 0"),
        ("transaction", "syntax 0"),
        ("work", "syntax 0"),
    ] {
        let line = shown(rt.alloc(), text)?;
        assert_eq!(rt; line.as_str(), expected, "{text}");
    }
    Ok(())
}

fn many_columns(alloc: Global, count: u32) -> Result<String, AllocError> {
    let mut text = String::new(alloc);
    text.push_str("create table t (x integer")?;
    for _ in 1..count {
        text.push_str(",x integer")?;
    }
    text.push_str(", unique (x))")?;
    Ok(text)
}

#[test]
fn a_table_has_at_most_1600_columns(rt: HostRuntime) -> Result<(), Fail> {
    let text = many_columns(rt.alloc(), 1600)?;
    let line = shown(rt.alloc(), text.as_str())?;
    assert!(rt; line.as_str() != "syntax 0");
    let text = many_columns(rt.alloc(), 1601)?;
    let line = shown(rt.alloc(), text.as_str())?;
    assert_eq!(rt; line.as_str(), "syntax 0");
    Ok(())
}
