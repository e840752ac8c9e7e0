//! Reports of journals and databases that are made by hand, as the format says.
ghost use Rattle.std.specs.Prelude.{◌≡◌, IfOk};
ghost use Rattle.dw_model.specs.Databases.{IsAscending};

use crate::report_text;
use dw_journal::{Event, Journal, Route, Shape};
use dw_model::{Answer, Column, Database, Object, Refusal, Table, TableDef, Word};
use dw_value::{Encoding, Field, Kind, List, Row, Style, Text, Value, sort_rows};
use std::alloc::{AllocError, Global};
use std::test::Fail;

/// A journal of one session with an event for each refusal, which are its statements from 7 on, and then its end.
fn refusing(alloc: Global, refusals: Vec<Refusal>) -> Result<Journal, AllocError> {
    let mut events = List::new(alloc);
    let mut statement = 6u32;
    for refusal in refusals {
        statement = statement.wrapping_add(1);
        events.push(Event::Refuse {
            session: 1,
            statement,
            refusal,
        })?;
    }
    events.push(Event::End { session: 1 })?;
    Ok(Journal {
        shape: Shape::standard(1),
        events,
    })
}

#[test]
fn reports_are_as_the_format_says(rt: HostRuntime) -> Result<(), Fail> {
    let alloc = rt.alloc();
    let database = Database::new(alloc);
    let serial = List::new(alloc);
    let empty = refusing(alloc, Vec::new(alloc))?;
    let expected =
        b"warehouse nodes 2 slices 2 clusters 1 slots 5 sessions 1\n1 end 1\ntables 0\nserial\n";
    assert_eq!(rt;
        report_text(alloc, &empty, &database, &serial)?.as_slice(),
        expected.as_slice()
    );

    let each = vec![in alloc;
        Refusal::Syntax {
            place: 18_446_744_073_709_551_615
        },
        Refusal::Unknown {
            name: Text::from_str(alloc, "a\\b|c\nd\re")?
        },
        Refusal::Exists {
            name: Text::from_str(alloc, "größe")?
        },
        Refusal::Clash,
        Refusal::Range,
        Refusal::NullIn {
            column: Text::from_str(alloc, "a|b")?
        },
        Refusal::Memory,
    ]?;
    let journal = refusing(alloc, each)?;
    let expected = "warehouse nodes 2 slices 2 clusters 1 slots 5 sessions 1\n\
        1 refuse 1 7 1 syntax 18446744073709551615\n\
        2 refuse 1 8 2 unknown a\\\\b\\|c\\nd\\re\n\
        3 refuse 1 9 3 exists größe\n\
        4 refuse 1 10 4 clash\n\
        5 refuse 1 11 5 range\n\
        6 refuse 1 12 7 null a\\|b\n\
        7 refuse 1 13 16 memory\n\
        8 end 1\ntables 0\nserial\n";
    assert_eq!(rt;
        report_text(alloc, &journal, &database, &serial)?.as_slice(),
        expected.as_bytes()
    );

    let mut events = List::new(alloc);
    events.push(Event::End { session: 2 })?;
    events.push(Event::Refuse {
        session: 64,
        statement: 100_000,
        refusal: Refusal::Syntax { place: 0 },
    })?;
    events.push(Event::End { session: 64 })?;
    let shape = Shape {
        nodes: 16,
        slices: 3,
        clusters: 0,
        slots: 50,
        sessions: 64,
    };
    let journal = Journal { shape, events };
    let expected =
        b"warehouse nodes 16 slices 3 clusters 0 slots 50 sessions 64\n1 end 2\n2 refuse 64 100000 1 syntax 0\n3 end 64\ntables 0\nserial\n";
    assert_eq!(rt;
        report_text(alloc, &journal, &database, &serial)?.as_slice(),
        expected.as_slice()
    );
    Ok(())
}

/// A text, or no value.
fn words(alloc: Global, text: Option<&str>) -> Result<Value, AllocError> {
    match text {
        Some(text) => Ok(Value::Words(Text::from_str(alloc, text)?)),
        None => Ok(Value::Null),
    }
}

/// A row of a number and a text.
fn pair(alloc: Global, number: i128, text: Option<&str>) -> Result<Row, AllocError> {
    let mut values = List::new(alloc);
    values.push(Value::Number(number))?;
    values.push(words(alloc, text)?)?;
    Ok(Row { values })
}

/// A field of an answer.
fn shown(alloc: Global, text: &str) -> Result<Field, AllocError> {
    Ok(Field::Shown(Text::from_str(alloc, text)?))
}

/// A table of columns of these kinds, with these rows.
fn table(alloc: Global, kinds: &[Kind], rows: List<Row>) -> Result<Table, AllocError>
    ensures { IfOk result (λ table. IsAscending table.rows) }
{
    let mut columns = List::new(alloc);
    for kind in kinds {
        columns.push(Column {
            name: Text::from_str(alloc, "c")?,
            kind: *kind,
            not_null: false,
            default: Value::Null,
            encoding: Encoding::Raw,
        })?;
    }
    let rows = sort_rows(rows)?;
    Ok(Table {
        def: TableDef {
            name: Text::from_str(alloc, "t")?,
            columns,
            style: Style::Even,
            sort: List::new(alloc),
        },
        rows,
    })
}

/// The three events of a statement that commits on its own: it is the statement of this number in session 1, and
/// sees what all statements before it left.
fn push_alone(
    events: &mut List<Event>,
    statement: u32,
    answer: Answer,
    high: u64,
) -> Result<(), AllocError> {
    let stamp = u64::from(statement);
    events.push(Event::Opened {
        session: 1,
        statement,
        snapshot: stamp.saturating_sub(1),
        route: Route::Main,
    })?;
    events.push(Event::Answer {
        session: 1,
        statement,
        answer,
    })?;
    events.push(Event::Commit {
        session: 1,
        statement,
        stamp,
        low: stamp,
        high,
    })
}

/// Adds a row of this one field.
fn push_field(rows: &mut List<List<Field>>, shown: Field) -> Result<(), AllocError> {
    let mut row = List::new(rows.allocator());
    row.push(shown)?;
    rows.push(row)
}

/// The answer of a query of two columns with a row of 1 and NULL.
fn selected(alloc: Global) -> Result<Answer, AllocError> {
    let mut names = List::new(alloc);
    names.push(Text::from_str(alloc, "x")?)?;
    names.push(Text::from_str(alloc, "s")?)?;
    let mut row = List::new(alloc);
    row.push(shown(alloc, "1")?)?;
    row.push(Field::Null)?;
    let mut rows = List::new(alloc);
    rows.push(row)?;
    let word = Word::Select;
    Ok(Answer::Rows { word, names, rows })
}

/// The journal of a session whose three statements commit.
fn committing(alloc: Global) -> Result<Journal, AllocError> {
    let mut events = List::new(alloc);
    let word = Word::CreateTable;
    push_alone(&mut events, 1, Answer::Plain { word }, 0)?;
    let word = Word::Insert;
    push_alone(&mut events, 2, Answer::Count { word, count: 2 }, 1)?;
    push_alone(&mut events, 3, selected(alloc)?, 2)?;
    events.push(Event::End { session: 1 })?;
    let shape = Shape::standard(1);
    Ok(Journal { shape, events })
}

/// Puts a table with these rows under this name.
fn put_table(
    database: &mut Database,
    alloc: Global,
    name: &str,
    rows: &[(i128, Option<&str>)],
) -> Result<(), AllocError> {
    let mut list = List::new(alloc);
    for (number, text) in rows {
        list.push(pair(alloc, *number, *text)?)?;
    }
    let table = table(alloc, &[Kind::Int, Kind::Varchar { length: 3 }], list)?;
    database.put(Text::from_str(alloc, name)?, table)
}

/// A list of these stamps.
fn stamps(alloc: Global, from: &[u64]) -> Result<List<u64>, AllocError> {
    Ok(List::from_vec(Vec::from_slice(alloc, from)?))
}

#[test]
fn committed_statements_are_printed(rt: HostRuntime) -> Result<(), Fail> {
    let alloc = rt.alloc();
    let journal = committing(alloc)?;
    let mut database = Database::new(alloc);
    put_table(&mut database, alloc, "t", &[(2, Some("b")), (1, None)])?;
    let report = report_text(alloc, &journal, &database, &stamps(alloc, &[1, 2, 3])?)?;
    let expected =
        b"warehouse nodes 2 slices 2 clusters 1 slots 5 sessions 1\n1 open 1 1 snapshot 0 main\n2 answer 1 1 CREATE TABLE\n3 commit 1 1 stamp 1 low 1 high 0\n4 open 1 2 snapshot 1 main\n5 answer 1 2 INSERT 2\n6 commit 1 2 stamp 2 low 2 high 1\n7 open 1 3 snapshot 2 main\n8 answer 1 3 SELECT 1\n= x|s\n- 1|\\N\n9 commit 1 3 stamp 3 low 3 high 2\n10 end 1\ntables 1\ntable t rows 2\n- 1|\\N\n- 2|b\nserial 1 2 3\n";
    assert_eq!(rt; report.as_slice(), expected.as_slice());
    Ok(())
}

/// A text as a value.
fn written(alloc: Global, text: &str) -> Result<Value, AllocError> {
    Ok(Value::Words(Text::from_str(alloc, text)?))
}

/// Adds a row of these values.
fn push_row(rows: &mut List<Row>, values: Vec<Value>) -> Result<(), AllocError> {
    rows.push(Row {
        values: List::from_vec(values),
    })
}

/// Three rows of columns of every kind: SMALLINT, BIGINT, DECIMAL(38,37), DECIMAL(12,2), DECIMAL(18,0), CHAR, VARCHAR,
/// DATE twice, BOOLEAN.
fn rows_of_every_kind(alloc: Global) -> Result<List<Row>, AllocError> {
    let mut rows = List::new(alloc);
    let values = vec![in alloc;
        Value::Number(-32_768),
        Value::Number(9_223_372_036_854_775_807),
        Value::Number(99_999_999_999_999_999_999_999_999_999_999_999_999),
        Value::Number(-5),
        Value::Number(-7),
        written(alloc, "a b")?,
        written(alloc, "x|y\\z")?,
        Value::Day(-719_162),
        Value::Day(2_932_896),
        Value::Truth(true),
    ]?;
    push_row(&mut rows, values)?;
    let values = vec![in alloc;
        Value::Number(32_767),
        Value::Number(-9_223_372_036_854_775_808),
        Value::Number(-1),
        Value::Number(100_000),
        Value::Number(0),
        written(alloc, "")?,
        written(alloc, "\\N")?,
        Value::Day(0),
        Value::Null,
        Value::Truth(false),
    ]?;
    push_row(&mut rows, values)?;
    let mut values = Vec::new(alloc);
    for _ in 0..10 {
        values.push(Value::Null)?;
    }
    push_row(&mut rows, values)?;
    Ok(rows)
}

#[test]
fn rows_of_tables_are_printed_by_the_kinds_of_their_columns(rt: HostRuntime) -> Result<(), Fail> {
    let alloc = rt.alloc();
    let kinds = [
        Kind::Small,
        Kind::Big,
        Kind::Decimal {
            precision: 38,
            scale: 37,
        },
        Kind::Decimal {
            precision: 12,
            scale: 2,
        },
        Kind::Decimal {
            precision: 18,
            scale: 0,
        },
        Kind::Char { length: 5 },
        Kind::Varchar { length: 9 },
        Kind::Date,
        Kind::Date,
        Kind::Bool,
    ];
    let table = table(alloc, &kinds, rows_of_every_kind(alloc)?)?;
    let mut database = Database::new(alloc);
    database.put(Text::from_str(alloc, "v")?, table)?;
    let journal = refusing(alloc, Vec::new(alloc))?;
    let expected = "warehouse nodes 2 slices 2 clusters 1 slots 5 sessions 1\n\
        1 end 1\n\
        tables 1\n\
        table v rows 3\n\
        - -32768|9223372036854775807|9.9999999999999999999999999999999999999|-0.05|-7|a b|x\\|y\\\\z|0001-01-01|9999-12-31|t\n\
        - 32767|-9223372036854775808|-0.0000000000000000000000000000000000001|1000.00|0||\\\\N|1970-01-01|\\N|f\n\
        - \\N|\\N|\\N|\\N|\\N|\\N|\\N|\\N|\\N|\\N\n\
        serial\n";
    let report = report_text(alloc, &journal, &database, &List::new(alloc))?;
    assert_eq!(rt; report.as_slice(), expected.as_bytes());
    Ok(())
}

/// The journal of an answer whose fields look like other fields or have the marks of a line, and of its commit.
fn misleading(alloc: Global) -> Result<Journal, AllocError> {
    let mut names = List::new(alloc);
    names.push(Text::from_str(alloc, "a|b")?)?;
    let mut rows = List::new(alloc);
    for text in ["", "\\N", "|", "-9"] {
        push_field(&mut rows, shown(alloc, text)?)?;
    }
    let word = Word::Select;
    let answer = Answer::Rows { word, names, rows };
    let mut events = List::new(alloc);
    push_alone(&mut events, 7, answer, u64::MAX)?;
    let shape = Shape::standard(64);
    Ok(Journal { shape, events })
}

#[test]
fn fields_are_kept_apart(rt: HostRuntime) -> Result<(), Fail> {
    let alloc = rt.alloc();
    let journal = misleading(alloc)?;
    let mut database = Database::new(alloc);
    let rows = [
        (0, Some("a|b")),
        (-2_147_483_648, Some("")),
        (0, Some("\n")),
    ];
    put_table(&mut database, alloc, "u", &rows)?;
    put_table(&mut database, alloc, "a\\", &[])?;
    let report = report_text(alloc, &journal, &database, &stamps(alloc, &[7])?)?;
    let expected =
        b"warehouse nodes 2 slices 2 clusters 1 slots 5 sessions 64\n1 open 1 7 snapshot 6 main\n2 answer 1 7 SELECT 4\n= a\\|b\n- \n- \\\\N\n- \\|\n- -9\n3 commit 1 7 stamp 7 low 7 high 18446744073709551615\ntables 2\ntable a\\\\ rows 0\ntable u rows 3\n- -2147483648|\n- 0|\\n\n- 0|a\\|b\nserial 7\n";
    assert_eq!(rt; report.as_slice(), expected.as_slice());
    Ok(())
}

/// Events of a block in session 2: its begin, passes, waits, an opening, two violations, a rollback.
fn push_block(events: &mut List<Event>, alloc: Global) -> Result<(), AllocError> {
    let session = 2;
    events.push(Event::Begin {
        session,
        statement: 1,
    })?;
    for word in [Word::Begin, Word::Commit, Word::Rollback] {
        events.push(Event::Pass {
            session,
            statement: 2,
            word,
        })?;
    }
    for holders in [[1, 3].as_slice(), [64].as_slice()] {
        events.push(Event::Wait {
            session,
            statement: 3,
            holders: List::from_vec(Vec::from_slice(alloc, holders)?),
        })?;
    }
    events.push(Event::Opened {
        session,
        statement: 3,
        snapshot: 4,
        route: Route::Cluster(1),
    })?;
    let rows = Object::Rows(Text::from_str(alloc, "y")?);
    let def = Object::Def(Text::from_str(alloc, "a|b")?);
    for object in vec![in alloc; rows, def]? {
        events.push(Event::Violation {
            session,
            statement: 4,
            low: 4,
            high: 5,
            object,
        })?;
    }
    events.push(Event::Rollback {
        session,
        statement: 5,
    })
}

/// The events of a vacuum of two slices by session 1, of one of the background, and of a refreshed cluster.
fn push_vacuums(events: &mut List<Event>, alloc: Global) -> Result<(), AllocError> {
    for (session, statement, table) in [(1, 3, "t"), (0, 0, "a\\b")] {
        events.push(Event::VacuumBegin {
            session,
            statement,
            table: Text::from_str(alloc, table)?,
        })?;
        for slice in 0..2u32 {
            events.push(Event::VacuumSlice {
                session,
                statement,
                slice,
                horizon: 2,
            })?;
        }
        events.push(Event::VacuumEnd { session, statement })?;
    }
    events.push(Event::Refresh {
        cluster: 1,
        stamp: 2,
    })
}

#[test]
fn events_of_sessions_have_their_lines(rt: HostRuntime) -> Result<(), Fail> {
    let alloc = rt.alloc();
    let mut events = List::new(alloc);
    push_block(&mut events, alloc)?;
    push_vacuums(&mut events, alloc)?;
    let shape = Shape::standard(64);
    let journal = Journal { shape, events };
    let database = Database::new(alloc);
    let expected = "warehouse nodes 2 slices 2 clusters 1 slots 5 sessions 64\n\
        1 begin 2 1\n\
        2 pass 2 2 BEGIN\n\
        3 pass 2 2 COMMIT\n\
        4 pass 2 2 ROLLBACK\n\
        5 wait 2 3 for 1 3\n\
        6 wait 2 3 for 64\n\
        7 open 2 3 snapshot 4 cluster 1\n\
        8 violation 2 4 low 4 high 5 rows(y)\n\
        9 violation 2 4 low 4 high 5 def(a\\|b)\n\
        10 rollback 2 5\n\
        11 vacuum 1 3 begin t\n\
        12 vacuum 1 3 slice 0 horizon 2\n\
        13 vacuum 1 3 slice 1 horizon 2\n\
        14 vacuum 1 3 end\n\
        15 vacuum 0 0 begin a\\\\b\n\
        16 vacuum 0 0 slice 0 horizon 2\n\
        17 vacuum 0 0 slice 1 horizon 2\n\
        18 vacuum 0 0 end\n\
        19 refresh 1 stamp 2\n\
        tables 0\nserial\n";
    let report = report_text(alloc, &journal, &database, &List::new(alloc))?;
    assert_eq!(rt; report.as_slice(), expected.as_bytes());

    let each = vec![in alloc;
        Refusal::Deadlock {
            cycle: List::from_vec(vec![in alloc; 2, 3, 1]?)
        },
        Refusal::Aborted,
        Refusal::InBlock,
        Refusal::Vacuuming { session: 3 },
        Refusal::Limit { count: 16_777_217 },
    ]?;
    let journal = refusing(alloc, each)?;
    let expected = "warehouse nodes 2 slices 2 clusters 1 slots 5 sessions 1\n\
        1 refuse 1 7 10 deadlock 2 3 1\n\
        2 refuse 1 8 11 aborted\n\
        3 refuse 1 9 12 block\n\
        4 refuse 1 10 13 vacuum 3\n\
        5 refuse 1 11 14 limit rows 16777217\n\
        6 end 1\ntables 0\nserial\n";
    let report = report_text(alloc, &journal, &database, &List::new(alloc))?;
    assert_eq!(rt; report.as_slice(), expected.as_bytes());
    Ok(())
}
