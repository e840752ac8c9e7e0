//! Journals judged beside their worlds, with ample memory.
use crate::{Verdict, judge};
use dw_journal::{Event, Given, Journal, Route, Shape, World};
use dw_model::{
    Answer, ColumnSpec, FileMap, Literal, Object, Query, Refusal, Statement, TableSpec, Word,
};
use dw_value::{Kind, List, Text};
use std::alloc::{AllocError, Global};
use std::test::Fail;

/// The write skew of two blocks, up to its decisions.
const SKEW: &str =
    "open 1 1 0, created 1 1, commit 1 1 1 1 0, open 1 2 1, created 1 2, commit 1 2 2 2 0, begin 1 3
open 1 4 2, none 1 4, begin 2 1, open 2 2 2, none 2 2, open 1 5 2, inserted 1 5, open 2 3 2, inserted 2 3";

const SKEWED: &str = "create a; create b; begin; select a; insert b; commit
begin; select b; insert a; commit";

const VACUUM: &str =
    "open 1 1 0, created 1 1, commit 1 1 1 1 0, vacuum 1 2 t, slice 1 2 0 1, slice 1 2 1 1, slice 1 2 2 1";

/// A block that inserts into a table, and another INSERT into it.
const INSERTS: &str = "create t; begin; insert t; commit
insert t";

/// The events of that block up to its end, which holds a lock in the other's way.
const HOLDS: &str =
    "open 1 1 0, created 1 1, commit 1 1 1 1 0, begin 1 2, open 1 3 1, inserted 1 3";

/// Two blocks that read a table, and one who drops it.
const READERS: &str = "create t; begin; select t; commit
begin; select t; commit
drop t";

const READ: &str =
    "open 1 1 0, created 1 1, commit 1 1 1 1 0, begin 1 2, open 1 3 1, none 1 3, begin 2 1, open 2 2 1, none 2 2";

/// Two blocks that lock two tables, each in its own order.
const LOCKERS: &str = "create t; create u; begin; lock t; lock u; commit
begin; lock u; lock t; commit";

const CROSSED: &str =
    "open 1 1 0, created 1 1, commit 1 1 1 1 0, open 1 2 1, created 1 2, commit 1 2 2 2 0, begin 1 3, begin 2 1
open 1 4 2, locked 1 4, open 2 2 2, locked 2 2, wait 1 5 2";

const LOCKED: &str = "open 1 1 0, created 1 1, commit 1 1 1 1 0, begin 1 2, open 1 3 1, locked 1 3";

/// Scripts, one on each line; the number of sessions in the shape; the first events and those after them; and the
/// verdict.
const JUDGED: [(&str, u32, &str, &str, &str); 38] = [
    ("-", 1, "end 1", "", "passes"),
    ("-", 1, "", "", "not follows 0"),
    ("-", 2, "end 1", "", "not follows 0"),
    ("-", 1, "end 1", "end 1", "not follows 2"),
    ("create t", 1, "open 2 1 0", "", "not follows 1"),
    ("create t", 1, "open 1 1 1", "", "not legal 1"),
    (
        SKEWED,
        2,
        SKEW,
        "commit 1 6 3 3 2, violation 2 4 3 3 b, end 1, end 2",
        "passes",
    ),
    (
        SKEWED,
        2,
        SKEW,
        "commit 1 6 3 3 2, violation 2 4 3 3 b, end 1",
        "not follows 19",
    ),
    (
        SKEWED,
        2,
        SKEW,
        "commit 1 6 3 3 2, commit 2 4 4 3 3, end 1, end 2",
        "not legal 18",
    ),
    (
        SKEWED,
        2,
        SKEW,
        "commit 1 6 3 3 1, violation 2 4 3 3 b, end 1, end 2",
        "not legal 17",
    ),
    (
        SKEWED,
        2,
        SKEW,
        "commit 1 6 3 3 2, violation 2 4 3 3 a, end 1, end 2",
        "not legal 18",
    ),
    (SKEWED, 2, SKEW, "commit 1 6 3 3 2, end 2", "not follows 18"),
    (
        "create t; vacuum t",
        1,
        VACUUM,
        "slice 1 2 3 1, swept 1 2, end 1",
        "passes",
    ),
    (
        "create t; vacuum t",
        1,
        VACUUM,
        "slice 1 2 3 0, swept 1 2, end 1",
        "not legal 8",
    ),
    (
        "create t; vacuum t",
        1,
        VACUUM,
        "swept 1 2, end 1",
        "not follows 8",
    ),
    (
        "create t",
        1,
        "refresh 1 0, open 1 1 0, created 1 1",
        "refused 1 1, end 1",
        "not legal 4",
    ),
    ("vacuum t", 1, "refresh 2 0", "", "not legal 1"),
    (
        INSERTS,
        2,
        HOLDS,
        "wait 2 1 1, commit 1 4 2 2 1, open 2 1 2, inserted 2 1, commit 2 1 3 3 2, end 1, end 2",
        "passes",
    ),
    (INSERTS, 2, HOLDS, "wait 2 1 1, wait 2 1 1", "not legal 8"),
    (INSERTS, 2, HOLDS, "wait 2 1 2", "not legal 7"),
    (INSERTS, 2, HOLDS, "wait 2 1", "not legal 7"),
    (INSERTS, 2, HOLDS, "open 2 1 1", "not legal 7"),
    (
        INSERTS,
        2,
        HOLDS,
        "commit 1 4 2 2 1, wait 2 1 1",
        "not legal 8",
    ),
    (
        "create t; begin; insert t; rollback
insert t",
        2,
        HOLDS,
        "wait 2 1 1, rollback 1 4, open 2 1 1, inserted 2 1, commit 2 1 2 2 1, end 1, end 2",
        "passes",
    ),
    (
        "create t; begin; insert t; select u
insert t",
        2,
        HOLDS,
        "wait 2 1 1, unknown 1 4 u, open 2 1 1, inserted 2 1, commit 2 1 2 2 1, end 1, end 2",
        "passes",
    ),
    (
        "create t; begin; insert t
insert t",
        2,
        HOLDS,
        "wait 2 1 1, end 1, open 2 1 1, inserted 2 1, commit 2 1 2 2 1, end 2",
        "passes",
    ),
    (
        "create a; create b; begin; select a; insert b; commit
begin; select b; insert a; commit
insert a",
        3,
        SKEW,
        "wait 3 1 2, commit 1 6 3 3 2, violation 2 4 3 3 b, open 3 1 3, inserted 3 1, commit 3 1 4 4 3, end 1, end 2, end 3",
        "passes",
    ),
    (
        "create t; begin; select t; commit
insert t",
        2,
        "open 1 1 0, created 1 1, commit 1 1 1 1 0, begin 1 2, open 1 3 1, none 1 3",
        "open 2 1 1, inserted 2 1, commit 2 1 2 2 1, commit 1 4 3 2 1, end 1, end 2",
        "passes",
    ),
    (
        READERS,
        3,
        READ,
        "wait 3 1 1 2, commit 1 4 2 2 1, wait 3 1 2, commit 2 3 3 3 1, open 3 1 3, dropped 3 1, commit 3 1 4 4 3
end 1, end 2, end 3",
        "passes",
    ),
    (READERS, 3, READ, "wait 3 1 2 1", "not legal 10"),
    (READERS, 3, READ, "wait 3 1 1", "not legal 10"),
    (
        LOCKERS,
        2,
        CROSSED,
        "deadlock 2 3 2 1, open 1 5 2, locked 1 5, commit 1 6 3 3 2, rollback 2 4, end 1, end 2",
        "passes",
    ),
    (LOCKERS, 2, CROSSED, "deadlock 2 3 1 2", "not legal 14"),
    (LOCKERS, 2, CROSSED, "wait 2 3 1", "not legal 14"),
    (
        "create t; begin; lock t; commit
vacuum t",
        2,
        LOCKED,
        "vacuum 2 1 t",
        "not legal 7",
    ),
    (
        "create t; begin; lock t; commit
vacuum t",
        2,
        LOCKED,
        "wait 2 1 1, commit 1 4 2 2 1, vacuum 2 1 t, slice 2 1 0 1",
        "not legal 10",
    ),
    (
        "create t; vacuum t
drop t",
        2,
        VACUUM,
        "open 2 1 1",
        "not legal 8",
    ),
    (
        "create t; vacuum t
drop t",
        2,
        VACUUM,
        "wait 2 1 1, slice 1 2 3 1, swept 1 2, open 2 1 1, dropped 2 1, commit 2 1 2 2 1, end 1, end 2",
        "passes",
    ),
];

fn statement(alloc: Global, text: &str) -> Result<Statement, AllocError> {
    let mut words = text.split_whitespace();
    let form = words.next().unwrap_or("");
    let table = Text::from_str(alloc, words.next().unwrap_or(""))?;
    let name = Text::from_str(alloc, "x")?;
    Ok(match form {
        "begin" => Statement::Begin,
        "commit" => Statement::Commit,
        "rollback" => Statement::Rollback,
        "drop" => Statement::Drop { table },
        "lock" => {
            let mut tables = List::new(alloc);
            tables.push(table)?;
            Statement::Lock { tables }
        }
        "vacuum" => Statement::Vacuum { table },
        "create" => {
            let mut columns = List::new(alloc);
            columns.push(ColumnSpec::new(name, Kind::Int))?;
            Statement::Create {
                spec: TableSpec::new(table, columns),
            }
        }
        "insert" => {
            let mut values = List::new(alloc);
            values.push(Literal::Number {
                coefficient: 1,
                scale: 0,
            })?;
            let mut rows = List::new(alloc);
            rows.push(values)?;
            Statement::Insert {
                table,
                columns: List::new(alloc),
                rows,
            }
        }
        _ => {
            let mut items = List::new(alloc);
            items.push(name)?;
            Statement::Select {
                query: Query {
                    items,
                    table,
                    keep: None,
                },
            }
        }
    })
}

fn scripts(alloc: Global, text: &str) -> Result<List<List<Given>>, AllocError> {
    let mut scripts = List::new(alloc);
    for line in text.lines() {
        let mut script = List::new(alloc);
        for part in line.split(';') {
            if part != "-" {
                script.push(Given::Read(statement(alloc, part)?))?;
            }
        }
        scripts.push(script)?;
    }
    Ok(scripts)
}

fn number(word: Option<&str>) -> u64 {
    word.unwrap_or("").parse::<u64>().unwrap_or(0)
}

fn small(word: Option<&str>) -> u32 {
    word.unwrap_or("").parse::<u32>().unwrap_or(0)
}

fn reply(alloc: Global, form: &str) -> Result<Answer, AllocError> {
    Ok(match form {
        "created" => Answer::Plain {
            word: Word::CreateTable,
        },
        "dropped" => Answer::Plain {
            word: Word::DropTable,
        },
        "locked" => Answer::Plain {
            word: Word::LockTable,
        },
        "inserted" => Answer::Count {
            word: Word::Insert,
            count: 1,
        },
        _ => {
            let mut names = List::new(alloc);
            names.push(Text::from_str(alloc, "x")?)?;
            Answer::Rows {
                word: Word::Select,
                names,
                rows: List::new(alloc),
            }
        }
    })
}

/// The sessions after a text's first three words.
fn sessions(alloc: Global, text: &str) -> Result<List<u32>, AllocError> {
    let mut sessions = List::new(alloc);
    for word in text.split_whitespace().skip(3) {
        sessions.push(small(Some(word)))?;
    }
    Ok(sessions)
}

fn event(alloc: Global, text: &str) -> Result<Event, AllocError> {
    let mut words = text.split_whitespace();
    let form = words.next().unwrap_or("");
    let session = small(words.next());
    let word = words.next();
    let statement = small(word);
    Ok(match form {
        "begin" => Event::Begin { session, statement },
        "open" => Event::Opened {
            session,
            statement,
            snapshot: number(words.next()),
            route: Route::Main,
        },
        "wait" => Event::Wait {
            session,
            statement,
            holders: sessions(alloc, text)?,
        },
        "rollback" => Event::Rollback { session, statement },
        "deadlock" => Event::Refuse {
            session,
            statement,
            refusal: Refusal::Deadlock {
                cycle: sessions(alloc, text)?,
            },
        },
        "unknown" => Event::Refuse {
            session,
            statement,
            refusal: Refusal::Unknown {
                name: Text::from_str(alloc, words.next().unwrap_or(""))?,
            },
        },
        "created" | "inserted" | "none" | "dropped" | "locked" => Event::Answer {
            session,
            statement,
            answer: reply(alloc, form)?,
        },
        "commit" => Event::Commit {
            session,
            statement,
            stamp: number(words.next()),
            low: number(words.next()),
            high: number(words.next()),
        },
        "violation" => Event::Violation {
            session,
            statement,
            low: number(words.next()),
            high: number(words.next()),
            object: Object::Rows(Text::from_str(alloc, words.next().unwrap_or(""))?),
        },
        "refused" => Event::Refuse {
            session,
            statement,
            refusal: Refusal::Clash,
        },
        "vacuum" => Event::VacuumBegin {
            session,
            statement,
            table: Text::from_str(alloc, words.next().unwrap_or(""))?,
        },
        "slice" => Event::VacuumSlice {
            session,
            statement,
            slice: small(words.next()),
            horizon: number(words.next()),
        },
        "swept" => Event::VacuumEnd { session, statement },
        "refresh" => Event::Refresh {
            cluster: session,
            stamp: number(word),
        },
        _ => Event::End { session },
    })
}

fn add_events(alloc: Global, events: &mut List<Event>, text: &str) -> Result<(), AllocError> {
    for line in text.lines() {
        for part in line.split(',') {
            if !part.is_empty() {
                events.push(event(alloc, part)?)?;
            }
        }
    }
    Ok(())
}

fn told(alloc: Global, verdict: &Verdict) -> Result<String, AllocError> {
    match verdict {
        Verdict::Passes { .. } => String::from_str(alloc, "passes"),
        Verdict::NotLegal { event } => format!(in alloc; "not legal {event}"),
        Verdict::NotFollows { event } => format!(in alloc; "not follows {event}"),
    }
}

#[test]
fn journals_are_judged(rt: HostRuntime) -> Result<(), Fail> {
    let alloc = rt.alloc();
    for (script, sessions, first, second, verdict) in JUDGED {
        let world = World {
            scripts: scripts(alloc, script)?,
            files: FileMap::new(alloc),
        };
        let mut events = List::new(alloc);
        add_events(alloc, &mut events, first)?;
        add_events(alloc, &mut events, second)?;
        let journal = Journal {
            shape: Shape::standard(sessions),
            events,
        };
        if world.scripts.len() <= 64 {
            let found = judge(alloc, &world, &journal)?;
            assert_eq!(rt; told(alloc, &found)?.as_str(), verdict, "{second}");
        }
    }
    Ok(())
}
