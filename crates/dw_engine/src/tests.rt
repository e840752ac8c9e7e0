//! Scripts run side by side, with ample memory.
ghost use Rattle.std.specs.Prelude.{◌≡◌, ◌<◌, ◌^◌, ℕ, List as Items, Some, length, slice_get, IsTrue, OnOk, IfOk};
ghost use Rattle.dw_model.specs.declared.statements.Statement.TheVariants as form;
ghost use Rattle.dw_journal.specs.declared.Given.TheVariants.{Read};
ghost use Rattle.dw_journal.specs.Worlds.{AreShort, session_count};
ghost use Rattle.dw_engine.specs.EngineInvariant.{HaveNoVacuum};

use crate::{Engine, Next, Ran};
use dw_journal::{Event, Given, Shape, World};
use dw_model::{
    Answer, ColumnSpec, FileMap, Literal, Object, Query, Refusal, Statement, TableSpec,
};
use dw_value::{Kind, List, Text};
use std::alloc::{AllocError, Global};
use std::test::Fail;

/// Scripts, one on each line; a schedule, which is a list of sessions that take a step each, until the sessions take
/// turns; some events of the run, each after its number; and tables with the number of their rows.
const RUNS: [(&str, &str, &str, &str); 11] = [
    // Each of two sessions reads what the other writes: the second commit is a violation.
    (
        "create a; create b; begin; select a; insert b 1; commit
begin; select b; insert a 1; commit",
        "111111111222112212",
        "14 answer 1 5
17 commit 1 6 3 3 2
18 violation 2 4 3 3 rows b
19 end 1
20 end 2",
        "a 0
b 1",
    ),
    // A reader that commits after a writer of what it read comes before it in serial order.
    (
        "create t; create u; begin; select t; commit
insert t 7",
        "1111111112221",
        "8 open 1 4 2
12 commit 2 1 3 3 1
13 commit 1 5 4 3 1",
        "t 1
u 0",
    ),
    // Inserts that read no row of their table are both committed, whatever their order.
    (
        "create t; create u; begin; select u; insert t 1; commit
begin; select u; insert t 2; commit",
        "111111111222111222",
        "15 commit 1 6 3 3 2
18 commit 2 4 4 4 3",
        "t 2
u 0",
    ),
    // The last transaction of three sessions comes before the first of its own session.
    (
        "create x; create y; create z; insert x 1
begin; select x; insert y 1; commit
insert z 1; begin; select y; commit",
        "1111111112221113333332223",
        "3 commit 1 1 1 1 0
6 commit 1 2 2 2 0
9 commit 1 3 3 3 0
15 commit 1 4 4 4 1
18 commit 3 1 5 5 3
24 commit 2 4 6 4 2
25 commit 3 4 7 4 2",
        "x 1
y 1
z 1",
    ),
    // A refusal aborts its block, which then can only be rolled back.
    (
        "begin; select none; select none; begin; commit",
        "",
        "1 begin 1 1
2 refuse 1 2 2
3 refuse 1 3 11
4 refuse 1 4 11
5 rollback 1 5
6 end 1",
        "",
    ),
    // Words that have nothing to do pass, and so does the COMMIT of a block in which nothing was opened.
    (
        "commit; rollback; begin; begin; commit; commit",
        "",
        "1 pass 1 1
2 pass 1 2
3 begin 1 3
4 pass 1 4
5 pass 1 5
6 pass 1 6
7 end 1",
        "",
    ),
    // A block sees its own inserts, and leaves no trace once it is rolled back.
    (
        "create t; begin; insert t 1; select t; rollback; select t",
        "",
        "6 answer 1 3
8 rows 1 4 1
9 rollback 1 5
11 rows 1 6 0",
        "t 0",
    ),
    // A session sees its snapshot, whatever is committed afterwards, and its own inserts beside it.
    (
        "create t; begin; select t; insert t 1; select t; rollback; select t
insert t 2",
        "1111112221111",
        "6 rows 1 3 0
9 commit 2 1 2 2 1
13 rows 1 5 1
17 rows 1 7 1",
        "t 1",
    ),
    // Who writes a table's rows waits for another who does, and sees what that one committed. A wait that would be
    // repeated is no event.
    (
        "create t; begin; insert t 1; commit
insert t 2",
        "111111221222",
        "7 wait 2 1 for 1
8 commit 1 4 2 2 1
9 open 2 1 2
11 commit 2 1 3 3 2
13 end 2",
        "t 2",
    ),
    // Two sessions lock two tables crosswise: the one whose wait would close the cycle is refused, and its locks go.
    (
        "create a; create b; begin; lock a; lock b; commit
begin; lock b; lock a; commit",
        "111111111222121112",
        "13 wait 1 5 for 2
14 refuse 2 3 10
15 open 1 5 2
17 commit 1 6 3 3 2
18 rollback 2 4
20 end 2",
        "a 0
b 0",
    ),
    // A statement that isn't in the grammar is refused, and the script goes on.
    (
        "?; create t; insert t 1",
        "",
        "1 refuse 1 1 1
4 commit 1 2 1 1 0
7 commit 1 3 2 2 1
8 end 1",
        "t 1",
    ),
];

fn columns(alloc: Global) -> Result<List<ColumnSpec>, AllocError> {
    let mut columns = List::new(alloc);
    columns.push(ColumnSpec::new(Text::from_str(alloc, "x")?, Kind::Int))?;
    Ok(columns)
}

fn rows(alloc: Global, literal: &str) -> Result<List<List<Literal>>, AllocError> {
    let mut values = List::new(alloc);
    values.push(Literal::Number {
        coefficient: literal.parse::<i128>().unwrap_or(0),
        scale: 0,
    })?;
    let mut rows = List::new(alloc);
    rows.push(values)?;
    Ok(rows)
}

fn items(alloc: Global) -> Result<List<Text>, AllocError> {
    let mut items = List::new(alloc);
    items.push(Text::from_str(alloc, "x")?)?;
    Ok(items)
}

fn only(alloc: Global, table: Text) -> Result<List<Text>, AllocError> {
    let mut tables = List::new(alloc);
    tables.push(table)?;
    Ok(tables)
}

fn given(alloc: Global, text: &str) -> Result<Given, AllocError> {
    let mut words = text.split_whitespace();
    let form = words.next().unwrap_or("");
    let table = Text::from_str(alloc, words.next().unwrap_or(""))?;
    let literal = words.next().unwrap_or("");
    Ok(match form {
        "begin" => Given::Read(Statement::Begin),
        "commit" => Given::Read(Statement::Commit),
        "rollback" => Given::Read(Statement::Rollback),
        "create" => {
            let spec = TableSpec::new(table, columns(alloc)?);
            Given::Read(Statement::Create { spec })
        }
        "insert" => Given::Read(Statement::Insert {
            table,
            columns: List::new(alloc),
            rows: rows(alloc, literal)?,
        }),
        "lock" => Given::Read(Statement::Lock {
            tables: only(alloc, table)?,
        }),
        "select" => {
            let query = Query {
                items: items(alloc)?,
                table,
                keep: None,
            };
            Given::Read(Statement::Select { query })
        }
        _ => Given::Refused(Refusal::Syntax { place: 0 }),
    })
}

fn scripts(alloc: Global, text: &str) -> Result<List<List<Given>>, AllocError> {
    let mut scripts = List::new(alloc);
    for line in text.lines() {
        let mut script = List::new(alloc);
        for statement in line.split(';') {
            script.push(given(alloc, statement)?)?;
        }
        scripts.push(script)?;
    }
    Ok(scripts)
}

/// Whether a script is short and sweeps no table.
fn is_fit(script: &[Given]) -> bool
    ensures short { IsTrue result → length script.now < 2 ^ 32 }
    ensures no_vacuum { IsTrue result → (place : ℕ) (table : Items ℕ) →
        slice_get script.now place ≡ Some (Read (form.Vacuum table)) → ⊥ }
{
    for given in script {
        if matches!(given, Given::Read(Statement::Vacuum { .. })) {
            return false;
        }
    }
    script.len() < 1_000
}

/// Whether all scripts are.
fn are_fit(world: &World) -> bool
    ensures short { IsTrue result → AreShort world.now.scripts }
    ensures no_vacuum { IsTrue result → HaveNoVacuum world.now }
{
    for script in world.scripts.as_slice() {
        if !is_fit(script.as_slice()) {
            return false;
        }
    }
    true
}

/// One step of a session, if there is such a session, and what is due of it then.
fn step_of(engine: &mut Engine, sessions: u32, session: u32) -> Result<Next, AllocError>
    requires { sessions ≡ session_count engine.old.world }
    ensures { OnOk result (sessions ≡ session_count engine.new.world) }
{
    if session == 0 || session > sessions {
        return Err(AllocError);
    }
    engine.step(session)?;
    Ok(engine.next(session))
}

/// The steps of a schedule.
fn take_moves(engine: &mut Engine, sessions: u32, moves: &str) -> Result<(), AllocError>
    requires { sessions ≡ session_count engine.old.world }
    ensures { OnOk result (sessions ≡ session_count engine.new.world) }
{
    for digit in moves.as_bytes() {
        step_of(engine, sessions, u32::from(digit.saturating_sub(b'0')))?;
    }
    Ok(())
}

/// A step of each session, and whether all scripts are at their end then.
fn take_round(engine: &mut Engine, sessions: u32) -> Result<bool, AllocError>
    requires { sessions ≡ session_count engine.old.world }
    ensures { OnOk result (sessions ≡ session_count engine.new.world) }
{
    let mut all_ended = true;
    for before in 0..sessions {
        if step_of(engine, sessions, before + 1)? != Next::Nothing {
            all_ended = false;
        }
    }
    Ok(all_ended)
}

/// An engine of these scripts, with their number.
fn start(alloc: Global, text: &str) -> Result<(Engine, u32), AllocError>
    ensures { IfOk result (λ made. made.1 ≡ session_count made.0.world) }
{
    let world = World {
        scripts: scripts(alloc, text)?,
        files: FileMap::new(alloc),
    };
    let sessions = world.scripts.len();
    if sessions > 64 || !are_fit(&world) {
        return Err(AllocError);
    }
    let sessions = sessions as u32;
    let engine = Engine::new(alloc, Shape::standard(sessions), world)?;
    Ok((engine, sessions))
}

/// Runs scripts by a schedule, and then in turns to their end.
fn run(alloc: Global, text: &str, moves: &str) -> Result<Ran, AllocError> {
    let (mut engine, sessions) = start(alloc, text)?;
    take_moves(&mut engine, sessions, moves)?;
    for _ in 0..99 {
        if take_round(&mut engine, sessions)? {
            return Ok(engine.into_parts());
        }
    }
    Err(AllocError)
}

/// How many entries the certifier keeps after each word of a schedule.
fn kept_after(alloc: Global, text: &str, words: &str) -> Result<String, AllocError> {
    let (mut engine, sessions) = start(alloc, text)?;
    let mut kept = String::new(alloc);
    for moves in words.split(' ') {
        take_moves(&mut engine, sessions, moves)?;
        kept.push_str(format!(in alloc; " {}", engine.core.kept())?.as_str())?;
    }
    Ok(kept)
}

/// The words, and then the sessions, a space before each.
fn listed(alloc: Global, words: &str, sessions: &[u32]) -> Result<String, AllocError> {
    let mut text = String::from_str(alloc, words)?;
    for session in sessions {
        text.push_str(format!(in alloc; " {session}")?.as_str())?;
    }
    Ok(text)
}

fn told(alloc: Global, event: &Event) -> Result<String, AllocError> {
    match event {
        Event::Begin { session, statement } => format!(in alloc; "begin {session} {statement}"),
        Event::Pass {
            session,
            statement,
            ..
        } => format!(in alloc; "pass {session} {statement}"),
        Event::Wait {
            session,
            statement,
            holders,
        } => listed(
            alloc,
            format!(in alloc; "wait {session} {statement} for")?.as_str(),
            holders.as_slice(),
        ),
        Event::Opened {
            session,
            statement,
            snapshot,
            ..
        } => format!(in alloc; "open {session} {statement} {snapshot}"),
        Event::Answer {
            session,
            statement,
            answer: Answer::Rows { rows, .. },
        } => format!(in alloc; "rows {session} {statement} {}", rows.len()),
        Event::Answer {
            session,
            statement,
            ..
        } => format!(in alloc; "answer {session} {statement}"),
        Event::Commit {
            session,
            statement,
            stamp,
            low,
            high,
        } => format!(in alloc; "commit {session} {statement} {stamp} {low} {high}"),
        Event::Violation {
            session,
            statement,
            low,
            high,
            object: Object::Rows(name),
        } => format!(in alloc;
            "violation {session} {statement} {low} {high} rows {}",
            name.as_str()
        ),
        Event::Refuse {
            session,
            statement,
            refusal,
        } => format!(in alloc; "refuse {session} {statement} {}", refusal.number()),
        Event::Rollback { session, statement } => format!(in alloc;
            "rollback {session} {statement}"
        ),
        Event::End { session } => format!(in alloc; "end {session}"),
        _ => String::from_str(alloc, "other"),
    }
}

/// Whether a run has the events and the tables.
#[test]
fn scripts_run_as_worked_out(rt: HostRuntime) -> Result<(), Fail> {
    let alloc = rt.alloc();
    for (text, moves, events, tables) in RUNS {
        let ran = run(alloc, text, moves)?;
        for line in events.lines() {
            let (number, wanted) = line.split_once(" ").ok_or("an event has a number")?;
            let place = number.parse::<usize>().unwrap_or(1).saturating_sub(1);
            let event = ran.journal.events.get(place).ok_or("the event is there")?;
            assert_eq!(rt; told(alloc, event)?.as_str(), wanted, "{text}");
        }
        assert_eq!(rt; ran.database.len(), tables.lines().count());
        for line in tables.lines() {
            let (name, count) = line.split_once(" ").ok_or("a table has a number of rows")?;
            let table = ran
                .database
                .get(&Text::from_str(alloc, name)?)
                .ok_or("the table is there")?;
            assert_eq!(rt; table.rows.len(), count.parse::<usize>().unwrap_or(9));
        }
    }
    Ok(())
}

/// A table is created, and rows are put into it three times: alone, and while another session's snapshot from just
/// after the first commit stays open.
#[test]
fn kept_entries(rt: HostRuntime) -> Result<(), Fail> {
    let alloc = rt.alloc();
    let alone = "create t; insert t 1; insert t 2; insert t 3";
    let beside = "create t; insert t 1; insert t 2; insert t 3
begin; select t; commit";
    for (text, words, wanted) in [
        (alone, "111 111 111 111", " 2 2 2 2"),
        (beside, "111 22 111 111 111 222", " 2 2 3 4 5 2"),
    ] {
        assert_eq!(rt; kept_after(alloc, text, words)?.as_str(), wanted);
    }
    Ok(())
}
