//! Tests of cycles, and of the table of locks.
ghost use Rattle.std.specs.Prelude.{◌<◌, length, All, IsTrue};
ghost use Rattle.dw_locks.specs.Walks.{AreSessions};

use crate::cycles::first_cycle;
use crate::locks::{Asked, Locks};
use crate::wanted::wants;
use dw_journal::{Given, Mode, Want};
use dw_model::{Query, Refusal, Statement, TableSpec};
use dw_value::{List, Text};
use std::alloc::{AllocError, Global};
use std::test::Fail;

/// In each row: for whom the sessions from 1 on wait, the session that asks, and the cycle that it closes.
const ROWS: &str = "2;1|1|1 2
2;1|2|2 1
2;3;1|1|1 2 3
2;3;1|3|3 1 2
2,3;1;1|1|1 2
2;1,3;1|1|1 2
2;1,3;1|3|3 1 2
2,3;4;4;1|1|1 2 4
3,2;4;4;1|1|1 3 4
2;3;|1|
2;3;2|1|
;1|1|
1|1|1
|1|";

/// The sessions of a field, which commas part.
fn line_of(alloc: Global, field: &str) -> Result<List<u32>, AllocError> {
    let mut line = List::new(alloc);
    for word in field.split(',') {
        if let Ok(session) = word.parse::<u32>() {
            line.push(session)?;
        }
    }
    Ok(line)
}

/// Whether each of these is below the count.
fn are_below(line: &[u32], count: usize) -> bool
    ensures { IsTrue result → All (λ one. one < count) line.now }
{
    line.iter().all(|one| (*one as usize) < count)
}

/// Whether each line has sessions of the table alone.
fn are_sessions(waits: &[List<u32>]) -> bool
    ensures { IsTrue result → AreSessions waits.now }
{
    waits
        .iter()
        .all(|line| are_below(line.as_slice(), waits.len()))
}

/// The cycle of a row, a space between each two.
fn cycle_of(alloc: Global, row: &str) -> Result<String, AllocError> {
    let mut fields = row.split('|');
    let mut waits = List::new(alloc);
    waits.push(List::new(alloc))?;
    for field in fields.next().unwrap_or("").split(';') {
        waits.push(line_of(alloc, field)?)?;
    }
    let session = fields.next().unwrap_or("").parse::<u32>().unwrap_or(0);
    let mut text = String::new(alloc);
    if (session as usize) < waits.len() && are_sessions(waits.as_slice()) {
        if let Some(cycle) = first_cycle(alloc, waits.as_slice(), session)? {
            for one in cycle.as_slice() {
                let word = format!(in alloc; " {one}")?;
                text.push_str(word.as_str())?;
            }
        }
    }
    Ok(text)
}

/// Whether a row's cycle is the one at its end.
fn holds(alloc: Global, row: &str) -> Result<bool, AllocError> {
    let cycle = cycle_of(alloc, row)?;
    Ok(cycle.as_str().trim_start() == row.split('|').last().unwrap_or(""))
}

#[test]
fn cycles_are_the_shortest_and_least(rt: HostRuntime) -> Result<(), Fail> {
    for row in ROWS.lines() {
        assert!(rt; holds(rt.alloc(), row)?, "{row}");
    }
    Ok(())
}

/// In each row the calls on one table of four sessions, and what each is answered: a session asks for locks (`s` in
/// `AccessShare`, `r` in `ShareRowExclusive`, `x` in `AccessExclusive`), releases its own or withdraws its last grant,
/// and one asks who holds a table.
const CALLS: &str =
    "1 x.a: granted; 2 x.b: granted; 1 x.b: waits 2; 2 x.a: deadlock 2 1; 2 release: done; 1 x.b: granted
1 x.a: granted; 2 x.b: granted; 3 x.c: granted; 1 x.b: waits 2; 2 x.c: waits 3; 3 x.a: deadlock 3 1 2
1 s.a: granted; 2 s.a: granted; 3 s.b: granted; 1 x.b: waits 3; 2 x.b: waits 3; 3 x.a: deadlock 3 1
1 x.a: granted; 2 s.b: granted; 3 s.b x.c: granted; 2 x.c: waits 3; 3 x.a: waits 1; 1 x.b: deadlock 1 3
1 s.a: granted; 2 r.a: granted; 3 s.a: granted; holder a: none; 4 x.a: waits 1 2 3
1 r.a: granted; 2 r.a: waits 1; 2 s.a r.a: waits 1
1 s.a: granted; 1 x.a: granted; 1 r.a x.b: granted; holder a: 1; holder b: 1
3 s.a: granted; 1 s.a: granted; 2 s.a: granted; 4 x.a: waits 1 2 3; 1 release: done; 4 x.a: waits 2 3
0 s.a: granted; 1 x.a: waits 0; 2 s.a: granted; 1 x.a: waits 0 2; 0 release: done; 2 release: done; 1 x.a: granted
1 x.a x.b: granted; 2 x.b: waits 1; 1 release: done; 2 x.a x.b: granted; holder b: 2
1 x.a: granted; 2 x.b: granted; 1 x.b: waits 2; 1 release: done; 2 x.a: granted
1 x.a: granted; 1 x.b: granted; 1 withdraw: done; 2 x.b: granted; 3 x.a: waits 1; holder a: 1; 1 withdraw: kept
1 x.a: granted; 2 x.b: granted; 1 x.b: waits 2; 1 s.c: granted; 1 withdraw: done; 2 x.a: deadlock 2 1
1 x.a: granted; 2 wait x.a: done; 3 x.b: granted; 3 wait x.c: done; 1 x.b: waits 3; 1 release: done; 2 x.a: granted
1 x.a: granted; 2 x.b: granted; 2 wait x.a: done; 1 x.b: deadlock 1 2; 2 withdraw: kept; 2 x.c: granted; 1 x.b: waits 2
1 s.a: granted; 1 s.a s.b: granted; 1 withdraw: done; 2 x.b: granted; 2 x.a: waits 1; 1 release: done; 2 x.a: granted
5 x.a: no session";

/// The lock of a word.
fn want_of(alloc: Global, word: &str) -> Result<Want, AllocError> {
    let (mode, table) = word.split_once('.').unwrap_or(("", ""));
    let mode = if mode == "s" {
        Mode::AccessShare
    } else if mode == "r" {
        Mode::ShareRowExclusive
    } else {
        Mode::AccessExclusive
    };
    Ok(Want {
        table: Text::from_str(alloc, table)?,
        mode,
    })
}

/// The locks of these words.
fn wants_of(alloc: Global, words: &str) -> Result<List<Want>, AllocError> {
    let mut wants = List::new(alloc);
    for word in words.split(' ') {
        wants.push(want_of(alloc, word)?)?;
    }
    Ok(wants)
}

/// The word, and then the sessions, a space before each.
fn listed(alloc: Global, word: &str, sessions: &[u32]) -> Result<String, AllocError> {
    let mut text = String::from_str(alloc, word)?;
    for session in sessions {
        let more = format!(in alloc; " {session}")?;
        text.push_str(more.as_str())?;
    }
    Ok(text)
}

/// What a session that asks for the locks of these words is answered.
fn asked(alloc: Global, locks: &mut Locks, session: u32, words: &str) -> Result<String, AllocError>
    requires { session < length locks.old }
{
    let wants = wants_of(alloc, words)?;
    let foretold = told(alloc, locks.answer(session, &wants)?)?;
    let answer = told(alloc, locks.request(session, &wants)?)?;
    if foretold.as_str() != answer.as_str() {
        return String::from_str(alloc, "otherwise than it was foretold");
    }
    Ok(answer)
}

/// The words of an answer.
fn told(alloc: Global, asked: Asked) -> Result<String, AllocError> {
    match asked {
        Asked::Granted => String::from_str(alloc, "granted"),
        Asked::Waits { holders } => listed(alloc, "waits", holders.as_slice()),
        Asked::Deadlock { cycle } => listed(alloc, "deadlock", cycle.as_slice()),
    }
}

/// Who holds the table.
fn held(alloc: Global, locks: &Locks, table: &str) -> Result<String, AllocError> {
    let table = Text::from_str(alloc, table)?;
    match locks.holder(&table) {
        Some(session) => format!(in alloc; "{session}"),
        None => String::from_str(alloc, "none"),
    }
}

/// What a call is answered.
fn answer_of(alloc: Global, locks: &mut Locks, call: &str) -> Result<String, AllocError> {
    let (first, rest) = call.split_once(' ').unwrap_or(("", ""));
    if first == "holder" {
        return held(alloc, locks, rest);
    }
    let session = first.parse::<u32>().unwrap_or(9);
    if session as usize >= locks.len() || locks.is_empty() {
        return String::from_str(alloc, "no session");
    }
    if rest == "release" {
        locks.release(session);
        return String::from_str(alloc, "done");
    }
    if let Some(words) = rest.strip_prefix("wait ") {
        locks.wait(session, &wants_of(alloc, words)?)?;
        return String::from_str(alloc, "done");
    }
    if rest == "withdraw" {
        if !locks.can_withdraw(session) {
            return String::from_str(alloc, "kept");
        }
        locks.withdraw(session);
        return String::from_str(alloc, "done");
    }
    asked(alloc, locks, session, rest)
}

/// The first call of a row that isn't answered as it says.
fn fault_of(alloc: Global, row: &'static str) -> Result<&'static str, AllocError> {
    let mut locks = Locks::new(alloc, 4)?;
    for call in row.split(';') {
        let (asked, wanted) = call.split_once(':').unwrap_or(("", ""));
        let answer = answer_of(alloc, &mut locks, asked.trim())?;
        if answer.as_str() != wanted.trim() {
            return Ok(call);
        }
    }
    Ok("")
}

#[test]
fn calls_are_answered(rt: HostRuntime) -> Result<(), Fail> {
    for row in CALLS.lines() {
        let fault = fault_of(rt.alloc(), row)?;
        assert_eq!(rt; fault, "", "{row}");
    }
    Ok(())
}

/// The statement of a word, of the table `a`; LOCK is of `b` and `a`.
fn statement(alloc: Global, form: &str) -> Result<Statement, AllocError> {
    let table = Text::from_str(alloc, "a")?;
    match form {
        "vacuum" => Ok(Statement::Vacuum { table }),
        "create" => Ok(Statement::Create {
            spec: TableSpec::new(table, List::new(alloc)),
        }),
        "drop" => Ok(Statement::Drop { table }),
        "lock" => lock(alloc, table),
        "insert" => Ok(Statement::Insert {
            table,
            columns: List::new(alloc),
            rows: List::new(alloc),
        }),
        "select" => Ok(Statement::Select {
            query: Query {
                items: List::new(alloc),
                table,
                keep: None,
            },
        }),
        "commit" => Ok(Statement::Commit),
        "rollback" => Ok(Statement::Rollback),
        _ => Ok(Statement::Begin),
    }
}

fn lock(alloc: Global, table: Text) -> Result<Statement, AllocError> {
    let mut tables = List::new(alloc);
    tables.push(Text::from_str(alloc, "b")?)?;
    tables.push(table)?;
    Ok(Statement::Lock { tables })
}

/// Locks in words: the mode and the table of each.
fn wants_text(alloc: Global, wants: &[Want]) -> Result<String, AllocError> {
    let mut told = String::new(alloc);
    for want in wants {
        told.push_str(match want.mode {
            Mode::AccessShare => " share ",
            Mode::ShareRowExclusive => " write ",
            Mode::AccessExclusive => " whole ",
        })?;
        told.push_str(want.table.as_str())?;
    }
    Ok(told)
}

/// What each form of statement wants.
const WANTS: &str = "vacuum => share a
create => whole a
drop => whole a
lock => whole b whole a
insert => write a
select => share a
begin =>
commit =>
rollback =>";

/// What a statement wants, in words.
fn wanted(alloc: Global, form: &str) -> Result<String, AllocError> {
    let given = Given::Read(statement(alloc, form)?);
    let wants = wants(alloc, Some(&given))?;
    wants_text(alloc, wants.as_slice())
}

/// What each form of statement wants; what the grammar refused wants nothing.
#[test]
fn statements_want_their_locks(rt: HostRuntime) -> Result<(), Fail> {
    let alloc = rt.alloc();
    for line in WANTS.lines() {
        let (form, locks) = line.split_once(" =>").ok_or("a row has two parts")?;
        assert_eq!(rt; wanted(alloc, form)?.as_str(), locks, "{line}");
    }
    let refused = Given::Refused(Refusal::Clash);
    assert_eq!(rt; wants(alloc, Some(&refused))?.len(), 0);
    assert_eq!(rt; wants(alloc, None)?.len(), 0);
    Ok(())
}
