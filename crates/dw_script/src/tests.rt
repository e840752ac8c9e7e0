//! Tests of scripts, schedules and statuses.
use super::{ScriptCause, Status, read_schedule, split};
use dw_value::Text;
use std::alloc::{AllocError, Global};
use std::test::Fail;

/// The statements of a script, each in brackets, or the cause why it cannot be read.
fn told(alloc: Global, bytes: &[u8]) -> Result<Vec<u8>, AllocError> {
    let mut told = Vec::new(alloc);
    match split(alloc, bytes) {
        Ok(script) => {
            for statement in script.statements.as_slice() {
                told.push(b'[')?;
                told.extend_from_slice(statement.as_slice())?;
                told.push(b']')?;
            }
        }
        Err(fault) => {
            let line = format!(in alloc; "{fault}")?;
            told.extend_from_slice(line.as_bytes())?;
        }
    }
    Ok(told)
}

#[test]
fn scripts_are_split(rt: HostRuntime) -> Result<(), Fail> {
    let cases: [(&[u8], &[u8]); 16] = [
        (b"SELECT 1; ;x", b"[SELECT 1][x]"),
        (b"SELECT 'abc", b"open text at 7"),
        (b"'a''b", b"open text at 0"),
        (b"'a' 'b", b"open text at 4"),
        (b"'a'';b", b"open text at 0"),
        (b"'a;b';c", b"['a;b'][c]"),
        (b"'a''';'';b", b"['a'''][''][b]"),
        (b"'a\\';b", b"['a\\'][b]"),
        (b"abc\xff;", b"not utf-8 at 3"),
        (b"'\xff", b"not utf-8 at 1"),
        (b"'\xc3\xa9", b"open text at 0"),
        (b"", b""),
        (b" \t;\r\n; ", b""),
        (b"x;", b"[x]"),
        (b"\tx ;\ny\n", b"[x ][y\n]"),
        (b"x\x0c;\x0b", b"[x\x0c][\x0b]"),
    ];
    for (script, want) in cases {
        let told = told(rt.alloc(), script)?;
        assert_eq!(rt; told.as_slice(), want, "of {script:?}");
    }
    Ok(())
}

#[test]
fn comments_count_for_nothing(rt: HostRuntime) -> Result<(), Fail> {
    let cases: [(&[u8], &[u8]); 28] = [
        (b"/* ; */a;-- ;\nb -- ;\n;c", b"[a][b -- ;\n][c]"),
        (b"\"a;b\";\"c'\";d", b"[\"a;b\"][\"c'\"][d]"),
        (b"x;\"a\"\"", b"open text at 5"),
        (b"-- a\n /* b */ -- c", b""),
        (b"--;\n--", b""),
        (b"a;--\r;\nb", b"[a][b]"),
        (b"/* /* ; */ ; */ a", b"[a]"),
        (b"x/* /* */", b"open comment at 1"),
        (b"x;/*/", b"open comment at 2"),
        (b"/*/*/ */ */a", b"[a]"),
        (b"/*/**/*/a", b"[a]"),
        (b"/***/a;/**/b", b"[a][b]"),
        (b"/* -- */a;b", b"[a][b]"),
        (b"/* ' \" */a;b", b"[a][b]"),
        (b"-- ' \" /*\na;b", b"[a][b]"),
        (b"'/*';a", b"['/*'][a]"),
        (b"'--';a", b"['--'][a]"),
        (b"\"/*--'\";a", b"[\"/*--'\"][a]"),
        (b"/* 'a", b"open comment at 0"),
        (b"'a /* ", b"open text at 0"),
        (b"/* /* */ 'a", b"open comment at 0"),
        (b"''/*", b"open comment at 2"),
        (b"a-b;a/b;-;/;a--b;c", b"[a-b][a/b][-][/][a--b;c]"),
        (b"-/*;*/-;/--;\n/;//*;*/;", b"[-/*;*/-][/--;\n/][//*;*/]"),
        (b"a*/b;*/", b"[a*/b][*/]"),
        (b"/* \xc3\xa9 */\xc3\xa9;-- \xc3\xa9\n;", b"[\xc3\xa9]"),
        (b"/* \xff", b"not utf-8 at 3"),
        (b"a /* b */ ; /* c */", b"[a /* b */ ]"),
    ];
    for (script, want) in cases {
        let told = told(rt.alloc(), script)?;
        assert_eq!(rt; told.as_slice(), want, "of {script:?}");
    }
    Ok(())
}

/// The moves of a schedule for `sessions`, each as `S*K;`, or why it cannot be read.
fn moves_of(alloc: Global, schedule: &[u8], sessions: u32) -> Result<String, AllocError> {
    let mut shown = String::new(alloc);
    match read_schedule(alloc, schedule, sessions) {
        Ok(schedule) => {
            for step in schedule.moves.as_slice() {
                let session = step.session;
                let count = step.count;
                write!(shown, "{session}*{count};")?;
            }
        }
        Err(fault) => write!(shown, "{fault}")?,
    }
    Ok(shown)
}

#[test]
fn schedules_are_read(rt: HostRuntime) -> Result<(), Fail> {
    let cases: [(&[u8], u32, &str); 32] = [
        (b"", 1, ""),
        (b"\n\r\n", 1, ""),
        (b"1 4", 1, "bad schedule at line 1"),
        (b"1 4", 4, "1*1;4*1;"),
        (b"1*10001", 1, "bad schedule at line 1"),
        (b"1*10000", 1, "1*10000;"),
        (b"01", 1, "bad schedule at line 1"),
        (b" 1", 1, "bad schedule at line 1"),
        (b"1\n1  1", 1, "bad schedule at line 2"),
        (b"1 \n", 1, "bad schedule at line 1"),
        (b" ", 1, "bad schedule at line 1"),
        (b"2*3 1\r\n# 5 x\r\n\r\n1", 2, "2*3;1*1;1*1;"),
        (b"#\xff*\n1\n", 1, "1*1;"),
        (b"1 # 1", 1, "bad schedule at line 1"),
        (b"1\r", 1, "bad schedule at line 1"),
        (b"1\n\r", 1, "bad schedule at line 2"),
        (b"1\r\r\n", 1, "bad schedule at line 1"),
        (b"1\t1", 1, "bad schedule at line 1"),
        (b"0", 1, "bad schedule at line 1"),
        (b"1*0", 1, "bad schedule at line 1"),
        (b"1*01", 1, "bad schedule at line 1"),
        (b"1*", 1, "bad schedule at line 1"),
        (b"*2", 1, "bad schedule at line 1"),
        (b"1*2*3", 1, "bad schedule at line 1"),
        (b"+1", 1, "bad schedule at line 1"),
        (b"-1", 1, "bad schedule at line 1"),
        (b"1*+2", 1, "bad schedule at line 1"),
        (b"c1", 1, "bad schedule at line 1"),
        (b"\xff", 1, "bad schedule at line 1"),
        (b"4294967296", 4_294_967_295, "bad schedule at line 1"),
        (b"4294967295", 4_294_967_295, "4294967295*1;"),
        (b"1", 0, "bad schedule at line 1"),
    ];
    for (schedule, sessions, want) in cases {
        let shown = moves_of(rt.alloc(), schedule, sessions)?;
        assert_eq!(rt; shown.as_str(), want, "of {schedule:?}");
    }
    Ok(())
}

#[test]
fn words_of_schedules_are_counted(rt: HostRuntime) -> Result<(), Fail> {
    let mut schedule = Vec::new(rt.alloc());
    for _ in 0..5_000 {
        schedule.extend_from_slice(b"1 2*3\n")?;
    }
    let read = read_schedule(rt.alloc(), schedule.as_slice(), 2)?;
    assert_eq!(rt; read.moves.len(), 10_000);
    schedule.extend_from_slice(b"\n#\n1")?;
    let shown = moves_of(rt.alloc(), schedule.as_slice(), 2)?;
    assert_eq!(rt; shown.as_str(), "bad schedule at line 5003");
    Ok(())
}

/// A script of `count` statements `x;`, and `end` after them.
fn many(alloc: Global, count: usize, end: &[u8]) -> Result<Vec<u8>, AllocError> {
    let mut script = Vec::new(alloc);
    for _ in 0..count {
        script.extend_from_slice(b"x;")?;
    }
    script.extend_from_slice(end)?;
    Ok(script)
}

#[test]
fn statements_are_counted(rt: HostRuntime) -> Result<(), Fail> {
    let script = many(rt.alloc(), 100_000, b" ;")?;
    let split_script = split(rt.alloc(), script.as_slice())?;
    assert_eq!(rt; split_script.statements.len(), 100_000);
    let more: [(&[u8], &[u8]); 2] = [
        (b"x", b"too many statements"),
        (b"x;'", b"open text at 200002"),
    ];
    for (end, want) in more {
        let script = many(rt.alloc(), 100_000, end)?;
        let told = told(rt.alloc(), script.as_slice())?;
        assert_eq!(rt; told.as_slice(), want);
    }
    Ok(())
}

/// Whether a status has this number and this line.
fn says(alloc: Global, status: &Status, number: u8, line: &str) -> Result<bool, AllocError> {
    let printed = format!(in alloc; "{status}")?;
    Ok(status.number() == number && printed.as_str() == line)
}

#[test]
fn statuses_have_numbers_and_lines(rt: HostRuntime) -> Result<(), Fail> {
    let name = Text::from_str(rt.alloc(), "a b.sql")?;
    let missing = Status::Missing { name };
    assert!(rt; says(rt.alloc(), &missing, 5, "missing a b.sql")?);
    let name = Text::from_str(rt.alloc(), "a.sql")?;
    let cause = ScriptCause::OpenText { place: 7 };
    let bad_script = Status::BadScript { name, cause };
    assert!(rt;
        says(
            rt.alloc(),
            &bad_script,
            6,
            "bad script a.sql: open text at 7"
        )?
    );
    let wrong_end = Status::WrongEnd { line: 20 };
    assert!(rt; says(rt.alloc(), &wrong_end, 12, "wrong end at line 20")?);
    assert!(rt; says(rt.alloc(), &Status::Memory, 8, "out of memory")?);
    Ok(())
}
