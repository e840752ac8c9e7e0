//! Tests of whole calls that are refused.
use crate::top::top;
use dw_io::{MemoryFiles, MemorySink};
use dw_value::{List, Text};
use std::alloc::{AllocError, Global};
use std::test::Fail;

/// Named files.
pub(crate) type Named = List<(Text, List<u8>)>;

/// In each row: the words, what the files `schedule` and `-`, `a.sql` and `gen:7`, and `b.sql` hold, and the status. In a
/// file `~` stands for an LF and `^` for a CR, and `absent` says that it isn't there.
const ROWS: &str = "||||2 usage
schedule||||2 usage
--x a.sql||||2 usage
schedule --x||||2 usage
schedule a.sql --x||||2 usage
gen:7 a.sql||||2 usage
schedule a.sql|absent|absent||5 missing schedule
schedule a.sql|absent|'||5 missing schedule
schedule a.sql b.sql|x|absent|absent|5 missing a.sql
schedule a.sql b.sql|x|'|absent|5 missing b.sql
schedule a.sql||SELECT 'abc||6 bad script a.sql: open text at 7
schedule a.sql b.sql|x|'|/*/|6 bad script a.sql: open text at 0
schedule a.sql b.sql|x|/* /* */ ' */ --'|/*/|6 bad script b.sql: open comment at 0
- gen:7|x|||7 bad schedule at line 1
schedule a.sql|1 4|||7 bad schedule at line 1
schedule a.sql|1*10001|||7 bad schedule at line 1
schedule a.sql|1*10000~1*10001|||7 bad schedule at line 2
schedule a.sql|01|||7 bad schedule at line 1
schedule a.sql| 1|||7 bad schedule at line 1
schedule a.sql b.sql|1 2~1  2|||7 bad schedule at line 2
schedule a.sql a.sql|2 1~3|||7 bad schedule at line 2
schedule a.sql|# 2^~^~~1^~1^|||7 bad schedule at line 5";

/// The words of a line, which spaces part.
pub(crate) fn words_of(alloc: Global, line: &str) -> Result<Vec<Text>, AllocError> {
    let mut words = Vec::new(alloc);
    for word in line.split_whitespace() {
        words.push(Text::from_str(alloc, word)?)?;
    }
    Ok(words)
}

/// Puts a file among the others, unless its bytes say `absent`.
pub(crate) fn put_file(
    alloc: Global,
    files: &mut Named,
    name: &str,
    bytes: &[u8],
) -> Result<(), AllocError> {
    if bytes == b"absent".as_slice() {
        return Ok(());
    }
    let name = Text::from_str(alloc, name)?;
    let bytes = List::from_vec(Vec::from_slice(alloc, bytes)?);
    files.push((name, bytes))
}

/// The number and the line of the status of a call over these files, and what was written.
pub(crate) fn call(
    alloc: Global,
    words: &str,
    files: Named,
) -> Result<(String, List<u8>), AllocError> {
    let words = words_of(alloc, words)?;
    let mut files = MemoryFiles::new(files, List::new(alloc));
    let mut out = MemorySink::new(alloc, List::new(alloc));
    let status = top(alloc, words.as_slice(), &mut files, &mut out);
    let number = status.number();
    let line = format!(in alloc; "{number} {status}")?;
    let written = Vec::from_slice(alloc, out.as_slice())?;
    Ok((line, List::from_vec(written)))
}

/// The files of the names with these bytes.
fn files_of(alloc: Global, schedule: &[u8], a: &[u8], b: &[u8]) -> Result<Named, AllocError> {
    let mut files = List::new(alloc);
    put_file(alloc, &mut files, "schedule", schedule)?;
    put_file(alloc, &mut files, "-", schedule)?;
    put_file(alloc, &mut files, "a.sql", a)?;
    put_file(alloc, &mut files, "gen:7", a)?;
    put_file(alloc, &mut files, "b.sql", b)?;
    Ok(files)
}

/// Whether the call over these files ends so, and writes nothing.
fn ends_with(alloc: Global, words: &str, files: Named, status: &str) -> Result<bool, AllocError> {
    let (line, written) = call(alloc, words, files)?;
    Ok(line.as_str() == status && written.is_empty())
}

/// Whether the call ends as the row says.
fn holds(alloc: Global, row: &str) -> Result<bool, AllocError> {
    let mut fields = row.split('|');
    let words = fields.next().unwrap_or("");
    let schedule = fields.next().unwrap_or("").replace(alloc, "~", "\n")?;
    let schedule = schedule.replace(alloc, "^", "\r")?;
    let a = fields.next().unwrap_or("");
    let b = fields.next().unwrap_or("");
    let status = fields.next().unwrap_or("");
    let files = files_of(
        alloc,
        schedule.as_str().as_bytes(),
        a.as_bytes(),
        b.as_bytes(),
    )?;
    ends_with(alloc, words, files, status)
}

#[test]
fn a_call_ends_as_its_row_says(rt: HostRuntime) -> Result<(), Fail> {
    for row in ROWS.lines() {
        assert!(rt; holds(rt.alloc(), row)?, "{row}");
    }
    Ok(())
}

#[test]
fn scripts_are_1_to_64(rt: HostRuntime) -> Result<(), Fail> {
    let mut words = String::from_str(rt.alloc(), "schedule")?;
    for _ in 0..64 {
        words.push_str(" a.sql")?;
    }
    let files = files_of(rt.alloc(), b"64\n65", b"", b"")?;
    assert!(rt;
        ends_with(
            rt.alloc(),
            words.as_str(),
            files,
            "7 bad schedule at line 2"
        )?
    );
    words.push_str(" a.sql")?;
    let files = files_of(rt.alloc(), b"64\n65", b"", b"")?;
    assert!(rt; ends_with(rt.alloc(), words.as_str(), files, "2 usage")?);
    Ok(())
}

#[test]
fn schedules_have_so_many_moves(rt: HostRuntime) -> Result<(), Fail> {
    let mut schedule = Vec::from_slice(rt.alloc(), b"1")?;
    for _ in 1..10_000 {
        schedule.extend_from_slice(b" 1")?;
    }
    schedule.extend_from_slice(b"\n\n1")?;
    let files = files_of(rt.alloc(), schedule.as_slice(), b"", b"")?;
    assert!(rt;
        ends_with(
            rt.alloc(),
            "schedule a.sql",
            files,
            "7 bad schedule at line 3"
        )?
    );
    Ok(())
}

#[test]
fn scripts_have_so_many_statements(rt: HostRuntime) -> Result<(), Fail> {
    let mut script = Vec::new(rt.alloc());
    for _ in 0..100_000 {
        script.extend_from_slice(b"x;")?;
    }
    let files = files_of(rt.alloc(), b"x", script.as_slice(), b"")?;
    assert!(rt; ends_with(rt.alloc(), "- a.sql", files, "7 bad schedule at line 1")?);
    script.extend_from_slice(b"x;")?;
    let files = files_of(rt.alloc(), b"x", script.as_slice(), b"")?;
    let status = "6 bad script a.sql: too many statements";
    assert!(rt; ends_with(rt.alloc(), "- a.sql", files, status)?);
    let files = files_of(rt.alloc(), b"x", b"a'b\xff", b"")?;
    assert!(rt;
        ends_with(
            rt.alloc(),
            "- a.sql",
            files,
            "6 bad script a.sql: not utf-8 at 3"
        )?
    );
    Ok(())
}

#[test]
fn scripts_have_a_greatest_length(rt: HostRuntime) -> Result<(), Fail> {
    let mut script = vec![in rt.alloc(); b'\xff'; 16_777_216]?;
    let files = files_of(rt.alloc(), b"", script.as_slice(), b"")?;
    let status = "6 bad script a.sql: not utf-8 at 0";
    assert!(rt; ends_with(rt.alloc(), "schedule a.sql", files, status)?);
    script.push(b' ')?;
    let files = files_of(rt.alloc(), b"x", script.as_slice(), b"'")?;
    assert!(rt;
        ends_with(
            rt.alloc(),
            "schedule b.sql a.sql",
            files,
            "13 too long a.sql"
        )?
    );
    Ok(())
}

#[test]
fn a_failing_read_is_a_fault(rt: HostRuntime) -> Result<(), Fail> {
    let words = words_of(rt.alloc(), "schedule a.sql b.sql")?;
    // A look and two reads of each file, and no more.
    for call in 1..11_u64 {
        let files = files_of(rt.alloc(), b"x", b"y", b"z")?;
        let mut fails = List::new(rt.alloc());
        fails.push(call)?;
        let mut files = MemoryFiles::new(files, fails);
        let mut out = MemorySink::new(rt.alloc(), List::new(rt.alloc()));
        let status = top(rt.alloc(), words.as_slice(), &mut files, &mut out);
        assert_eq!(rt; status.number(), if call < 10 { 3 } else { 7 }, "at {call}");
        assert!(rt; out.as_slice().is_empty(), "at {call}");
    }
    Ok(())
}
