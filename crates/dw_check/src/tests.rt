//! Tests of whole calls that judge a report.
use crate::check::top_check;
use dw_io::{MemoryFiles, MemorySink};
use dw_value::{List, Text};
use std::alloc::{AllocError, Global};
use std::test::Fail;

/// Named files.
type Named = List<(Text, List<u8>)>;

/// A report, and the scripts that it is of.
#[derive(Clone, Copy)]
struct Case {
    report: &'static str,
    a: &'static str,
    b: &'static str,
}

/// An empty script.
const EMPTY: Case = Case {
    report: "warehouse nodes 2 slices 2 clusters 1 slots 5 sessions 1
1 end 1
tables 0
serial
",
    a: "",
    b: "absent",
};

/// One session, with an answer that has rows.
const FIRST: Case = Case {
    report: "warehouse nodes 2 slices 2 clusters 1 slots 5 sessions 1
1 open 1 1 snapshot 0 main
2 answer 1 1 CREATE TABLE
3 commit 1 1 stamp 1 low 1 high 0
4 open 1 2 snapshot 1 main
5 answer 1 2 INSERT 2
6 commit 1 2 stamp 2 low 2 high 1
7 open 1 3 snapshot 2 main
8 answer 1 3 SELECT 1
= x|s
- 1|\\N
9 commit 1 3 stamp 3 low 3 high 2
10 end 1
tables 1
table t rows 2
- 1|\\N
- 2|b
serial 1 2 3
",
    a: "CREATE TABLE t (x INTEGER, s VARCHAR(3)); INSERT INTO t VALUES (2,'b'), (1,NULL); SELECT x, s FROM t WHERE x < 2;",
    b: "absent",
};

/// A reader that commits after the writer whose writes it didn't see.
const READER: Case = Case {
    report: "warehouse nodes 2 slices 2 clusters 1 slots 5 sessions 2
1 open 1 1 snapshot 0 main
2 answer 1 1 CREATE TABLE
3 commit 1 1 stamp 1 low 1 high 0
4 open 1 2 snapshot 1 main
5 answer 1 2 CREATE TABLE
6 commit 1 2 stamp 2 low 2 high 0
7 begin 1 3
8 open 1 4 snapshot 2 main
9 answer 1 4 SELECT 0
= x
10 open 2 1 snapshot 2 main
11 answer 2 1 INSERT 1
12 commit 2 1 stamp 3 low 3 high 1
13 commit 1 5 stamp 4 low 3 high 1
14 end 1
15 end 2
tables 2
table t rows 1
- 7
table u rows 0
serial 1 2 4 3
",
    a: "CREATE TABLE t (x INTEGER); CREATE TABLE u (x INTEGER); BEGIN; SELECT x FROM t; COMMIT;",
    b: "INSERT INTO t VALUES (7);",
};

/// In each row: the case, what in its report gives way to what, where `~` stands for an LF, the words, and the status.
const ROWS: &str = "e|||journal a|0
f|||journal a|0
r|||journal a b|0
e|~serial~|~serial~serial~|journal a|12 wrong end at line 5
e|~serial~|~|journal a|12 wrong end at line 4
e|~serial~|~serial|journal a|12 wrong end at line 4
e|1 end 1|2 end 1|journal a|9 bad journal at line 2
e|1 end 1|01 end 1|journal a|9 bad journal at line 2
e|1 end 1~||journal a|11 not following at event 0
e|sessions 1|sessions 2|journal a|11 not following at event 0
e|sessions 1|sessions 65|journal a|9 bad journal at line 1
e|nodes 2|nodes 17|journal a|9 bad journal at line 1
e|tables 0~|tables 1~|journal a|12 wrong end at line 3
f|- 1|- 3|journal a|10 not legal at event 8
f|= x|= y|journal a|10 not legal at event 8
f|~- 1|~- 1|journal a|0
f|- 1||journal a|9 bad journal at line 11
f|SELECT 1|SELECT 2|journal a|9 bad journal at line 12
f|INSERT 2|INSERT 1|journal a|10 not legal at event 5
f|- 2|- 3|journal a|12 wrong end at line 17
f|10 end 1~||journal a|11 not following at event 9
f|8 answer 1 3|8 answer 1 2|journal a|11 not following at event 8
r|stamp 4 low 3|stamp 4 low 4|journal a b|10 not legal at event 13
r|low 3 high 1~14|low 3 high 3~14|journal a b|10 not legal at event 13
r|commit 1 5 stamp 4 low 3 high 1|violation 1 5 low 3 high 1 rows(t)|journal a b|10 not legal at event 13
r|4 3~|3 4~|journal a b|12 wrong end at line 22
r|||journal a none|11 not following at event 10
r|||journal a|11 not following at event 0
r|open 2 1 snapshot 2|open 2 1 snapshot 1|journal a b|10 not legal at event 10
r|15 end 2~|15 end 2~16 end 2~|journal a b|11 not following at event 16
e|||journal|2 usage
e|||gen:1 a|2 usage
e|||journal -x|2 usage
e|||absent a|5 missing absent
e|||journal absent|5 missing absent
e|1 end 1|1 end 2|journal bad|6 bad script bad: open text at 0";

/// Puts a file among the others.
fn put_file(alloc: Global, files: &mut Named, name: &str, text: &str) -> Result<(), AllocError> {
    let bytes = Vec::from_slice(alloc, text.as_bytes())?;
    files.push((Text::from_str(alloc, name)?, List::from_vec(bytes)))
}

/// The case of a letter.
fn case_of(letter: &str) -> Case {
    match letter {
        "e" => EMPTY,
        "f" => FIRST,
        _ => READER,
    }
}

/// The files of a case with this report.
fn files_of(alloc: Global, case: &Case, report: &str) -> Result<Named, AllocError> {
    let mut files = List::new(alloc);
    put_file(alloc, &mut files, "journal", report)?;
    put_file(alloc, &mut files, "a", case.a)?;
    put_file(alloc, &mut files, "b", case.b)?;
    put_file(alloc, &mut files, "none", "")?;
    put_file(alloc, &mut files, "bad", "'")?;
    Ok(files)
}

/// The words of a line, which spaces part.
fn words_of(alloc: Global, line: &str) -> Result<Vec<Text>, AllocError> {
    let mut words = Vec::new(alloc);
    for word in line.split_whitespace() {
        words.push(Text::from_str(alloc, word)?)?;
    }
    Ok(words)
}

/// The report of a row.
fn report_of(alloc: Global, report: &str, old: &str, new: &str) -> Result<String, AllocError> {
    if old.is_empty() {
        return String::from_str(alloc, report);
    }
    let old = old.replace(alloc, "~", "\n")?;
    let new = new.replace(alloc, "~", "\n")?;
    report.replace(alloc, old.as_str(), new.as_str())
}

/// The number and the line of the status of a row.
fn status_of(alloc: Global, row: &str) -> Result<String, AllocError> {
    let mut fields = row.split('|');
    let case = case_of(fields.next().unwrap_or(""));
    let old = fields.next().unwrap_or("");
    let new = fields.next().unwrap_or("");
    let words = words_of(alloc, fields.next().unwrap_or(""))?;
    let report = report_of(alloc, case.report, old, new)?;
    let mut files = MemoryFiles::new(files_of(alloc, &case, report.as_str())?, List::new(alloc));
    let mut out = MemorySink::new(alloc, List::new(alloc));
    let status = top_check(alloc, words.as_slice(), &mut files, &mut out);
    let number = status.number();
    if number == 0 {
        return format!(in alloc; "{number}");
    }
    format!(in alloc; "{number} {status}")
}

#[test]
fn a_report_is_judged_as_its_row_says(rt: HostRuntime) -> Result<(), Fail> {
    for row in ROWS.lines() {
        let status = status_of(rt.alloc(), row)?;
        assert!(rt; row.ends_with(status.as_str()), "{row}: {status}");
    }
    Ok(())
}

#[test]
fn a_right_report_is_answered(rt: HostRuntime) -> Result<(), Fail> {
    let alloc = rt.alloc();
    let words = words_of(alloc, "journal a b")?;
    let due = "legal 15 events 4 commits\nserial 1 2 4 3\n";
    for fail in 0..3_u64 {
        let mut fails = List::new(alloc);
        fails.push(fail)?;
        let mut files = MemoryFiles::new(
            files_of(alloc, &READER, READER.report)?,
            List::new(alloc),
        );
        let mut out = MemorySink::new(alloc, fails);
        let status = top_check(alloc, words.as_slice(), &mut files, &mut out);
        if fail == 1 {
            assert_eq!(rt; status.number(), 4);
            assert!(rt; due.as_bytes().starts_with(out.as_slice()));
        } else {
            assert_eq!(rt; status.number(), 0);
            assert_eq!(rt; out.as_slice(), due.as_bytes());
        }
    }
    Ok(())
}
