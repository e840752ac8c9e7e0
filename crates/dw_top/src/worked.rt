//! Tests of whole calls that print a report.
use crate::tests::{Named, call, put_file, words_of};
use crate::top::top;
use dw_io::{MemoryFiles, MemorySink, Sink, SinkFault};
use dw_value::List;
use std::alloc::{AllocError, Global};
use std::test::Fail;

/// What a script without a statement gives.
const EMPTY: &str = "warehouse nodes 2 slices 2 clusters 1 slots 5 sessions 1
1 end 1
tables 0
serial
";

/// Two statements that are refused, with an empty one between them that is none.
const TWO: &str = "warehouse nodes 2 slices 2 clusters 1 slots 5 sessions 1
1 refuse 1 1 1 syntax 0
2 refuse 1 2 1 syntax 0
3 end 1
tables 0
serial
";

/// In each row: the schedule, the scripts of up to three sessions, of which the last ones may be absent, and lines of the
/// report, which `~` parts.
const RUNS: &str =
    "1*9 2*3 1*2 2*2 1 2|CREATE TABLE a (x INTEGER); CREATE TABLE b (x INTEGER); BEGIN; SELECT x FROM a; INSERT INTO b VALUES (1); COMMIT;|BEGIN; SELECT x FROM b; INSERT INTO a VALUES (1); COMMIT;|absent|17 commit 1 6 stamp 3 low 3 high 2~18 violation 2 4 low 3 high 3 rows(b)~19 end 1~20 end 2
1*9 2*3 1|CREATE TABLE t (x INTEGER); CREATE TABLE u (x INTEGER); BEGIN; SELECT x FROM t; COMMIT;|INSERT INTO t VALUES (7);|absent|9 answer 1 4 SELECT 0~12 commit 2 1 stamp 3 low 3 high 1~13 commit 1 5 stamp 4 low 3 high 1~serial 1 2 4 3
1*9 2*3 1*3 2*3|CREATE TABLE t (x INTEGER); CREATE TABLE u (x INTEGER); BEGIN; SELECT x FROM u; INSERT INTO t VALUES (1); COMMIT;|BEGIN; SELECT x FROM u; INSERT INTO t VALUES (2); COMMIT;|absent|15 commit 1 6 stamp 3 low 3 high 2~18 commit 2 4 stamp 4 low 4 high 3~table t rows 2~- 1~- 2
1*9 2*3 1*3 3*6 2*3 3|CREATE TABLE x (v INTEGER); CREATE TABLE y (v INTEGER); CREATE TABLE z (v INTEGER); INSERT INTO x VALUES (1);|BEGIN; SELECT v FROM x; INSERT INTO y VALUES (1); COMMIT;|INSERT INTO z VALUES (1); BEGIN; SELECT v FROM y; COMMIT;|25 commit 3 4 stamp 7 low 4 high 2~serial 1 2 3 7 6 4 5
|BEGIN; SELECT x FROM none; SELECT x FROM none; COMMIT;|absent|absent|1 begin 1 1~2 refuse 1 2 2 unknown none~3 refuse 1 3 11 aborted~4 rollback 1 4~5 end 1
|COMMIT|absent|absent|1 pass 1 1 COMMIT~2 end 1
|BEGIN; BEGIN; COMMIT;|absent|absent|1 begin 1 1~2 pass 1 2 BEGIN~3 pass 1 3 COMMIT~4 end 1
2 1*10000|||absent|warehouse nodes 2 slices 2 clusters 1 slots 5 sessions 2~1 end 2~2 end 1";

/// In each row: the statements after those of `TABLE`, and a line of the report that they give.
const LINES: &str = "INSERT INTO t VALUES (2147483647,'abc');|5 answer 1 2 INSERT 1
INSERT INTO t VALUES (-2147483648,null);|- -2147483648~\\N
INSERT INTO t VALUES (2147483648,'a');|5 refuse 1 2 5 range
INSERT INTO t VALUES (-2147483649,'a');|5 refuse 1 2 5 range
INSERT INTO t VALUES (99999999999999999999999999999999999999,'a');|5 refuse 1 2 5 range
INSERT INTO t VALUES (999999999999999999999999999999999999999,'a');|4 refuse 1 2 1 syntax 22
INSERT INTO t VALUES (1,'aé');|- 1~aé
INSERT INTO t VALUES (1,'abcd');|5 refuse 1 2 5 range
INSERT INTO t VALUES (1,'éé');|5 refuse 1 2 5 range
INSERT INTO t VALUES (1,'it''');|- 1~it'
INSERT INTO t VALUES (1,'a\\b');|- 1~a\\\\b
INSERT INTO t VALUES (NULL, NULL), (NULL, 'a');|table t rows 2
INSERT INTO t VALUES (1);|4 refuse 1 2 4 clash
INSERT INTO t VALUES (1,'a',2);|4 refuse 1 2 4 clash
INSERT INTO t VALUES ('a','b');|4 refuse 1 2 4 clash
INSERT INTO t VALUES (2147483648,'a'), ('x','y');|4 refuse 1 2 4 clash
INSERT INTO t VALUES (1,'abcd'), (2147483648,'a');|5 refuse 1 2 5 range
INSERT INTO t VALUES (1,'a'), ;|4 refuse 1 2 1 syntax 0
INSERT INTO u VALUES (1);|4 refuse 1 2 2 unknown u
CREATE TABLE t (y INTEGER);|4 refuse 1 2 3 exists t
CREATE TABLE u (a INTEGER, b INTEGER, b INTEGER, a INTEGER);|4 refuse 1 2 3 exists b
CREATE TABLE Aa (x VARCHAR(65535));|table aa rows 0
CREATE TABLE u (x VARCHAR(65536));|4 refuse 1 2 1 syntax 0
SELECT x FROM t WHERE x = 1;|5 answer 1 2 SELECT 0
SELECT x FROM none WHERE y = 1;|4 refuse 1 2 2 unknown none
SELECT y, x FROM t WHERE z = 1;|4 refuse 1 2 2 unknown y
SELECT x FROM t WHERE z = 1;|4 refuse 1 2 2 unknown z
SELECT x FROM t WHERE x = 'a';|4 refuse 1 2 4 clash
INSERT INTO t VALUES (1,'a'),(2,'b'),(NULL,NULL),(1,'a'); SELECT X FROM T WHERE X = 1;|8 answer 1 3 SELECT 2
INSERT INTO t VALUES (1,'a'),(2,'b'),(NULL,NULL),(1,'a'); SELECT x FROM t WHERE x <> 1;|8 answer 1 3 SELECT 1
INSERT INTO t VALUES (1,'a'),(2,'b'),(NULL,NULL),(1,'a'); SELECT x FROM t WHERE x != 1;|8 answer 1 3 SELECT 1
INSERT INTO t VALUES (1,'a'),(2,'b'),(NULL,NULL),(1,'a'); SELECT x FROM t WHERE x < 2;|8 answer 1 3 SELECT 2
INSERT INTO t VALUES (1,'a'),(2,'b'),(NULL,NULL),(1,'a'); SELECT x FROM t WHERE x <= 2;|8 answer 1 3 SELECT 3
INSERT INTO t VALUES (1,'a'),(2,'b'),(NULL,NULL),(1,'a'); SELECT x FROM t WHERE x > 1;|8 answer 1 3 SELECT 1
INSERT INTO t VALUES (1,'a'),(2,'b'),(NULL,NULL),(1,'a'); SELECT x FROM t WHERE x >= 1;|8 answer 1 3 SELECT 3
INSERT INTO t VALUES (1,'a'),(2,'b'),(NULL,NULL),(1,'a'); SELECT x FROM t WHERE x = NULL;|8 answer 1 3 SELECT 0
INSERT INTO t VALUES (1,'a'),(2,'b'),(NULL,NULL),(1,'a'); SELECT s, s FROM t WHERE s < 'b';|- a~a
INSERT INTO t VALUES (1,'a'),(2,'b'),(NULL,NULL),(1,'a'); SELECT s, x FROM t;|= s~x
INSERT INTO t VALUES (1,'/*');|- 1~/*
/* ' /* */ \" */ INSERT INTO t VALUES (1,/*'*/'a'); -- it's|- 1~a
VACUUM t;|4 refuse 1 2 1 syntax 0";

/// The table that the rows of `LINES` speak of.
const TABLE: &str = "CREATE TABLE t (x INTEGER, s VARCHAR(3));";

/// A sink that takes 7 bytes at a time, and tells nothing of what it has.
#[derive(Drop)]
struct SlowSink {
    inner: MemorySink,
}

impl Sink for SlowSink {
    ghost use Rattle.std.specs.Prelude.{None};

    ghost has = { λ _. None };

    ghost faults = { λ sink. sink.inner.faults };

    fn write(&mut self, piece: &[u8]) -> Result<usize, SinkFault> {
        let few = piece.len().min(7);
        self.inner.write(&piece[..few])
    }
}

/// The files of a run with an empty schedule.
fn files_of(alloc: Global, script: &[u8]) -> Result<Named, AllocError> {
    let mut files = List::new(alloc);
    put_file(alloc, &mut files, "schedule", b"")?;
    put_file(alloc, &mut files, "a.sql", script)?;
    Ok(files)
}

/// Whether the script's report is this text.
fn reports(alloc: Global, script: &[u8], report: &str) -> Result<bool, AllocError> {
    let (line, written) = call(alloc, "schedule a.sql", files_of(alloc, script)?)?;
    Ok(line.as_str() == "0 " && written.as_slice() == report.as_bytes())
}

/// Whether a call over these files is done, and each of these lines stands in the report.
fn prints(alloc: Global, words: &str, files: Named, lines: &str) -> Result<bool, AllocError> {
    let (line, written) = call(alloc, words, files)?;
    let text = String::from_utf8_lossy(alloc, written.as_slice())?;
    for wanted in lines.lines() {
        if !text.as_str().lines().any(|printed| printed == wanted) {
            return Ok(false);
        }
    }
    Ok(line.as_str() == "0 ")
}

/// Whether the run of a row of `RUNS` prints its lines.
fn run_prints(alloc: Global, row: &str) -> Result<bool, AllocError> {
    let mut fields = row.split('|');
    let mut files = List::new(alloc);
    let mut words = String::from_str(alloc, "schedule")?;
    let schedule = fields.next().unwrap_or("");
    put_file(alloc, &mut files, "schedule", schedule.as_bytes())?;
    for name in ["a.sql", "b.sql", "c.sql"] {
        let script = fields.next().unwrap_or("");
        put_file(alloc, &mut files, name, script.as_bytes())?;
        if script != "absent" {
            words.push_str(" ")?;
            words.push_str(name)?;
        }
    }
    let lines = fields.next().unwrap_or("").replace(alloc, "~", "\n")?;
    prints(alloc, words.as_str(), files, lines.as_str())
}

/// Whether the run of a row of `LINES` prints its line, in which `~` stands for a bar.
fn statement_prints(alloc: Global, row: &str) -> Result<bool, AllocError> {
    let mut fields = row.split('|');
    let statements = fields.next().unwrap_or("");
    let line = fields.next().unwrap_or("").replace(alloc, "~", "|")?;
    let script = format!(in alloc; "{TABLE}{statements}")?;
    let files = files_of(alloc, script.as_str().as_bytes())?;
    prints(alloc, "schedule a.sql", files, line.as_str())
}

#[test]
fn runs_print_their_lines(rt: HostRuntime) -> Result<(), Fail> {
    for row in RUNS.lines() {
        assert!(rt; run_prints(rt.alloc(), row)?, "{row}");
    }
    Ok(())
}

#[test]
fn statements_print_their_lines(rt: HostRuntime) -> Result<(), Fail> {
    for row in LINES.lines() {
        assert!(rt; statement_prints(rt.alloc(), row)?, "{row}");
    }
    let script = b"CREATE TABLE t (s VARCHAR(9)); INSERT INTO t VALUES ('a|b\nc');";
    let files = files_of(rt.alloc(), script)?;
    assert!(rt; prints(rt.alloc(), "schedule a.sql", files, "- a\\|b\\nc")?);
    Ok(())
}

#[test]
fn scripts_give_whole_reports(rt: HostRuntime) -> Result<(), Fail> {
    for script in ["", " ;; ; ", "-- a /* b", "/* ; /* ' */ */ -- '\n;"] {
        assert!(rt; reports(rt.alloc(), script.as_bytes(), EMPTY)?, "{script}");
    }
    assert!(rt; reports(rt.alloc(), b"SELECT 1; ;x", TWO)?);
    Ok(())
}

#[test]
fn sessions_are_1_to_64(rt: HostRuntime) -> Result<(), Fail> {
    let mut words = String::from_str(rt.alloc(), "a.sql")?;
    for _ in 0..64 {
        words.push_str(" b.sql")?;
    }
    let mut files = List::new(rt.alloc());
    put_file(rt.alloc(), &mut files, "a.sql", b"64")?;
    put_file(rt.alloc(), &mut files, "b.sql", b"")?;
    let lines = "1 end 64\n2 end 1\n64 end 63";
    assert!(rt; prints(rt.alloc(), words.as_str(), files, lines)?);
    Ok(())
}

#[test]
fn a_failing_write_leaves_a_part(rt: HostRuntime) -> Result<(), Fail> {
    let words = words_of(rt.alloc(), "schedule a.sql")?;
    // The report has 81 bytes, so it takes 12 writes of at most 7.
    for call in 1..14_u64 {
        let mut files = MemoryFiles::new(files_of(rt.alloc(), b"")?, List::new(rt.alloc()));
        let mut fails = List::new(rt.alloc());
        fails.push(call)?;
        let mut out = SlowSink {
            inner: MemorySink::new(rt.alloc(), fails),
        };
        let status = top(rt.alloc(), words.as_slice(), &mut files, &mut out);
        let written = out.inner.as_slice();
        assert_eq!(rt; status.number(), if call < 13 { 4 } else { 0 }, "at {call}");
        assert_eq!(rt;
            written.len() as u64,
            if call < 13 { (call - 1) * 7 } else { 81 },
            "at {call}"
        );
        assert!(rt; EMPTY.as_bytes().starts_with(written), "at {call}");
    }
    Ok(())
}
