//! Reports that are read back, and reports with a bad line, as the format says.
ghost use Rattle.std.specs.Prelude.{◌≡◌};

use crate::{ReportFault, read_report};
use dw_model::Database;
use dw_print::report_text;
use dw_value::List;
use std::test::Fail;

/// Lines of all kinds of events, of all refusals, and of all answers, from the second line of a report on.
const LINES: &str = "1 begin 2 1\n\
    2 pass 2 2 BEGIN\n\
    3 pass 2 2 COMMIT\n\
    4 pass 2 2 ROLLBACK\n\
    5 wait 2 3 for 1 3\n\
    6 open 2 3 snapshot 18446744073709551615 main\n\
    7 open 2 3 snapshot 0 cluster 9\n\
    8 answer 2 3 CREATE TABLE\n\
    9 answer 2 3 DROP TABLE\n\
    10 answer 2 3 LOCK TABLE\n\
    11 answer 2 3 INSERT 0\n\
    12 answer 2 3 SELECT 3\n\
    = x|a\\|b\n\
    - 1|\\N\n\
    - |a\\\\N\\n\\r\n\
    - größe\n\
    13 answer 4294967295 0 SELECT 0\n\
    = \n\
    14 commit 1 6 stamp 3 low 3 high 2\n\
    15 violation 2 4 low 3 high 3 rows(b)\n\
    16 violation 2 4 low 3 high 3 def(a)b\\|)\n\
    17 refuse 1 7 1 syntax 12\n\
    18 refuse 1 7 2 unknown a\\\\N\n\
    19 refuse 1 7 3 exists t\n\
    20 refuse 1 7 4 clash\n\
    21 refuse 1 7 5 range\n\
    22 refuse 1 7 7 null größe\n\
    23 refuse 1 7 10 deadlock 2 3 1\n\
    24 refuse 1 7 11 aborted\n\
    25 refuse 1 7 12 block\n\
    26 refuse 1 7 13 vacuum 3\n\
    27 refuse 1 7 14 limit rows 16777217\n\
    28 refuse 1 7 16 memory\n\
    29 rollback 2 5\n\
    30 vacuum 0 0 begin t\n\
    31 vacuum 0 0 slice 255 horizon 2\n\
    32 vacuum 0 0 end\n\
    33 refresh 1 stamp 2\n\
    34 end 64\n";

#[test]
fn reports_are_read_back(rt: HostRuntime) -> Result<(), Fail> {
    let alloc = rt.alloc();
    let text = format!(in alloc;
        "warehouse nodes 16 slices 1 clusters 0 slots 50 sessions 64\n{}tables 0\nserial\n",
        LINES
    )?;
    let read = read_report(alloc, text.as_bytes())
        .ok()
        .ok_or("the lines are of the form")?;
    assert_eq!(rt; read.journal.events.len(), 34);
    assert_eq!(rt; read.line, 41);
    assert_eq!(rt;
        text.as_bytes().get(read.place..),
        Some(b"tables 0\nserial\n".as_slice())
    );
    let again = report_text(
        alloc,
        &read.journal,
        &Database::new(alloc),
        &List::new(alloc),
    )?;
    assert_eq!(rt; again.as_slice(), text.as_bytes());

    let first = "warehouse nodes 2 slices 2 clusters 1 slots 5 sessions 1\n";
    let read = read_report(alloc, first.as_bytes())
        .ok()
        .ok_or("a journal may have no event")?;
    assert_eq!(rt; (read.line, read.place), (2, first.len()));
    Ok(())
}

#[test]
fn bad_lines_are_told(rt: HostRuntime) -> Result<(), Fail> {
    let alloc = rt.alloc();
    for text in [
        "",
        "\n",
        "warehouse nodes 2 slices 2 clusters 1 slots 5 sessions",
        "warehouse nodes 2 slices 2 clusters 1 slots 5 sessions 1",
        "warehouse nodes 2 slices 2 clusters 1 slots 5 sessions 65\n",
        "warehouse nodes 2 slices 2 clusters 1 slots 5 sessions 0\n",
        "warehouse nodes 17 slices 2 clusters 1 slots 5 sessions 1\n",
        "warehouse nodes 2 slices 0 clusters 1 slots 5 sessions 1\n",
        "warehouse nodes 2 slices 2 clusters 10 slots 5 sessions 1\n",
        "warehouse nodes 2 slices 2 clusters 1 slots 51 sessions 1\n",
        "warehouse nodes 02 slices 2 clusters 1 slots 5 sessions 1\n",
        "tables 0\nserial\n",
    ] {
        match read_report(alloc, text.as_bytes()) {
            Err(ReportFault::Bad { line }) => assert_eq!(rt; line, 1, "{text}"),
            _ => assert!(rt; false, "{text}"),
        }
    }
    for (lines, bad) in [
        ("2 end 1\n", 2),
        ("01 end 1\n", 2),
        ("+1 end 1\n", 2),
        ("1 end 01\n", 2),
        ("1 end 4294967296\n", 2),
        ("1 end 1\r\n", 2),
        ("1 end 1", 2),
        ("1 end \0\n", 2),
        ("1 end 1\n\n", 3),
        ("1 end 1\n1 end 1\n", 3),
        ("1 end 1\n2  end 1\n", 3),
        ("1 end 1\ntable\n", 3),
        ("1 commit 1 1 stamp 18446744073709551616 low 1 high 0\n", 2),
        ("1 refuse 1 1 2 clash\n", 2),
        ("1 refuse 1 1 7 null\n", 2),
        ("1 refuse 1 1 6 null x\n", 2),
        ("1 refuse 1 1 2 unknown a\\b\n", 2),
        ("1 refuse 1 1 2 unknown \\N\n", 2),
        ("1 refuse 1 1 2 unknown a|b\n", 2),
        ("1 refuse 1 1 2 unknown a\\\n", 2),
        ("1 refuse 1 1 2 unknown a\rb\n", 2),
        ("1 violation 1 1 low 1 high 1 rows(a\n", 2),
        ("1 answer 1 1 SELECT 2\n= x\n- 1\n", 5),
        ("1 answer 1 1 SELECT 2\n= x\n- 1\n2 end 1\n", 5),
        ("1 answer 1 1 SELECT 1\n= x\n- 1\n- 2\n2 end 1\n", 5),
        ("1 answer 1 1 SELECT 1\n= x\n-\n", 4),
        ("1 answer 1 1 SELECT 1\n= x\n- 1", 4),
        ("1 answer 1 1 SELECT 1\n= \\N\n- 1\n", 3),
        ("1 answer 1 1 SELECT 1\n", 3),
        ("1 answer 1 1 DELETE\n", 2),
        ("1 answer 1 1 DROP\n", 2),
        ("1 answer 1 1 DROP TABLE 1\n", 2),
        ("1 pass 1 1 SELECT\n", 2),
    ] {
        let text = format!(in alloc;
            "warehouse nodes 2 slices 2 clusters 1 slots 5 sessions 1\n{}",
            lines
        )?;
        match read_report(alloc, text.as_bytes()) {
            Err(ReportFault::Bad { line }) => assert_eq!(rt; line, bad, "{lines}"),
            _ => assert!(rt; false, "{lines}"),
        }
    }
    let bytes =
        b"warehouse nodes 2 slices 2 clusters 1 slots 5 sessions 1\n1 refuse 1 1 2 unknown \xff\n";
    assert!(rt; matches!(read_report(alloc, bytes), Err(ReportFault::Bad { line: 2 })));
    Ok(())
}
