//! The stages, run on small tables of whole numbers. A row is written as its values, and rows with `;` between them.
use super::*;
use dw_expr::{BoundExpr, BoundNode, ExecFault, keep};
use dw_value::{Comparison, Fault, Kind, List, Op, Row, Value};
use std::alloc::{AllocError, Global};
use std::test::Fail;

fn literal(number: i128, kind: Kind) -> BoundExpr {
    BoundExpr {
        node: BoundNode::Literal(Value::Number(number), kind),
    }
}

fn column(place: u32) -> BoundExpr {
    BoundExpr {
        node: BoundNode::Column {
            source: 0,
            place,
            kind: Kind::Int,
        },
    }
}

fn of_two(alloc: Global, op: Op, a: BoundExpr, b: BoundExpr) -> Result<BoundExpr, AllocError> {
    let a = keep(alloc, a)?;
    let b = keep(alloc, b)?;
    Ok(BoundExpr {
        node: BoundNode::Arithmetic(op, a, b, Kind::Int),
    })
}

fn compared(
    alloc: Global,
    comparison: Comparison,
    a: BoundExpr,
    b: BoundExpr,
) -> Result<BoundExpr, AllocError> {
    let a = keep(alloc, a)?;
    let b = keep(alloc, b)?;
    Ok(BoundExpr {
        node: BoundNode::Compared(comparison, a, b),
    })
}

/// The column at place 0 is greater than 0.
fn is_positive(alloc: Global) -> Result<Option<BoundExpr>, AllocError> {
    let test = compared(alloc, Comparison::Greater, column(0), literal(0, Kind::Int))?;
    Ok(Some(test))
}

/// The column at place 0 and 2147483647, divided by the column at place 1, is 0.
fn may_fault(alloc: Global) -> Result<Option<BoundExpr>, AllocError> {
    let sum = of_two(alloc, Op::Add, column(0), literal(2147483647, Kind::Int))?;
    let part = of_two(alloc, Op::Divide, sum, column(1))?;
    let test = compared(alloc, Comparison::Equal, part, literal(0, Kind::Int))?;
    Ok(Some(test))
}

fn values(alloc: Global, words: &str) -> Result<List<Value>, AllocError> {
    let mut values = List::new(alloc);
    for word in words.split(' ') {
        values.push(match word.parse::<i128>() {
            Ok(number) => Value::Number(number),
            Err(_) => Value::Null,
        })?;
    }
    Ok(values)
}

fn rows(alloc: Global, lines: &str) -> Result<List<Row>, AllocError> {
    let mut rows = List::new(alloc);
    for line in lines.split(';') {
        let values = values(alloc, line)?;
        rows.push(Row { values })?;
    }
    Ok(rows)
}

fn row_told(alloc: Global, row: &Row) -> Result<String, AllocError> {
    let mut told = String::new(alloc);
    for value in row.values.as_slice() {
        if !told.is_empty() {
            told.push(' ')?;
        }
        match value {
            Value::Number(number) => told.push_str(format!(in alloc; "{number}")?.as_str())?,
            _ => told.push('N')?,
        }
    }
    Ok(told)
}

fn told(alloc: Global, made: Result<List<Row>, ExecFault>) -> Result<String, AllocError> {
    let mut told = String::new(alloc);
    match made {
        Ok(rows) => {
            for row in rows.as_slice() {
                if !told.is_empty() {
                    told.push(';')?;
                }
                told.push_str(row_told(alloc, row)?.as_str())?;
            }
        }
        Err(ExecFault::Refused(Fault::Range)) => told.push_str("range")?,
        Err(ExecFault::Refused(Fault::Zero)) => told.push_str("zero")?,
        Err(ExecFault::Memory) => told.push_str("memory")?,
    }
    Ok(told)
}

#[test]
fn rows_are_kept_where_the_condition_is_true(rt: HostRuntime) -> Result<(), Fail> {
    let alloc = rt.alloc();
    for (lines, expected) in [("1;N;2;0", "1;2"), ("0;N", ""), ("3;1;3", "3;1;3")] {
        let kept = kept_rows(alloc, &is_positive(alloc)?, rows(alloc, lines)?.as_slice());
        assert_eq!(rt; told(alloc, kept)?.as_str(), expected);
    }
    for (lines, expected) in [
        ("0 0;1 1", "range"),
        ("1 1;0 0", "range"),
        ("0 0;0 1", "zero"),
    ] {
        let kept = kept_rows(alloc, &may_fault(alloc)?, rows(alloc, lines)?.as_slice());
        assert_eq!(rt; told(alloc, kept)?.as_str(), expected);
    }
    let kept = kept_rows(alloc, &None, rows(alloc, "2;N;1")?.as_slice());
    assert_eq!(rt; told(alloc, kept)?.as_str(), "2;N;1");
    Ok(())
}

#[test]
fn items_are_of_the_rows_that_are_kept(rt: HostRuntime) -> Result<(), Fail> {
    let alloc = rt.alloc();
    let mut items = List::new(alloc);
    items.push(of_two(alloc, Op::Add, column(0), literal(1, Kind::Int))?)?;
    items.push(of_two(alloc, Op::Divide, literal(6, Kind::Int), column(0))?)?;
    let condition = is_positive(alloc)?;
    for (lines, expected) in [
        ("3;1;0;2", "2 6;3 3;4 2"),
        ("N", ""),
        ("2147483647;1", "range"),
    ] {
        let table = rows(alloc, lines)?;
        let selected = selected_rows(alloc, &condition, items.as_slice(), table.as_slice());
        assert_eq!(rt; told(alloc, selected)?.as_str(), expected);
    }
    let made = item_rows(alloc, items.as_slice(), rows(alloc, "3;N")?.as_slice());
    assert_eq!(rt; told(alloc, made)?.as_str(), "4 2;N N");
    let made = item_rows(
        alloc,
        items.as_slice(),
        rows(alloc, "0;2147483647")?.as_slice(),
    );
    assert_eq!(rt; told(alloc, made)?.as_str(), "range");
    Ok(())
}

/// A tuple of a number of three digits after the point, and 6 divided by a number.
fn tuple(alloc: Global, thousandths: i128, divisor: i128) -> Result<List<BoundExpr>, AllocError> {
    let scaled = Kind::Decimal {
        precision: 38,
        scale: 3,
    };
    let divisor = literal(divisor, Kind::Int);
    let mut tuple = List::new(alloc);
    tuple.push(literal(thousandths, scaled))?;
    tuple.push(of_two(alloc, Op::Divide, literal(6, Kind::Int), divisor)?)?;
    Ok(tuple)
}

fn target(kind: Kind, place: Option<u32>) -> Target {
    Target { kind, place }
}

#[test]
fn tuples_are_assigned_once_all_are_evaluated(rt: HostRuntime) -> Result<(), Fail> {
    let alloc = rt.alloc();
    let cents = Kind::Decimal {
        precision: 4,
        scale: 2,
    };
    let targets = [
        target(Kind::Int, Some(1)),
        target(Kind::Int, None),
        target(cents, Some(0)),
    ];
    let defaults = values(alloc, "N 7 N")?;
    for (thousandths, divisor, expected) in [
        (1005, 2, "3 7 101;6 7 -100"),
        (100000, 2, "range"),
        (100000, 0, "zero"),
    ] {
        let mut tuples = List::new(alloc);
        tuples.push(tuple(alloc, thousandths, divisor)?)?;
        tuples.push(tuple(alloc, -1004, 1)?)?;
        let made = inserted_rows(alloc, &targets, defaults.as_slice(), tuples.as_slice());
        assert_eq!(rt; told(alloc, made)?.as_str(), expected);
    }
    let mut tuples = List::new(alloc);
    tuples.push(tuple(alloc, 1, 3)?)?;
    assert_eq!(rt;
        told(alloc, tuple_rows(alloc, tuples.as_slice()))?.as_str(),
        "1 2"
    );
    Ok(())
}

#[test]
fn new_values_see_the_old_row(rt: HostRuntime) -> Result<(), Fail> {
    let alloc = rt.alloc();
    let mut sets = List::new(alloc);
    sets.push(column(1))?;
    sets.push(column(0))?;
    let swap = [target(Kind::Int, Some(0)), target(Kind::Int, Some(1))];
    let first = [target(Kind::Small, Some(0)), target(Kind::Int, None)];
    let table = rows(alloc, "1 2;3 0;N 40000")?;
    let swapped = rows_after(alloc, &swap, sets.as_slice(), table.as_slice());
    assert_eq!(rt; told(alloc, swapped)?.as_str(), "0 3;2 1;40000 N");
    let set = rows_after(alloc, &first, sets.as_slice(), table.as_slice());
    assert_eq!(rt; told(alloc, set)?.as_str(), "range");
    let set = rows_after(
        alloc,
        &first,
        sets.as_slice(),
        rows(alloc, "1 2;3 0")?.as_slice(),
    );
    assert_eq!(rt; told(alloc, set)?.as_str(), "0 0;2 2");
    Ok(())
}
