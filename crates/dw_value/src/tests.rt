//! Tests of values, texts, lists and rows.
use super::*;
use std::alloc::{AllocError, Global};
use std::cmp::Ordering;
use std::test::Fail;

/// A number, and NULL for 99.
fn number(number: i128) -> Value {
    if number == 99 {
        Value::Null
    } else {
        Value::Number(number)
    }
}

/// A text, and NULL for `-`.
fn words(alloc: Global, text: &str) -> Result<Value, AllocError> {
    if text == "-" {
        Ok(Value::Null)
    } else {
        Ok(Value::Words(Text::from_str(alloc, text)?))
    }
}

fn row(alloc: Global, first: i128, second: &str) -> Result<Row, AllocError> {
    let mut values = List::new(alloc);
    values.push(number(first))?;
    values.push(words(alloc, second)?)?;
    Ok(Row { values })
}

fn rows(alloc: Global, table: &[(i128, &str)]) -> Result<List<Row>, AllocError> {
    let mut rows = List::new(alloc);
    for (first, second) in table {
        rows.push(row(alloc, *first, second)?)?;
    }
    Ok(rows)
}

fn write(alloc: Global, value: &Value, to: &mut Text) -> Result<(), AllocError> {
    match show(alloc, value, Kind::Big)?.copy()? {
        Field::Shown(text) => to.push_str(text.as_str())?,
        Field::Null => to.push_str("NULL")?,
    }
    to.push(' ')
}

fn written(alloc: Global, rows: &List<Row>) -> Result<Text, AllocError> {
    let mut text = Text::new(alloc);
    for row in rows.as_slice() {
        for value in row.copy()?.values.as_slice() {
            write(alloc, value, &mut text)?;
        }
        text.push(';')?;
    }
    Ok(text)
}

/// What a column of the kind makes of a value of its class, at its own scale.
fn outcome(to: Kind, value: Value) -> &'static str {
    if !goes_with(to, &value) {
        return "clash";
    }
    match admit(to, value, to) {
        Ok(_) => "ok",
        Err(Misfit::Range) => "range",
        Err(Misfit::Length) => "length",
        Err(Misfit::Date) => "date",
    }
}

/// DECIMAL(p,s).
fn decimal(precision: u8, scale: u8) -> Kind {
    Kind::Decimal { precision, scale }
}

/// What a column of the kind holds of a number of this scale.
fn rescaled(to: Kind, number: i128, scale: u8) -> Option<Value> {
    admit(to, Value::Number(number), decimal(38, scale)).ok()
}

/// How two numbers stand at two scales.
fn stand(a: i128, a_scale: u8, b: i128, b_scale: u8) -> Ordering {
    compare(&Value::Number(a), a_scale, &Value::Number(b), b_scale)
}

fn letter(truth: Truth) -> char {
    match truth {
        Truth::False => 'f',
        Truth::Unknown => 'u',
        Truth::True => 't',
    }
}

/// What `=`, `<>`, `<`, `<=`, `>` and `>=` come to, each of the value with each of the others.
fn truths(alloc: Global, value: &Value, others: &[Value]) -> Result<Text, AllocError> {
    let mut text = Text::new(alloc);
    for comparison in [
        Comparison::Equal,
        Comparison::Unequal,
        Comparison::Less,
        Comparison::AtMost,
        Comparison::Greater,
        Comparison::AtLeast,
    ] {
        for other in others {
            text.push(letter(comparison.holds(value, 0, other, 0)))?;
        }
        text.push(' ')?;
    }
    Ok(text)
}

#[test]
fn containers_hold_what_they_are_given(rt: HostRuntime) -> Result<(), Fail> {
    let mut text = Text::from_str(rt.alloc(), "gr")?;
    text.push('ü')?;
    text.push_str("n.")?;
    assert_eq!(rt; text.as_str(), "grün.");
    assert_eq!(rt; text.len(), 6);
    let copy = text.copy()?;
    assert!(rt; copy == text);
    assert_eq!(rt; text.pop(), Some('.'));
    assert!(rt; copy != text);
    let mut texts = List::new(rt.alloc());
    let mut fields = List::new(rt.alloc());
    fields.push(Field::Shown(copy.copy()?))?;
    texts.push(copy)?;
    assert!(rt; texts.copy()? == texts);
    assert!(rt; fields.copy()? == fields);

    let mut list = List::new(rt.alloc());
    for number in [3_u32, 1, 2] {
        list.push(number)?;
    }
    let mut lists = List::with_capacity(rt.alloc(), 1)?;
    lists.push(list.copy()?)?;
    let copy = list.copy()?;
    assert!(rt; copy == list);
    assert!(rt; lists.copy()? == lists);
    assert_eq!(rt; list.pop(), Some(2));
    assert!(rt; copy != list);
    assert_eq!(rt; list.get(1), Some(&1));
    assert_eq!(rt; list.get(2), None);
    assert_eq!(rt; copy.into_vec().as_slice(), [3, 1, 2].as_slice());
    Ok(())
}

const LONG: i128 = 100_000_000_000_000_000_000_000_000_000_000_000_000;

/// What a column of the kind makes of a text.
fn words_outcome(alloc: Global, to: Kind, text: &str) -> Result<&'static str, AllocError> {
    Ok(outcome(to, words(alloc, text)?))
}

#[test]
fn columns_take_what_fits(rt: HostRuntime) -> Result<(), Fail> {
    let cents = decimal(4, 2);
    let long = decimal(38, 37);
    for (kind, first, told) in [
        (Kind::Small, -32_768, "ok"),
        (Kind::Small, 32_768, "range"),
        (Kind::Int, -2_147_483_648, "ok"),
        (Kind::Int, 2_147_483_647, "ok"),
        (Kind::Int, -2_147_483_649, "range"),
        (Kind::Int, 2_147_483_648, "range"),
        (Kind::Int, 99, "ok"),
        (Kind::Big, -9_223_372_036_854_775_808, "ok"),
        (Kind::Big, 9_223_372_036_854_775_808, "range"),
        (cents, -9_999, "ok"),
        (cents, 10_000, "range"),
        (long, LONG - 1, "ok"),
        (long, -LONG, "range"),
        (Kind::Varchar { length: 4 }, 1, "clash"),
        (Kind::Date, 1, "clash"),
        (Kind::Bool, 1, "clash"),
        (Kind::Bool, 99, "ok"),
    ] {
        assert_eq!(rt; outcome(kind, number(first)), told);
    }
    for (text, varchar, char) in [
        ("üü", "ok", "ok"),
        ("üüx", "length", "length"),
        ("ab    ", "length", "ok"),
        ("  abc", "length", "length"),
        ("", "ok", "ok"),
        ("-", "ok", "ok"),
    ] {
        let kind = Kind::Varchar { length: 4 };
        assert_eq!(rt; words_outcome(rt.alloc(), kind, text)?, varchar);
        let kind = Kind::Char { length: 4 };
        assert_eq!(rt; words_outcome(rt.alloc(), kind, text)?, char);
    }
    assert_eq!(rt; words_outcome(rt.alloc(), Kind::Int, "1")?, "clash");
    assert_eq!(rt; outcome(Kind::Date, Value::Day(0)), "ok");
    assert_eq!(rt; outcome(Kind::Int, Value::Day(0)), "clash");
    assert_eq!(rt; outcome(Kind::Bool, Value::Truth(true)), "ok");
    for (text, told) in [(" ü  ", " ü"), ("a   ", "a"), ("üa  ", "üa"), ("    ", "")] {
        let kind = Kind::Char { length: 3 };
        let held = admit(kind, words(rt.alloc(), text)?, kind).ok();
        assert!(rt; held == Some(words(rt.alloc(), told)?));
    }
    for (text, told) in [("2024-02-29", 19_782), ("1969-12-31", -1)] {
        let text = words(rt.alloc(), text)?;
        assert!(rt;
            admit(Kind::Date, text, Kind::Varchar { length: 10 }).ok() == Some(Value::Day(told))
        );
    }
    let text = words(rt.alloc(), "2023-02-29")?;
    assert!(rt;
        matches!(
            admit(Kind::Date, text, Kind::Char { length: 10 }),
            Err(Misfit::Date)
        )
    );
    Ok(())
}

#[test]
fn numbers_are_rounded(rt: HostRuntime) {
    for (to, number, scale, told) in [
        (Kind::Int, 5, 1, 1),
        (Kind::Int, -5, 1, -1),
        (Kind::Int, 4, 1, 0),
        (Kind::Int, -4, 1, 0),
        (Kind::Int, -15, 1, -2),
        (Kind::Int, 25, 1, 3),
        (decimal(4, 2), 1_005, 3, 101),
        (decimal(4, 2), -1_005, 3, -101),
        (decimal(4, 2), 10_049, 4, 100),
        (decimal(4, 2), 7, 0, 700),
        (Kind::Big, LONG - 1, 37, 10),
        (decimal(38, 0), LONG - 1, 1, LONG / 10),
        (decimal(38, 37), 9, 0, LONG / 10 * 9),
        (decimal(38, 0), 1, 255, 0),
    ] {
        assert!(rt; rescaled(to, number, scale) == Some(Value::Number(told)));
    }
    for (to, number, scale) in [
        (decimal(37, 0), LONG - 1, 1),
        (decimal(38, 37), 10, 0),
        (decimal(38, 37), i128::MIN, 0),
        (decimal(38, 37), i128::MAX, 0),
        (decimal(4, 2), 99_995, 3),
        (Kind::Small, 327_675, 1),
    ] {
        assert!(rt; rescaled(to, number, scale).is_none());
    }
}

#[test]
fn dates_are_read(rt: HostRuntime) {
    for (text, told) in [
        ("2024-02-29", Some(19_782)),
        ("2023-02-29", None),
        ("2000-02-29", Some(11_016)),
        ("1900-02-29", None),
        ("1900-02-28", Some(-25_509)),
        ("2024-2-9", None),
        ("0000-01-01", None),
        ("0001-01-01", Some(-719_162)),
        ("9999-12-31", Some(2_932_896)),
        ("10000-01-01", None),
        ("2024-02-29 ", None),
        (" 2024-02-2", None),
        ("2024/02/29", None),
        ("2024-13-01", None),
        ("2024-00-10", None),
        ("2024-01-00", None),
        ("2024-04-31", None),
        ("2O24-01-01", None),
        ("", None),
    ] {
        assert_eq!(rt; read_date(text.as_bytes()), told);
    }
}

#[test]
fn numbers_are_shown_at_their_scale(rt: HostRuntime) -> Result<(), Fail> {
    for (number, scale, told) in [
        (150, 2, "1.50"),
        (-5, 2, "-0.05"),
        (0, 2, "0.00"),
        (-150, 0, "-150"),
        (123_456_789, 4, "12345.6789"),
        (1, 37, "0.0000000000000000000000000000000000001"),
        (1 - LONG, 37, "-9.9999999999999999999999999999999999999"),
        (i128::MIN, 0, "-170141183460469231731687303715884105728"),
        (i128::MIN, 40, "-0.0170141183460469231731687303715884105728"),
    ] {
        let field = show(rt.alloc(), &Value::Number(number), decimal(38, scale))?;
        assert!(rt; field == Field::Shown(Text::from_str(rt.alloc(), told)?));
    }
    Ok(())
}

/// The number of a result and how it came to be.
fn calculated(op: Op, a: i128, a_kind: Kind, b: i128, b_kind: Kind) -> (i128, &'static str) {
    match compute(op, &number(a), a_kind, &number(b), b_kind) {
        Ok(Value::Number(number)) => (number, "ok"),
        Ok(Value::Null) => (0, "null"),
        Ok(_) => (0, "no number"),
        Err(Fault::Range) => (0, "range"),
        Err(Fault::Zero) => (0, "zero"),
    }
}

/// Ten to the nineteenth.
const TENS: i128 = 10_000_000_000_000_000_000;

#[test]
fn whole_numbers_are_calculated(rt: HostRuntime) {
    let (small, int, big) = (Kind::Small, Kind::Int, Kind::Big);
    for (op, a, a_kind, b, b_kind, number, told) in [
        (Op::Add, 32_766, small, 1, small, 32_767, "ok"),
        (Op::Add, 32_767, small, 1, small, 0, "range"),
        (Op::Add, 32_767, small, 1, int, 32_768, "ok"),
        (Op::Subtract, -32_768, small, 1, small, 0, "range"),
        (Op::Subtract, 0, int, -2_147_483_648, int, 0, "range"),
        (Op::Multiply, 200, small, 200, small, 0, "range"),
        (Op::Multiply, 200, int, 200, small, 40_000, "ok"),
        (
            Op::Multiply,
            3_037_000_499,
            big,
            3_037_000_499,
            big,
            9_223_372_030_926_249_001,
            "ok",
        ),
        (
            Op::Multiply,
            3_037_000_500,
            big,
            3_037_000_500,
            big,
            0,
            "range",
        ),
        (Op::Divide, -7, int, 2, int, -3, "ok"),
        (Op::Divide, 7, int, -2, int, -3, "ok"),
        (Op::Remainder, -7, int, 2, int, -1, "ok"),
        (Op::Remainder, 7, int, -2, int, 1, "ok"),
        (Op::Divide, 7, int, 0, int, 0, "zero"),
        (Op::Remainder, 7, int, 0, int, 0, "zero"),
        (Op::Divide, -32_768, small, -1, small, 0, "range"),
        (Op::Divide, -32_768, small, -1, int, 32_768, "ok"),
        (Op::Remainder, -32_768, small, -1, small, 0, "ok"),
        (
            Op::Divide,
            -9_223_372_036_854_775_808,
            big,
            -1,
            big,
            0,
            "range",
        ),
        (
            Op::Remainder,
            -9_223_372_036_854_775_808,
            big,
            -1,
            big,
            0,
            "ok",
        ),
        (Op::Add, 99, int, 1, int, 0, "null"),
        (Op::Divide, 1, int, 99, int, 0, "null"),
        (Op::Divide, 99, int, 0, int, 0, "null"),
    ] {
        assert_eq!(rt; calculated(op, a, a_kind, b, b_kind), (number, told));
    }
}

#[test]
fn decimals_are_calculated(rt: HostRuntime) {
    let int = Kind::Int;
    for (op, a, a_kind, b, b_kind, number, told) in [
        (Op::Add, 150, decimal(4, 2), 2, int, 350, "ok"),
        (
            Op::Subtract,
            150,
            decimal(4, 2),
            1_505,
            decimal(5, 3),
            -5,
            "ok",
        ),
        (
            Op::Multiply,
            150,
            decimal(4, 2),
            -15,
            decimal(2, 1),
            -2_250,
            "ok",
        ),
        (Op::Add, LONG - 1, decimal(38, 0), 1, int, 0, "range"),
        (Op::Add, LONG - 2, decimal(38, 0), 1, int, LONG - 1, "ok"),
        (
            Op::Subtract,
            1 - LONG,
            decimal(38, 9),
            1 - LONG,
            decimal(38, 9),
            0,
            "ok",
        ),
        (
            Op::Subtract,
            1 - LONG,
            decimal(38, 9),
            LONG - 1,
            decimal(38, 9),
            0,
            "range",
        ),
        (Op::Add, 9, int, 0, decimal(38, 37), LONG / 10 * 9, "ok"),
        (Op::Add, 10, int, 0, decimal(38, 37), 0, "range"),
        (Op::Subtract, 10, int, LONG - 1, decimal(38, 37), 0, "range"),
        (Op::Add, -2_147_483_648, int, 0, decimal(38, 37), 0, "range"),
        (
            Op::Multiply,
            TENS,
            decimal(38, 20),
            TENS - 1,
            decimal(38, 17),
            LONG - TENS,
            "ok",
        ),
        (
            Op::Multiply,
            TENS,
            decimal(38, 0),
            -TENS,
            decimal(38, 0),
            0,
            "range",
        ),
        (
            Op::Multiply,
            LONG - 1,
            decimal(38, 0),
            LONG - 1,
            decimal(38, 0),
            0,
            "range",
        ),
        (Op::Multiply, LONG - 1, decimal(38, 0), 0, int, 0, "ok"),
        (Op::Multiply, 99, decimal(38, 1), 1, int, 0, "null"),
    ] {
        assert_eq!(rt; calculated(op, a, a_kind, b, b_kind), (number, told));
    }
}

/// A letter for a kind of whole numbers, the scale of a decimal, and `-` for none.
fn write_kind(kind: Option<Kind>, to: &mut String) -> Result<(), AllocError> {
    match kind {
        Some(Kind::Small) => to.push_str("s ")?,
        Some(Kind::Int) => to.push_str("i ")?,
        Some(Kind::Big) => to.push_str("b ")?,
        Some(kind) => write!(to, "{} ", kind.scale())?,
        None => to.push_str("- ")?,
    }
    Ok(())
}

#[test]
fn results_have_kinds(rt: HostRuntime) -> Result<(), Fail> {
    let kinds = [
        Kind::Small,
        Kind::Int,
        Kind::Big,
        decimal(5, 2),
        decimal(38, 20),
        Kind::Char { length: 1 },
        Kind::Varchar { length: 1 },
        Kind::Date,
        Kind::Bool,
    ];
    let none = "- - - - - - - - - ; - - - - - - - - - ; - - - - - - - - - ; - - - - - - - - - ; ";
    let sums =
        "s i b 2 20 - - - - ; i i b 2 20 - - - - ; b b b 2 20 - - - - ; 2 2 2 2 20 - - - - ; 20 20 20 20 20 - - - - ; ";
    let products =
        "s i b 2 20 - - - - ; i i b 2 20 - - - - ; b b b 2 20 - - - - ; 2 2 2 4 22 - - - - ; 20 20 20 22 - - - - - ; ";
    let quotients =
        "s i b - - - - - - ; i i b - - - - - - ; b b b - - - - - - ; - - - - - - - - - ; - - - - - - - - - ; ";
    for (op, numbers) in [
        (Op::Add, sums),
        (Op::Subtract, sums),
        (Op::Multiply, products),
        (Op::Divide, quotients),
        (Op::Remainder, quotients),
    ] {
        let mut text = String::new(rt.alloc());
        for a in kinds {
            for b in kinds {
                write_kind(result_kind(op, a, b), &mut text)?;
            }
            text.push_str("; ")?;
        }
        let mut told = String::from_str(rt.alloc(), numbers)?;
        told.push_str(none)?;
        assert_eq!(rt; text.as_str(), told.as_str());
    }
    let mut text = String::new(rt.alloc());
    for (number, places) in [
        (2_147_483_647, 0),
        (2_147_483_648, 0),
        (9_223_372_036_854_775_807, 0),
        (9_223_372_036_854_775_808, 0),
        (15, 1),
    ] {
        write_kind(Some(literal_kind(number, places)), &mut text)?;
    }
    assert_eq!(rt; text.as_str(), "i b b 0 1 ");
    Ok(())
}

#[test]
fn scales_dont_change_a_number(rt: HostRuntime) {
    for (a, a_scale, b, b_scale, told) in [
        (15, 1, 150, 2, Ordering::Equal),
        (15, 1, 149, 2, Ordering::Greater),
        (2, 0, 201, 2, Ordering::Less),
        (-15, 1, -149, 2, Ordering::Less),
        (0, 0, 0, 37, Ordering::Equal),
        (i128::MAX, 0, i128::MAX, 37, Ordering::Greater),
        (i128::MIN, 0, i128::MIN, 37, Ordering::Less),
        (i128::MIN, 37, i128::MAX, 0, Ordering::Less),
        (LONG, 37, 10, 0, Ordering::Equal),
        (LONG + 1, 37, 10, 0, Ordering::Greater),
    ] {
        assert_eq!(rt; stand(a, a_scale, b, b_scale), told);
    }
    assert_eq!(rt;
        compare(&Value::Number(5), 2, &Value::Null, 0),
        Ordering::Less
    );
    assert_eq!(rt;
        compare(&Value::Day(5), 2, &Value::Day(5), 0),
        Ordering::Equal
    );
    assert_eq!(rt; stand(-1, 0, -1, 255), Ordering::Less);
}

#[test]
fn days_and_truths_are_shown(rt: HostRuntime) -> Result<(), Fail> {
    let mut text = Text::new(rt.alloc());
    for day in [
        19_782,
        0,
        -719_162,
        2_932_896,
        -1,
        11_016,
        47_541,
        -25_509,
        i32::MIN,
        i32::MAX,
    ] {
        write(rt.alloc(), &Value::Day(day), &mut text)?;
    }
    assert_eq!(rt;
        text.as_str(),
        "2024-02-29 1970-01-01 0001-01-01 9999-12-31 1969-12-31 2000-02-29 2100-03-01 1900-02-28 0001-01-01 9999-12-31 "
    );
    let mut text = Text::new(rt.alloc());
    for truth in [true, false] {
        write(rt.alloc(), &Value::Truth(truth), &mut text)?;
    }
    assert_eq!(rt; text.as_str(), "t f ");
    Ok(())
}

#[test]
fn classes_stand_in_order(rt: HostRuntime) -> Result<(), Fail> {
    let ascending = [
        number(-1),
        number(7),
        words(rt.alloc(), "")?,
        words(rt.alloc(), "b")?,
        Value::Day(-3),
        Value::Day(0),
        Value::Truth(false),
        Value::Truth(true),
        Value::Null,
    ];
    for (place, value) in ascending.iter().enumerate() {
        for (other_place, other) in ascending.iter().enumerate() {
            assert_eq!(rt; compare(value, 0, other, 0), place.cmp(&other_place));
        }
    }
    Ok(())
}

#[test]
fn comparisons_have_three_truths(rt: HostRuntime) -> Result<(), Fail> {
    let told = truths(
        rt.alloc(),
        &number(1),
        &[number(-2), number(1), number(10), Value::Null],
    )?;
    assert_eq!(rt; told.as_str(), "ftfu tftu fftu fttu tffu ttfu ");
    let texts = [
        words(rt.alloc(), "B")?,
        words(rt.alloc(), "a")?,
        words(rt.alloc(), "aa")?,
        Value::Null,
    ];
    let told = truths(rt.alloc(), &words(rt.alloc(), "a")?, &texts)?;
    assert_eq!(rt; told.as_str(), "ftfu tftu fftu fttu tffu ttfu ");
    let told = truths(rt.alloc(), &Value::Null, &texts)?;
    assert_eq!(rt; told.as_str(), "uuuu uuuu uuuu uuuu uuuu uuuu ");
    Ok(())
}

#[test]
fn rows_are_sorted_with_null_last(rt: HostRuntime) -> Result<(), Fail> {
    let given = rows(
        rt.alloc(),
        &[
            (99, "a"),
            (2, "b"),
            (2, "-"),
            (-2_147_483_648, "é"),
            (2, "b"),
        ],
    )?;
    let sorted = sort_rows(given)?;
    assert_eq!(rt;
        written(rt.alloc(), &sorted)?.as_str(),
        "-2147483648 é ;2 b ;2 b ;2 NULL ;NULL a ;"
    );
    let more = rows(rt.alloc(), &[(99, "-"), (2, "b"), (0, "x")])?;
    let all = add_rows(sorted.copy()?, more)?;
    assert_eq!(rt;
        written(rt.alloc(), &all)?.as_str(),
        "-2147483648 é ;0 x ;2 b ;2 b ;2 b ;2 NULL ;NULL a ;NULL NULL ;"
    );
    assert!(rt; row(rt.alloc(), 0, "x")? == row(rt.alloc(), 0, "x")?);
    assert!(rt; row(rt.alloc(), 0, "x")? < row(rt.alloc(), 0, "y")?);
    Ok(())
}

#[test]
fn numbers_are_read(rt: HostRuntime) -> Result<(), Fail> {
    let mut long = String::from_str(rt.alloc(), "0.")?;
    for _ in 0..300 {
        long.push('4')?;
    }
    let (int, cents) = (Kind::Int, decimal(4, 2));
    for (to, text, told) in [
        (int, " -12 ", Ok(-12)),
        (int, "+0012", Ok(12)),
        (int, "2147483648", Err(Misread::Range)),
        (int, "1.0", Err(Misread::Form)),
        (int, "", Err(Misread::Form)),
        (int, " ", Err(Misread::Form)),
        (int, "-", Err(Misread::Form)),
        (int, "1 2", Err(Misread::Form)),
        (int, "--1", Err(Misread::Form)),
        (int, "1\t", Err(Misread::Form)),
        (int, "1e3", Err(Misread::Form)),
        (cents, "1.005", Ok(101)),
        (cents, " -1.005", Ok(-101)),
        (cents, "1.0049999", Ok(100)),
        (cents, "7", Ok(700)),
        (cents, "-0.000", Ok(0)),
        (cents, "99.994", Ok(9_999)),
        (cents, "99.995", Err(Misread::Range)),
        (cents, "1.", Err(Misread::Form)),
        (cents, ".5", Err(Misread::Form)),
        (cents, "1.2.3", Err(Misread::Form)),
        (cents, "1.-2", Err(Misread::Form)),
        (cents, long.as_str(), Ok(44)),
        (
            Kind::Decimal {
                precision: 38,
                scale: 37,
            },
            long.as_str(),
            Ok((LONG - 1) / 9 * 4 / 10),
        ),
        (
            decimal(38, 0),
            "99999999999999999999999999999999999999.4",
            Ok(LONG - 1),
        ),
        (
            decimal(38, 0),
            "-99999999999999999999999999999999999999.5",
            Err(Misread::Range),
        ),
        (
            decimal(38, 0),
            "340282366920938463463374607431768211457",
            Err(Misread::Range),
        ),
        (
            decimal(38, 0),
            "3402823669209384634633746074317682114560000000001",
            Err(Misread::Range),
        ),
        (decimal(38, 37), "17.0", Err(Misread::Range)),
        (Kind::Varchar { length: 9 }, "1", Err(Misread::Range)),
    ] {
        assert_eq!(rt; read_number(to, text.as_bytes()), told, "{text}");
    }
    Ok(())
}

#[test]
fn sums_pass_128_bits_and_come_back(rt: HostRuntime) {
    let mut sum = Sum::new();
    assert_eq!(rt; sum.number(), Some(0));
    sum.add(i128::MAX);
    assert_eq!(rt; sum.number(), Some(i128::MAX));
    sum.add(i128::MAX);
    sum.add(5);
    assert_eq!(rt; sum.number(), None);
    sum.add(i128::MIN);
    assert_eq!(rt; sum.number(), None);
    sum.add(-7);
    sum.add(i128::MIN);
    assert_eq!(rt; sum.number(), Some(-4));
    sum.add(i128::MIN);
    assert_eq!(rt; sum.number(), None);
    sum.add(4);
    assert_eq!(rt; sum.number(), Some(i128::MIN));
}
