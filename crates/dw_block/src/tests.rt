//! Tests of blocks and of their zones.
ghost use Rattle.std.specs.Prelude.{All, IfOk, IfSome};
ghost use Rattle.dw_block.specs.Blocks.{IsKind, IsValueOf};

use super::*;
use dw_value::{Comparison, Encoding, Kind, List, Text, Value, admit, allows, goes_with};
use std::alloc::{AllocError, Global};
use std::process::Abort;
use std::test::Fail;

/// The value as a column of the kind holds it.
fn held_one(kind: Kind, value: Value) -> Option<Value>
    ensures { IfSome result (IsValueOf kind) }
{
    if !goes_with(kind, &value) {
        return None;
    }
    match admit(kind, value, kind) {
        Ok(held) => Some(held),
        Err(_) => None,
    }
}

/// The values as a column of the kind holds them, without those that it can't hold.
fn held(alloc: Global, kind: Kind, given: &[Value]) -> Result<List<Value>, AllocError>
    ensures { IfOk result (λ held. All (IsValueOf kind) held) }
{
    let mut values = List::new(alloc);
    for value in given {
        if let Some(value) = held_one(kind, value.copy()?) {
            values.push(value)?;
        }
    }
    Ok(values)
}

/// The value of the kind that a word stands for: `-` is NULL, and `.` the empty text.
fn value(alloc: Global, kind: Kind, word: &str) -> Result<Value, AllocError> {
    if word == "-" {
        return Ok(Value::Null);
    }
    match kind {
        Kind::Char { .. } | Kind::Varchar { .. } => {
            let text = if word == "." { "" } else { word };
            Ok(Value::Words(Text::from_str(alloc, text)?))
        }
        Kind::Date => Ok(Value::Day(word.parse::<i32>().unwrap_or(0))),
        Kind::Bool => Ok(Value::Truth(word == "t")),
        _ => Ok(Value::Number(word.parse::<i128>().unwrap_or(0))),
    }
}

/// The values of the kind that words stand for.
fn values(alloc: Global, kind: Kind, words: &str) -> Result<List<Value>, AllocError> {
    let mut values = List::new(alloc);
    for word in words.split_whitespace() {
        values.push(value(alloc, kind, word)?)?;
    }
    Ok(values)
}

/// The block of the values.
fn block(
    rt: &impl Abort,
    alloc: Global,
    encoding: Encoding,
    kind: Kind,
    given: &[Value],
) -> Result<Block, AllocError>
    requires { IsKind kind }
{
    let values = held(alloc, kind, given)?;
    assert_eq!(rt; values.len(), given.len());
    assert!(rt; values.len() <= 4096);
    assert!(rt; allows(encoding, kind));
    Block::make(alloc, encoding, kind, &values)
}

/// Checks that the block of the values has the size and gives the values back.
fn check_values(
    rt: &impl Abort,
    alloc: Global,
    encoding: Encoding,
    kind: Kind,
    given: &List<Value>,
    size: u64,
) -> Result<(), Fail>
    requires { IsKind kind }
{
    let block = block(rt, alloc, encoding, kind, given.as_slice())?;
    assert_eq!(rt; block.size(), size);
    let found = block.values()?;
    assert!(rt; found == *given);
    Ok(())
}

/// Checks the same of the values that words stand for.
fn check(
    rt: &impl Abort,
    alloc: Global,
    encoding: Encoding,
    kind: Kind,
    words: &str,
    size: u64,
) -> Result<(), Fail>
    requires { IsKind kind }
{
    let given = values(alloc, kind, words)?;
    check_values(rt, alloc, encoding, kind, &given, size)
}

/// Checks the same under RUNLENGTH and under BYTEDICT.
fn check_both(
    rt: &impl Abort,
    alloc: Global,
    kind: Kind,
    words: &str,
    runlength: u64,
    bytedict: u64,
) -> Result<(), Fail>
    requires { IsKind kind }
{
    check(rt, alloc, Encoding::Runlength, kind, words, runlength)?;
    check(rt, alloc, Encoding::Bytedict, kind, words, bytedict)
}

/// Whether the zone may match each of `=`, `<>`, `<`, `<=`, `>` and `>=` with the value, IS NULL and IS NOT NULL.
fn told(
    alloc: Global,
    zone: &Zone,
    zone_scale: u8,
    value: &Value,
    scale: u8,
) -> Result<Text, AllocError> {
    let mut text = Text::new(alloc);
    for comparison in [
        Comparison::Equal,
        Comparison::Unequal,
        Comparison::Less,
        Comparison::AtMost,
        Comparison::Greater,
        Comparison::AtLeast,
    ] {
        let test = Test::Compare {
            comparison,
            value: value.copy()?,
            scale: scale.min(37),
        };
        let matches = may_match(zone, zone_scale.min(37), &test);
        text.push(if matches { 't' } else { 'f' })?;
    }
    for test in [Test::IsNull, Test::NotNull] {
        let matches = may_match(zone, zone_scale.min(37), &test);
        text.push(if matches { 't' } else { 'f' })?;
    }
    Ok(text)
}

/// Checks what the zone of the values tells of a value.
fn check_zone(
    rt: &impl Abort,
    alloc: Global,
    kind: Kind,
    words: &str,
    word: &str,
    scale: u8,
    letters: &str,
) -> Result<(), Fail>
    requires { IsKind kind }
{
    let given = values(alloc, kind, words)?;
    let block = block(rt, alloc, Encoding::Raw, kind, given.as_slice())?;
    let zone_scale = match kind {
        Kind::Decimal { scale, .. } => scale,
        _ => 0,
    };
    let value = value(alloc, kind, word)?;
    let told = told(alloc, block.zone(), zone_scale, &value, scale)?;
    assert_eq!(rt; told.as_str(), letters);
    Ok(())
}

const CENTS: Kind = Kind::Decimal {
    precision: 18,
    scale: 2,
};

const LONG: Kind = Kind::Decimal {
    precision: 38,
    scale: 2,
};

const WORD: Kind = Kind::Varchar { length: 2 };

const CODE: Kind = Kind::Char { length: 2 };

#[test]
fn integers_come_back(rt: HostRuntime) -> Result<(), Fail> {
    let alloc = rt.alloc();
    check(&rt, alloc, Encoding::Raw, Kind::Int, "-", 1)?;
    check(&rt, alloc, Encoding::Raw, Kind::Int, "", 0)?;
    check(&rt, alloc, Encoding::Raw, Kind::Small, "1 127 - -128", 7)?;
    check(&rt, alloc, Encoding::Mostly8, Kind::Int, "1 127 - -128", 8)?;
    check(
        &rt,
        alloc,
        Encoding::Delta,
        Kind::Int,
        "1 5 50 200 185 220 221 - -",
        16,
    )?;
    check(
        &rt,
        alloc,
        Encoding::Delta32k,
        Kind::Int,
        "0 40000 39999",
        13,
    )?;
    check(
        &rt,
        alloc,
        Encoding::Mostly16,
        Kind::Big,
        "0 40000 39999",
        23,
    )?;
    check(
        &rt,
        alloc,
        Encoding::Mostly32,
        Kind::Big,
        "70000 3000000000",
        17,
    )?;
    Ok(())
}

#[test]
fn other_values_come_back(rt: HostRuntime) -> Result<(), Fail> {
    let alloc = rt.alloc();
    check(&rt, alloc, Encoding::Raw, CENTS, "70000 -1", 17)?;
    check(&rt, alloc, Encoding::Raw, LONG, "70000 -1", 33)?;
    check(&rt, alloc, Encoding::Raw, WORD, "ab - . ü", 11)?;
    check(&rt, alloc, Encoding::Raw, CODE, "ab - . ü", 11)?;
    check(
        &rt,
        alloc,
        Encoding::Raw,
        Kind::Date,
        "-719162 - 2932896",
        9,
    )?;
    check(
        &rt,
        alloc,
        Encoding::Delta,
        Kind::Date,
        "-719162 - 2932896",
        10,
    )?;
    check(&rt, alloc, Encoding::Raw, Kind::Bool, "t f -", 3)?;
    Ok(())
}

#[test]
fn runs_and_dictionaries_come_back(rt: HostRuntime) -> Result<(), Fail> {
    let alloc = rt.alloc();
    check_both(&rt, alloc, Kind::Small, "7 7 - 7 8", 9, 11)?;
    check_both(&rt, alloc, Kind::Int, "5 6 5", 19, 14)?;
    check_both(&rt, alloc, Kind::Int, "-", 1, 3)?;
    check_both(&rt, alloc, Kind::Big, "-1 -1", 11, 13)?;
    check_both(&rt, alloc, CENTS, "225 225 150", 21, 22)?;
    check_both(&rt, alloc, LONG, "5 5", 19, 21)?;
    check_both(&rt, alloc, WORD, "ab ab ab", 7, 10)?;
    check_both(&rt, alloc, CODE, "ab - . ab", 17, 12)?;
    check_both(&rt, alloc, Kind::Date, "-719162 - 2932896", 13, 13)?;
    check(&rt, alloc, Encoding::Runlength, Kind::Bool, "t t f -", 7)?;
    assert!(rt; !allows(Encoding::Bytedict, Kind::Bool));
    Ok(())
}

/// The numbers from 0 to 255.
fn different(alloc: Global) -> Result<List<Value>, AllocError> {
    let mut values = List::new(alloc);
    for number in 0..256_u32 {
        values.push(Value::Number(i128::from(number)))?;
    }
    Ok(values)
}

/// 7, 4,096 times.
fn equal(alloc: Global) -> Result<List<Value>, AllocError> {
    let mut values = List::new(alloc);
    for _ in 0..4096_u32 {
        values.push(Value::Number(7))?;
    }
    Ok(values)
}

#[test]
fn long_blocks_come_back(rt: HostRuntime) -> Result<(), Fail> {
    let alloc = rt.alloc();
    let different = different(alloc)?;
    check_values(
        &rt,
        alloc,
        Encoding::Bytedict,
        Kind::Int,
        &different,
        32 + 1282,
    )?;
    let equal = equal(alloc)?;
    check_values(&rt, alloc, Encoding::Runlength, Kind::Int, &equal, 512 + 6)?;
    Ok(())
}

#[test]
fn zones_of_integers_match(rt: HostRuntime) -> Result<(), Fail> {
    let alloc = rt.alloc();
    let given = "5 2 - 9 4";
    check_zone(&rt, alloc, Kind::Int, given, "1", 0, "ftfftttt")?;
    check_zone(&rt, alloc, Kind::Int, given, "2", 0, "ttfttttt")?;
    check_zone(&rt, alloc, Kind::Int, given, "5", 0, "tttttttt")?;
    check_zone(&rt, alloc, Kind::Int, given, "9", 0, "ttttfttt")?;
    check_zone(&rt, alloc, Kind::Int, given, "10", 0, "ftttfftt")?;
    check_zone(&rt, alloc, Kind::Int, given, "-", 0, "fffffftt")?;
    check_zone(&rt, alloc, Kind::Int, "7 7", "7", 0, "tfftftft")?;
    check_zone(&rt, alloc, Kind::Int, "- -", "7", 0, "fffffftf")?;
    Ok(())
}

#[test]
fn zones_of_other_values_match(rt: HostRuntime) -> Result<(), Fail> {
    let alloc = rt.alloc();
    check_zone(&rt, alloc, CENTS, "225 150", "15", 1, "ttftttft")?;
    check_zone(&rt, alloc, CENTS, "225 150", "3", 0, "ftttffft")?;
    check_zone(&rt, alloc, WORD, "d b -", "c", 0, "tttttttt")?;
    check_zone(&rt, alloc, WORD, "d b -", "a", 0, "ftfftttt")?;
    check_zone(&rt, alloc, Kind::Date, "10 20", "20", 0, "ttttftft")?;
    check_zone(&rt, alloc, Kind::Bool, "f", "t", 0, "ftttffft")?;
    Ok(())
}
