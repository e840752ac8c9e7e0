//! Tests of dictionaries.
ghost use Rattle.std.specs.Prelude.{All, IsTrue};
ghost use Rattle.dw_codec_plain.specs.Numbers.{IsWidth, FitsWidth};

use super::*;
use dw_codec_plain::CodecFault;
use dw_codec_plain::numbers::fits_width;
use std::alloc::{AllocError, AllocFailed, Global};
use std::process::Abort;
use std::test::Fail;

fn all_fit(width: u8, values: &[i128]) -> bool
    requires { IsWidth width }
    ensures { IsTrue result → All (FitsWidth width) values.now }
{
    values.iter().all(|value| fits_width(width, *value))
}

// The numbers from `low` on.
fn numbers(alloc: Global, low: i16, count: u16) -> Result<Vec<i128>, AllocFailed<i128>> {
    let mut values = Vec::new(alloc);
    for step in 0..count {
        values.push(i128::from(low) + i128::from(step))?;
    }
    Ok(values)
}

// `count` values of two bytes behind the sign: the first byte is `low`, and the second goes up by `step`.
fn long_row(alloc: Global, count: u16, low: u8, step: u8) -> Result<Vec<u8>, AllocError> {
    let mut bytes = Vec::from_slice(alloc, &[255, 255])?;
    let mut high = 0u8;
    for _ in 0..count {
        bytes.extend_from_slice(&[low, high])?;
        high = high.wrapping_add(step);
    }
    Ok(bytes)
}

fn check_numbers(
    rt: &impl Abort,
    alloc: Global,
    width: u8,
    values: &[i128],
    head: &[u8],
    len: usize,
) -> Result<(), Fail>
    requires { IsWidth width }
{
    assert!(rt; values.len() <= 4096);
    assert!(rt; all_fit(width, values));
    let written = encode_bytedict(alloc, width, values)?;
    assert!(rt; written.as_slice().starts_with(head));
    assert_eq!(rt; written.len(), len);
    let read = decode_bytedict(alloc, width, written.as_slice(), values.len() as u32)?;
    assert_eq!(rt; read.as_slice(), values);
    Ok(())
}

fn check_damage(rt: &impl Abort, alloc: Global, width: u8, bytes: &[u8], count: u32, place: u64)
    requires { IsWidth width }
{
    assert!(rt; count <= 4096);
    assert_eq!(rt;
        decode_bytedict(alloc, width, bytes, count).err(),
        Some(CodecFault::Damaged { place })
    );
}

#[test]
fn number_rows(rt: HostRuntime) -> Result<(), Fail> {
    let row = [2, 0, 5, 0, 6, 0, 0, 1, 0];
    check_numbers(&rt, rt.alloc(), 2, &[5, 6, 5], &row, 9)?;
    check_numbers(&rt, rt.alloc(), 1, &[-1, 7], &[2, 0, 0xff, 7, 0, 1], 6)?;
    check_numbers(&rt, rt.alloc(), 16, &[], &[0, 0], 2)?;
    let short = numbers(rt.alloc(), 0, 256)?;
    check_numbers(
        &rt,
        rt.alloc(),
        4,
        &short,
        &[0, 1, 0, 0, 0, 0, 1, 0, 0, 0],
        1282,
    )?;
    let long = numbers(rt.alloc(), 0, 257)?;
    check_numbers(
        &rt,
        rt.alloc(),
        4,
        &long,
        &[255, 255, 0, 0, 0, 0, 1, 0, 0, 0],
        1030,
    )?;
    let all = numbers(rt.alloc(), -128, 256)?;
    check_numbers(&rt, rt.alloc(), 1, &all, &[0, 1, 0x80, 0x81], 514)?;
    let most = numbers(rt.alloc(), -2048, 4096)?;
    check_numbers(&rt, rt.alloc(), 2, &most, &[255, 255, 0, 0xf8], 8194)?;
    Ok(())
}

#[test]
fn damaged_numbers(rt: HostRuntime) {
    check_damage(&rt, rt.alloc(), 2, &[2, 0, 5, 0, 5, 0, 0, 1, 0], 3, 5);
    check_damage(&rt, rt.alloc(), 2, &[2, 0, 5, 0, 6, 0, 1, 0, 0], 3, 6);
    check_damage(&rt, rt.alloc(), 2, &[2, 0, 5, 0, 6, 0, 0, 0, 0], 3, 8);
    check_damage(&rt, rt.alloc(), 2, &[2, 0, 5, 0, 6, 0, 0, 2, 1], 3, 7);
    check_damage(&rt, rt.alloc(), 2, &[2, 0, 5, 0, 6, 0, 0, 1], 3, 8);
    check_damage(&rt, rt.alloc(), 2, &[1, 0, 5, 0, 0, 0, 0, 0], 3, 7);
    check_damage(&rt, rt.alloc(), 2, &[4, 0], 3, 0);
    check_damage(&rt, rt.alloc(), 2, &[0, 0], 3, 0);
    check_damage(&rt, rt.alloc(), 2, &[2, 1], 3, 1);
    check_damage(&rt, rt.alloc(), 2, &[0, 0, 0], 0, 2);
    check_damage(&rt, rt.alloc(), 2, &[1, 0], 0, 0);
    check_damage(&rt, rt.alloc(), 2, &[0, 0], 256, 1);
    check_damage(&rt, rt.alloc(), 1, &[255, 255], 300, 1);
    check_damage(&rt, rt.alloc(), 2, &[255, 255, 9, 9, 9, 9], 257, 5);
}

#[test]
fn damaged_fronts(rt: HostRuntime) -> Result<(), Fail> {
    let known = long_row(rt.alloc(), 257, 5, 1)?;
    check_damage(&rt, rt.alloc(), 2, known.as_slice(), 257, 514);
    check_damage(&rt, rt.alloc(), 2, known.as_slice(), 258, 516);
    let same = long_row(rt.alloc(), 300, 5, 0)?;
    check_damage(&rt, rt.alloc(), 2, same.as_slice(), 300, 91);
    Ok(())
}

#[test]
fn text_rows(rt: HostRuntime) -> Result<(), Fail> {
    let row = [2, 0, 1, 0, b'a', 0, 0, 0, 1, 0];
    let texts = decode_bytedict_texts(rt.alloc(), &row, 3)?;
    assert_eq!(rt; texts.len(), 3);
    assert_eq!(rt; texts[0].as_slice(), b"a".as_slice());
    assert_eq!(rt; texts[1].as_slice(), b"".as_slice());
    assert_eq!(rt; texts[2].as_slice(), b"a".as_slice());
    let written = encode_bytedict_texts(rt.alloc(), texts.as_slice())?;
    assert_eq!(rt; written.as_slice(), row.as_slice());
    Ok(())
}

#[test]
fn damaged_texts(rt: HostRuntime) {
    assert_eq!(rt;
        decode_bytedict_texts(rt.alloc(), &[2, 0, 1, 0, b'a', 1, 0, b'a', 0, 1], 2).err(),
        Some(CodecFault::Damaged { place: 7 })
    );
    assert_eq!(rt;
        decode_bytedict_texts(rt.alloc(), &[2, 0, 0, 0, 0, 0, 0, 1], 2).err(),
        Some(CodecFault::Damaged { place: 5 })
    );
    assert_eq!(rt;
        decode_bytedict_texts(rt.alloc(), &[1, 0, 1, 0, b'a', 0, 1], 2).err(),
        Some(CodecFault::Damaged { place: 6 })
    );
}
