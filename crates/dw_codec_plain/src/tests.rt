//! Tests of RAW and MOSTLY, and of the numbers and texts they spell.
ghost use Rattle.std.specs.Prelude.{◌≤◌, length, All, IsTrue};
ghost use Rattle.dw_codec_plain.specs.Numbers.{IsWidth, FitsWidth};
ghost use Rattle.dw_codec_plain.specs.Encodings.{IsMostlyStep};

use super::*;
use crate::numbers::fits_width;
use std::alloc::Global;
use std::process::Abort;
use std::test::Fail;

fn all_fit(width: u8, values: &[i128]) -> bool
    requires { IsWidth width }
    ensures { IsTrue result → All (FitsWidth width) values.now }
{
    values.iter().all(|value| fits_width(width, *value))
}

fn check_raw(
    rt: &impl Abort,
    alloc: Global,
    width: u8,
    values: &[i128],
    bytes: &[u8],
) -> Result<(), Fail>
    requires { IsWidth width }
{
    assert!(rt; values.len() <= 4096);
    assert!(rt; all_fit(width, values));
    let written = encode_raw(alloc, width, values)?;
    assert_eq!(rt; written.as_slice(), bytes);
    let read = decode_raw(alloc, width, bytes, values.len() as u32)?;
    assert_eq!(rt; read.as_slice(), values);
    Ok(())
}

fn check_mostly(
    rt: &impl Abort,
    alloc: Global,
    width: u8,
    step: u8,
    values: &[i128],
    bytes: &[u8],
) -> Result<(), Fail>
    requires width { IsWidth width }
    requires step { IsMostlyStep step }
{
    assert!(rt; values.len() <= 4096);
    assert!(rt; all_fit(width, values));
    let written = encode_mostly(alloc, width, step, values)?;
    assert_eq!(rt; written.as_slice(), bytes);
    let read = decode_mostly(alloc, width, step, bytes, values.len() as u32)?;
    assert_eq!(rt; read.as_slice(), values);
    Ok(())
}

fn check_raw_end(rt: &impl Abort, alloc: Global, width: u8, values: &[i128]) -> Result<(), Fail>
    requires { IsWidth width }
{
    assert!(rt; values.len() <= 4096);
    assert!(rt; all_fit(width, values));
    let count = values.len() as u32;
    let mut bytes = encode_raw(alloc, width, values)?;
    let read = decode_raw(alloc, width, &bytes, count)?;
    assert_eq!(rt; read.as_slice(), values);
    let place = bytes.len() as u64;
    bytes.push(0)?;
    assert_eq!(rt;
        decode_raw(alloc, width, &bytes, count).err(),
        Some(CodecFault::Damaged { place })
    );
    Ok(())
}

fn check_mostly_end(
    rt: &impl Abort,
    alloc: Global,
    width: u8,
    step: u8,
    values: &[i128],
) -> Result<(), Fail>
    requires width { IsWidth width }
    requires step { IsMostlyStep step }
{
    assert!(rt; values.len() <= 4096);
    assert!(rt; all_fit(width, values));
    let count = values.len() as u32;
    let mut bytes = encode_mostly(alloc, width, step, values)?;
    let read = decode_mostly(alloc, width, step, &bytes, count)?;
    assert_eq!(rt; read.as_slice(), values);
    let place = bytes.len() as u64;
    bytes.push(0)?;
    assert_eq!(rt;
        decode_mostly(alloc, width, step, &bytes, count).err(),
        Some(CodecFault::Damaged { place })
    );
    Ok(())
}

// Whether each text has at most 65,535 bytes.
fn all_are_texts(values: &[Bytes]) -> bool
    ensures { IsTrue result → All (λ text. length text ≤ 65535) values.now }
{
    values.iter().all(|text| text.as_slice().len() <= 65535)
}

fn check_texts(rt: &impl Abort, alloc: Global, values: &[Bytes], bytes: &[u8]) -> Result<(), Fail> {
    assert!(rt; values.len() <= 4096);
    assert!(rt; all_are_texts(values));
    let written = encode_raw_texts(alloc, values)?;
    assert_eq!(rt; written.as_slice(), bytes);
    let read = decode_raw_texts(alloc, bytes, values.len() as u32)?;
    assert_eq!(rt; read.len(), values.len());
    for (text, value) in read.iter().zip(values) {
        assert_eq!(rt; text.as_slice(), value.as_slice());
    }
    Ok(())
}

#[test]
fn raw_rows(rt: HostRuntime) -> Result<(), Fail> {
    check_raw(
        &rt,
        rt.alloc(),
        1,
        &[-128, -1, 0, 127],
        &[0x80, 0xff, 0, 0x7f],
    )?;
    check_raw(
        &rt,
        rt.alloc(),
        2,
        &[-32768, 5, 32767],
        &[0, 0x80, 5, 0, 0xff, 0x7f],
    )?;
    check_raw(
        &rt,
        rt.alloc(),
        4,
        &[-0x8000_0000, 0x7fff_ffff],
        &[0, 0, 0, 0x80, 0xff, 0xff, 0xff, 0x7f],
    )?;
    check_raw(
        &rt,
        rt.alloc(),
        8,
        &[-2],
        &[0xfe, 0xff, 0xff, 0xff, 0xff, 0xff, 0xff, 0xff],
    )?;
    check_raw(
        &rt,
        rt.alloc(),
        16,
        &[i128::MIN],
        &[0, 0, 0, 0, 0, 0, 0, 0, 0, 0, 0, 0, 0, 0, 0, 0x80],
    )?;
    check_raw(&rt, rt.alloc(), 16, &[], &[])?;
    let many = vec![in rt.alloc(); 7; 4096]?;
    let bytes = vec![in rt.alloc(); 7; 4096]?;
    check_raw(&rt, rt.alloc(), 1, &many, &bytes)?;
    Ok(())
}

#[test]
fn damaged_raw(rt: HostRuntime) {
    assert_eq!(rt;
        decode_raw(rt.alloc(), 2, &[5, 0, 6], 2).err(),
        Some(CodecFault::Damaged { place: 3 })
    );
    assert_eq!(rt;
        decode_raw(rt.alloc(), 2, &[5, 0, 6], 1).err(),
        Some(CodecFault::Damaged { place: 2 })
    );
    assert_eq!(rt;
        decode_raw(rt.alloc(), 2, &[5], 0).err(),
        Some(CodecFault::Damaged { place: 0 })
    );
}

#[test]
fn mostly_rows(rt: HostRuntime) -> Result<(), Fail> {
    check_mostly(
        &rt,
        rt.alloc(),
        2,
        1,
        &[1, 127, -128],
        &[0x01, 0x7f, 0x80, 0x80, 0xff],
    )?;
    check_mostly(
        &rt,
        rt.alloc(),
        1,
        1,
        &[-128, -127, 127],
        &[0x80, 0x80, 0x81, 0x7f],
    )?;
    check_mostly(&rt, rt.alloc(), 1, 2, &[-128, 127], &[0x80, 0xff, 0x7f, 0])?;
    check_mostly(
        &rt,
        rt.alloc(),
        4,
        2,
        &[-32768, 32767],
        &[0, 0x80, 0, 0x80, 0xff, 0xff, 0xff, 0x7f],
    )?;
    check_mostly(
        &rt,
        rt.alloc(),
        4,
        4,
        &[-0x8000_0000],
        &[0, 0, 0, 0x80, 0, 0, 0, 0x80],
    )?;
    check_mostly(&rt, rt.alloc(), 8, 1, &[], &[])?;
    let many = vec![in rt.alloc(); 7; 4096]?;
    let bytes = vec![in rt.alloc(); 7; 4096]?;
    check_mostly(&rt, rt.alloc(), 16, 1, &many, &bytes)?;
    Ok(())
}

#[test]
fn damaged_mostly(rt: HostRuntime) {
    assert_eq!(rt;
        decode_mostly(rt.alloc(), 2, 1, &[0x80, 5, 0], 1).err(),
        Some(CodecFault::Damaged { place: 2 })
    );
    assert_eq!(rt;
        decode_mostly(rt.alloc(), 2, 1, &[0x80], 1).err(),
        Some(CodecFault::Damaged { place: 1 })
    );
    assert_eq!(rt;
        decode_mostly(rt.alloc(), 1, 1, &[0x80, 0x81], 1).err(),
        Some(CodecFault::Damaged { place: 1 })
    );
    assert_eq!(rt;
        decode_mostly(rt.alloc(), 1, 2, &[0x80, 0], 1).err(),
        Some(CodecFault::Damaged { place: 1 })
    );
    assert_eq!(rt;
        decode_mostly(rt.alloc(), 4, 4, &[0, 0, 0, 0x80, 0, 1], 1).err(),
        Some(CodecFault::Damaged { place: 5 })
    );
    assert_eq!(rt;
        decode_mostly(rt.alloc(), 2, 1, &[1, 0], 1).err(),
        Some(CodecFault::Damaged { place: 1 })
    );
}

fn check_ends(rt: &impl Abort, alloc: Global, width: u8, values: &[i128]) -> Result<(), Fail>
    requires { IsWidth width }
{
    check_raw_end(rt, alloc, width, values)?;
    check_mostly_end(rt, alloc, width, 1, values)?;
    check_mostly_end(rt, alloc, width, 2, values)?;
    check_mostly_end(rt, alloc, width, 4, values)
}

// The least value of each width, the greatest and 0; no value; and 4,096 of them.
#[test]
fn limits(rt: HostRuntime) -> Result<(), Fail> {
    check_ends(&rt, rt.alloc(), 1, &[-0x80, 0x7f, 0])?;
    check_ends(&rt, rt.alloc(), 2, &[-0x8000, 0x7fff, 0])?;
    check_ends(&rt, rt.alloc(), 4, &[-0x8000_0000, 0x7fff_ffff, 0])?;
    check_ends(&rt, rt.alloc(), 8, &[i64::MIN.into(), i64::MAX.into(), 0])?;
    check_ends(&rt, rt.alloc(), 16, &[i128::MIN, i128::MAX, 0])?;
    check_ends(&rt, rt.alloc(), 16, &[])?;
    let many = vec![in rt.alloc(); i128::MIN; 4096]?;
    check_ends(&rt, rt.alloc(), 16, &many)
}

#[test]
fn text_rows(rt: HostRuntime) -> Result<(), Fail> {
    let word = Bytes::from_slice(rt.alloc(), b"ab")?;
    let empty = Bytes::new(vec![in rt.alloc()]?);
    let texts = vec![in rt.alloc(); word, empty]?;
    check_texts(&rt, rt.alloc(), &texts, &[2, 0, b'a', b'b', 0, 0])?;
    check_texts(&rt, rt.alloc(), &[], &[])
}

#[test]
fn damaged_texts(rt: HostRuntime) {
    let row = [2, 0, b'a', b'b', 0, 0];
    assert_eq!(rt;
        decode_raw_texts(rt.alloc(), &row, 3).err(),
        Some(CodecFault::Damaged { place: 6 })
    );
    assert_eq!(rt;
        decode_raw_texts(rt.alloc(), &row, 1).err(),
        Some(CodecFault::Damaged { place: 4 })
    );
    assert_eq!(rt;
        decode_raw_texts(rt.alloc(), &row[..3], 1).err(),
        Some(CodecFault::Damaged { place: 3 })
    );
}
