//! Tests of DELTA and DELTA32K.
ghost use Rattle.std.specs.Prelude.{All, IsTrue};
ghost use Rattle.dw_codec_plain.specs.Numbers.{IsWidth, FitsWidth};
ghost use Rattle.dw_codec_delta.specs.Delta.{IsDeltaStep};

use super::*;
use dw_codec_plain::CodecFault;
use dw_codec_plain::numbers::fits_width;
use std::alloc::Global;
use std::process::Abort;
use std::test::Fail;

fn all_fit(width: u8, values: &[i128]) -> bool
    requires { IsWidth width }
    ensures { IsTrue result → All (FitsWidth width) values.now }
{
    values.iter().all(|value| fits_width(width, *value))
}

fn check_row(
    rt: &impl Abort,
    alloc: Global,
    width: u8,
    step: u8,
    values: &[i128],
    bytes: &[u8],
) -> Result<(), Fail>
    requires width { IsWidth width }
    requires step { IsDeltaStep step }
{
    assert!(rt; values.len() <= 4096);
    assert!(rt; all_fit(width, values));
    let written = encode_delta(alloc, width, step, values)?;
    assert_eq!(rt; written.as_slice(), bytes);
    let read = decode_delta(alloc, width, step, bytes, values.len() as u32)?;
    assert_eq!(rt; read.as_slice(), values);
    Ok(())
}

fn check_end(
    rt: &impl Abort,
    alloc: Global,
    width: u8,
    step: u8,
    values: &[i128],
) -> Result<(), Fail>
    requires width { IsWidth width }
    requires step { IsDeltaStep step }
{
    assert!(rt; values.len() <= 4096);
    assert!(rt; all_fit(width, values));
    let count = values.len() as u32;
    let mut bytes = encode_delta(alloc, width, step, values)?;
    let read = decode_delta(alloc, width, step, &bytes, count)?;
    assert_eq!(rt; read.as_slice(), values);
    let place = bytes.len() as u64;
    bytes.push(0)?;
    assert_eq!(rt;
        decode_delta(alloc, width, step, &bytes, count).err(),
        Some(CodecFault::Damaged { place })
    );
    Ok(())
}

fn check_ends(rt: &impl Abort, alloc: Global, width: u8, values: &[i128]) -> Result<(), Fail>
    requires { IsWidth width }
{
    check_end(rt, alloc, width, 1, values)?;
    check_end(rt, alloc, width, 2, values)
}

const DELTA: [u8; 14] = [
    0x01, 0, 0, 0, 0x04, 0x2d, 0x80, 0xc8, 0, 0, 0, 0xf1, 0x23, 0x01,
];

#[test]
fn delta_rows(rt: HostRuntime) -> Result<(), Fail> {
    check_row(
        &rt,
        rt.alloc(),
        4,
        1,
        &[1, 5, 50, 200, 185, 220, 221],
        &DELTA,
    )?;
    check_row(
        &rt,
        rt.alloc(),
        4,
        2,
        &[0, 40000, 39999],
        &[0, 0, 0, 0, 0, 0x80, 0x40, 0x9c, 0, 0, 0xff, 0xff],
    )?;
    check_row(&rt, rt.alloc(), 2, 1, &[5, 133], &[5, 0, 0x80, 0x85, 0])?;
    check_row(
        &rt,
        rt.alloc(),
        1,
        1,
        &[-128, 127, -128],
        &[0x80, 0x80, 0x7f, 0x80, 0x80],
    )?;
    check_row(&rt, rt.alloc(), 1, 2, &[-128, 127], &[0x80, 0xff, 0])?;
    check_row(&rt, rt.alloc(), 2, 2, &[], &[])?;
    let many = vec![in rt.alloc(); 0; 4096]?;
    let bytes = vec![in rt.alloc(); 0; 4096]?;
    check_row(&rt, rt.alloc(), 1, 1, &many, &bytes)?;
    Ok(())
}

// The least value of each width, the greatest and the least again; no value; and 4,096 of them.
#[test]
fn limits(rt: HostRuntime) -> Result<(), Fail> {
    check_ends(&rt, rt.alloc(), 1, &[-0x80, 0x7f, -0x80])?;
    check_ends(&rt, rt.alloc(), 2, &[-0x8000, 0x7fff, -0x8000])?;
    check_ends(
        &rt,
        rt.alloc(),
        4,
        &[-0x8000_0000, 0x7fff_ffff, -0x8000_0000],
    )?;
    let (least, greatest) = (i64::MIN.into(), i64::MAX.into());
    check_ends(&rt, rt.alloc(), 8, &[least, greatest, least])?;
    check_ends(&rt, rt.alloc(), 16, &[i128::MIN, i128::MAX, i128::MIN])?;
    check_ends(&rt, rt.alloc(), 16, &[])?;
    let many = vec![in rt.alloc(); i128::MIN; 4096]?;
    check_ends(&rt, rt.alloc(), 16, &many)
}

#[test]
fn damaged_delta(rt: HostRuntime) {
    assert_eq!(rt;
        decode_delta(rt.alloc(), 4, 1, &DELTA[..13], 7).err(),
        Some(CodecFault::Damaged { place: 13 })
    );
    assert_eq!(rt;
        decode_delta(rt.alloc(), 4, 1, &DELTA, 6).err(),
        Some(CodecFault::Damaged { place: 13 })
    );
    assert_eq!(rt;
        decode_delta(rt.alloc(), 2, 1, &[5, 0, 0x80, 6, 0], 2).err(),
        Some(CodecFault::Damaged { place: 4 })
    );
    assert_eq!(rt;
        decode_delta(rt.alloc(), 2, 1, &[0xff, 0x7f, 1], 2).err(),
        Some(CodecFault::Damaged { place: 2 })
    );
    assert_eq!(rt;
        decode_delta(rt.alloc(), 2, 2, &[5, 0, 0, 0x80, 6], 2).err(),
        Some(CodecFault::Damaged { place: 4 })
    );
}
