//! Tests of run lengths.
ghost use Rattle.std.specs.Prelude.{◌≤◌, length, All, IsTrue};
ghost use Rattle.dw_codec_plain.specs.Numbers.{IsWidth, FitsWidth};

use super::*;
use dw_codec_plain::numbers::fits_width;
use dw_codec_plain::{Bytes, CodecFault};
use std::alloc::Global;
use std::process::Abort;
use std::test::Fail;

fn all_fit(width: u8, values: &[i128]) -> bool
    requires { IsWidth width }
    ensures { IsTrue result → All (FitsWidth width) values.now }
{
    values.iter().all(|value| fits_width(width, *value))
}

fn check_row(
    rt: &impl Abort,
    alloc: Global,
    width: u8,
    values: &[i128],
    bytes: &[u8],
) -> Result<(), Fail>
    requires { IsWidth width }
{
    assert!(rt; values.len() <= 4096);
    assert!(rt; all_fit(width, values));
    let written = encode_runlength(alloc, width, values)?;
    assert_eq!(rt; written.as_slice(), bytes);
    let read = decode_runlength(alloc, width, bytes, values.len() as u32)?;
    assert_eq!(rt; read.as_slice(), values);
    Ok(())
}

fn check_end(rt: &impl Abort, alloc: Global, width: u8, values: &[i128]) -> Result<(), Fail>
    requires { IsWidth width }
{
    assert!(rt; values.len() <= 4096);
    assert!(rt; all_fit(width, values));
    let count = values.len() as u32;
    let mut bytes = encode_runlength(alloc, width, values)?;
    let read = decode_runlength(alloc, width, &bytes, count)?;
    assert_eq!(rt; read.as_slice(), values);
    let place = bytes.len() as u64;
    bytes.push(0)?;
    assert_eq!(rt;
        decode_runlength(alloc, width, &bytes, count).err(),
        Some(CodecFault::Damaged { place })
    );
    Ok(())
}

// Whether each text has at most 65,535 bytes.
fn all_are_texts(values: &[Bytes]) -> bool
    ensures { IsTrue result → All (λ text. length text ≤ 65535) values.now }
{
    values.iter().all(|text| text.as_slice().len() <= 65535)
}

fn check_texts(rt: &impl Abort, alloc: Global, values: &[Bytes], bytes: &[u8]) -> Result<(), Fail> {
    assert!(rt; values.len() <= 4096);
    assert!(rt; all_are_texts(values));
    let written = encode_runlength_texts(alloc, values)?;
    assert_eq!(rt; written.as_slice(), bytes);
    let read = decode_runlength_texts(alloc, bytes, values.len() as u32)?;
    assert_eq!(rt; read.len(), values.len());
    for (text, value) in read.iter().zip(values) {
        assert_eq!(rt; text.as_slice(), value.as_slice());
    }
    Ok(())
}

#[test]
fn runlength_rows(rt: HostRuntime) -> Result<(), Fail> {
    let many = vec![in rt.alloc(); 7; 4096]?;
    check_row(&rt, rt.alloc(), 4, &many, &[0, 0x10, 7, 0, 0, 0])?;
    check_row(&rt, rt.alloc(), 2, &[7, 7, 7, 8], &[3, 0, 7, 0, 1, 0, 8, 0])?;
    check_row(
        &rt,
        rt.alloc(),
        1,
        &[-1, 0, 0, -1],
        &[1, 0, 0xff, 2, 0, 0, 1, 0, 0xff],
    )?;
    check_row(&rt, rt.alloc(), 16, &[], &[])
}

// The least value of each width, the greatest and 0; no value; and 4,096 of them.
#[test]
fn limits(rt: HostRuntime) -> Result<(), Fail> {
    check_end(&rt, rt.alloc(), 1, &[-0x80, -0x80, 0x7f, 0])?;
    check_end(&rt, rt.alloc(), 2, &[-0x8000, 0x7fff, 0x7fff, 0])?;
    check_end(&rt, rt.alloc(), 4, &[-0x8000_0000, 0x7fff_ffff, 0, 0])?;
    check_end(&rt, rt.alloc(), 8, &[i64::MIN.into(), i64::MAX.into(), 0])?;
    check_end(&rt, rt.alloc(), 16, &[i128::MIN, i128::MAX, 0])?;
    check_end(&rt, rt.alloc(), 16, &[])?;
    let many = vec![in rt.alloc(); i128::MIN; 4096]?;
    check_end(&rt, rt.alloc(), 16, &many)
}

#[test]
fn damaged_runlength(rt: HostRuntime) {
    assert_eq!(rt;
        decode_runlength(rt.alloc(), 4, &[0, 0, 7, 0, 0, 0], 4096).err(),
        Some(CodecFault::Damaged { place: 1 })
    );
    let cases: [(&[u8], u64); 7] = [
        (&[3, 0, 7, 0, 2, 0, 7, 0], 7),
        (&[6, 0, 7, 0], 0),
        (&[3, 0, 7, 0], 4),
        (&[5, 0, 7, 0, 0], 4),
        (&[0, 0, 7, 0], 0),
        (&[5, 0, 7], 3),
        (&[5, 1, 7, 0], 1),
    ];
    for (bytes, place) in cases {
        assert_eq!(rt;
            decode_runlength(rt.alloc(), 2, bytes, 5).err(),
            Some(CodecFault::Damaged { place })
        );
    }
}

#[test]
fn text_rows(rt: HostRuntime) -> Result<(), Fail> {
    let words: [&[u8]; 4] = [b"ab", b"ab", b"", b"b"];
    let mut texts = vec![in rt.alloc()]?;
    for word in words {
        texts.push(Bytes::from_slice(rt.alloc(), word)?)?;
    }
    let bytes = [2, 0, 2, 0, b'a', b'b', 1, 0, 0, 0, 1, 0, 1, 0, b'b'];
    check_texts(&rt, rt.alloc(), &texts, &bytes)?;
    check_texts(&rt, rt.alloc(), &[], &[])
}

#[test]
fn damaged_texts(rt: HostRuntime) {
    let cases: [(&[u8], u64); 6] = [
        (&[1, 0, 0, 0, 1, 0, 0, 0], 7),
        (&[1, 0, 2, 0, b'a', b'b', 1, 0, 2, 0, b'a', b'b'], 11),
        (&[2, 0, 0, 0, 0], 4),
        (&[2, 0, 2, 0, b'a'], 5),
        (&[3, 0, 0, 0], 0),
        (&[1, 0, 0, 0], 4),
    ];
    for (bytes, place) in cases {
        assert_eq!(rt;
            decode_runlength_texts(rt.alloc(), bytes, 2).err(),
            Some(CodecFault::Damaged { place })
        );
    }
}
