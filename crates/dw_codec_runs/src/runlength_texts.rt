//! RUNLENGTH for texts: each run of equal neighbours by how long it is and its text, with the text's length before it.

ghost use Rattle.std.specs.Prelude.{◌≡◌, ◌≤◌, ◌<◌, ◌++◌, ◌↔◌, ℕ, List, length, take, drop, replicate, All, IsTrue, IfOk, IfErr, IfSome, IfNone, Some, None, OnOk};
ghost use Rattle.std.specs.Option.{option_copied};
ghost use Rattle.dw_codec_plain.specs.Encodings.{IsText, raw_text};
ghost use Rattle.dw_codec_plain.specs.Spelling.{IsListOf, IsItem, NoItem, IsLongestFront, Explains};
ghost use Rattle.dw_codec_runs.specs.Runs.{run_bytes, runlength_texts, StartsOther, IsOther, IsRun, value_item, run_item};

use crate::runlength_times::{push_times, times_at, times_front};
use dw_codec_plain::texts::{push_text, text_at};
use dw_codec_plain::{Bytes, CodecFault};
use std::alloc::{AllocError, Global};

// How many of the first texts equal this one.
fn equal_len(text: &[u8], texts: &[Bytes]) -> usize
    ensures within { result ≤ length texts.now }
    ensures equal { take result texts.now ≡ replicate result text.now }
    ensures stops { StartsOther (Some text.now) (drop result texts.now) }
{
    for (len, other) in texts.iter().enumerate() {
        if other.as_slice() != text {
            return len;
        }
    }
    texts.len()
}

// Writes a run at the end.
fn push_run(out: &mut Vec<u8>, times: u16, text: &Bytes) -> Result<(), AllocError>
    requires { length text.now ≤ 65535 }
    ensures ok { OnOk result (out.new.items ≡ out.old.items ++ run_bytes raw_text (record { times = times; value = text.now })) }
{
    push_times(out, times)?;
    push_text(out, text)
}

/// The RUNLENGTH spelling of at most 4,096 texts of at most 65,535 bytes each. An `Err` comes only for want of memory.
pub fn encode_runlength_texts(alloc: Global, values: &[Bytes]) -> Result<Vec<u8>, AllocError>
    requires count { length values.now ≤ 4096 }
    requires short { All (λ text. length text ≤ 65535) values.now }
    ensures { IfOk result (λ bytes. bytes.items ≡ runlength_texts values.now) }
{
    let mut bytes = Vec::new(alloc);
    let mut rest = values;
    while let Some((text, others)) = rest.split_first() {
        let equal = equal_len(text.as_slice(), others);
        push_run(&mut bytes, 1 + equal as u16, text)?;
        let (_, after) = others.split_at(equal);
        rest = after;
    }
    Ok(bytes)
}

// Whether the text is the one before.
fn is_same(before: Option<&[u8]>, text: &[u8]) -> bool
    ensures { IsTrue result ↔ (option_copied before.entry ≡ Some text.now) }
{
    match before {
        Some(last) => last == text,
        None => false,
    }
}

// The run at the front of the bytes, behind a run of the text `before` and with at most `left` texts: its length, its
// text and the bytes behind it. `None` where no such run is there.
fn run_at<'a>(
    before: Option<&[u8]>,
    left: usize,
    bytes: &'a [u8],
) -> Option<(usize, &'a [u8], &'a [u8])>
    requires { left ≤ 4096 }
    ensures run { IfSome result (λ found. IsRun IsText (option_copied before.entry) left (record { times = found.0; value = found.1.now })) }
    ensures spells { IfSome result (λ found. bytes.now ≡ run_bytes raw_text (record { times = found.0; value = found.1.now }) ++ found.2.now) }
    ensures none { IfNone result (NoItem (run_item raw_text) (IsRun IsText (option_copied before.entry) left) None bytes.now) }
{
    let (times, behind) = times_at(left, bytes)?;
    let (text, after) = text_at(behind)?;
    if is_same(before, text) {
        return None;
    }
    Some((times, text, after))
}

// How many of the first bytes begin some text other than the one before. Where it is that one, all but the last byte
// of its spelling do: another byte there is another text, or the length of another.
fn other_front(before: Option<&[u8]>, bytes: &[u8]) -> usize
    ensures { IsLongestFront (IsItem (value_item raw_text) (IsOther IsText (option_copied before.entry)) None) bytes.now result }
{
    match text_at(bytes) {
        Some((text, _)) => {
            if is_same(before, text) {
                1 + text.len()
            } else {
                2 + text.len()
            }
        }
        None => bytes.len(),
    }
}

// How many of the first bytes begin some run.
fn run_front(before: Option<&[u8]>, left: usize, bytes: &[u8]) -> usize
    requires some { 0 < left }
    requires most { left ≤ 4096 }
    ensures { IsLongestFront (IsItem (run_item raw_text) (IsRun IsText (option_copied before.entry) left) None) bytes.now result }
{
    match times_at(left, bytes) {
        Some((_, behind)) => 2 + other_front(before, behind),
        None => times_front(left, bytes),
    }
}

// Puts copies of a text at the end. An `Err` may leave some of them there.
fn push_equal(
    alloc: Global,
    out: &mut Vec<Bytes>,
    times: usize,
    text: &[u8],
) -> Result<(), AllocError>
    ensures ok { OnOk result (out.new.items ≡ out.old.items ++ replicate times text.now) }
{
    for _ in 0..times {
        let copy = Bytes::from_slice(alloc, text)?;
        out.push(copy)?;
    }
    Ok(())
}

/// The `count` texts of which the bytes are the RUNLENGTH spelling.
///
/// `Damaged` comes exactly where the bytes are not such a spelling, and `Memory` for want of memory.
pub fn decode_runlength_texts(
    alloc: Global,
    bytes: &[u8],
    count: u32,
) -> Result<Vec<Bytes>, CodecFault>
    requires { count ≤ 4096 }
    ensures values { IfOk result (λ values. IsListOf IsText count values.items × (bytes.now ≡ runlength_texts values.items)) }
    ensures fault { IfErr result (λ fault. Explains fault runlength_texts IsText count bytes.now) }
{
    let mut values = Vec::with_capacity(alloc, count as usize)?;
    let mut left = count as usize;
    let mut before = None;
    let mut rest = bytes;
    while 0 < left {
        match run_at(before, left, rest) {
            Some((times, text, after)) => {
                push_equal(alloc, &mut values, times, text)?;
                left -= times;
                before = Some(text);
                rest = after;
            }
            None => {
                let front = run_front(before, left, rest);
                return Err(CodecFault::Damaged {
                    place: (bytes.len() - rest.len() + front) as u64,
                });
            }
        }
    }
    if !rest.is_empty() {
        return Err(CodecFault::Damaged {
            place: (bytes.len() - rest.len()) as u64,
        });
    }
    Ok(values)
}

/// RUNLENGTH for texts has one form: two lists of at most 65,535 texts with one spelling are equal. A law, which does
/// nothing when it is called.
pub fn runlength_texts_have_one_form()
    ensures { (values others : List (List ℕ)) → length values ≤ 65535 → length others ≤ 65535 → All IsText values → All IsText others
        → runlength_texts values ≡ runlength_texts others → values ≡ others }
{}
