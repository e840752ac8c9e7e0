//! Reading a file to its end and writing a text whole, over any files and any sink.
ghost use Rattle.std.specs.Prelude.{◌≡◌, ℕ, ◌<◌, ◌≤◌, length, take, IsSome, IsSomeAnd, IfSome, IfOk, OnOk, OnErr};
ghost use Rattle.dw_io.specs.Outside.{Held, Rose, appended};

use crate::outside::{Files, Looked, Sink, SinkFault};
use dw_value::List;
use std::alloc::{AllocError, Global};

/// How many bytes are asked for at a time.
const STEP: usize = 8192;

/// Why a file was not read to its end.
#[derive(Clone, Copy, Debug, PartialEq, Eq)]
pub enum ReadStop {
    /// No memory was left for its bytes.
    Memory,
    /// A read failed.
    Fault,
    /// It has more bytes than the limit.
    TooLong,
}

impl From<AllocError> for ReadStop {
    ghost use Rattle.dw_io.specs.declared.whole.ReadStop.TheVariants.{Memory};

    ghost from_gives = { λ _ stop. stop ≡ Memory };

    fn from(_error: AllocError) -> ReadStop {
        ReadStop::Memory
    }
}

/// Reads the file `name`, of at most `limit` bytes. `None` says that there is none of that name.
pub fn read_file<F: Files>(
    alloc: Global,
    files: &mut F,
    name: &str,
    limit: usize,
) -> Result<Option<List<u8>>, ReadStop>
    ensures keeps { F.held files.new ≡ F.held files.old }
    ensures count { F.faults files.old ≤ F.faults files.new }
    ensures fault { result ≡ Err ReadStop.Fault → Rose (F.faults files.old) (F.faults files.new) }
    ensures within { IfOk result (λ found. IfSome found (λ bytes. length bytes ≤ limit)) }
    ensures whole { (h : Held) → F.held files.old ≡ Some h → IfOk result (λ found. found ≡ h name.now) }
    ensures too_long { (h : Held) → F.held files.old ≡ Some h → result ≡ Err ReadStop.TooLong →
        IsSomeAnd (h name.now) (λ bytes. limit < length bytes) }
{
    match files.look(name) {
        Ok(Looked::Found) => Ok(Some(read_rest(alloc, files, limit)?)),
        Ok(Looked::Absent) => Ok(None),
        Err(_) => Err(ReadStop::Fault),
    }
}

/// Reads the rest of the current file, of at most `limit` bytes.
pub(crate) fn read_rest<F: Files>(
    alloc: Global,
    files: &mut F,
    limit: usize,
) -> Result<List<u8>, ReadStop>
    ensures keeps { F.held files.new ≡ F.held files.old }
    ensures count { F.faults files.old ≤ F.faults files.new }
    ensures fault { result ≡ Err ReadStop.Fault → Rose (F.faults files.old) (F.faults files.new) }
    ensures within { IfOk result (λ bytes. length bytes ≤ limit) }
    ensures whole { IsSome (F.held files.old) → IfOk result (λ bytes. bytes ≡ F.left files.old) }
    ensures too_long { IsSome (F.held files.old) → result ≡ Err ReadStop.TooLong → limit < length (F.left files.old) }
{
    let mut bytes = Vec::new(alloc);
    let mut buf = [0; STEP];
    loop {
        let read = match files.read(&mut buf) {
            Ok(read) => read,
            Err(_) => return Err(ReadStop::Fault),
        };
        if read == 0 {
            return Ok(List::from_vec(bytes));
        }
        if limit - bytes.len() < read {
            return Err(ReadStop::TooLong);
        }
        bytes.extend_from_slice(&buf[..read])?;
    }
}

/// Writes all of `bytes`, piece by piece. After a fault the sink has a part of them from the front.
pub fn write_whole<S: Sink>(sink: &mut S, bytes: &[u8]) -> Result<(), SinkFault>
    ensures count { S.faults sink.old ≤ S.faults sink.new }
    ensures fault { OnErr result (Rose (S.faults sink.old) (S.faults sink.new)) }
    ensures whole { OnOk result (S.has sink.new ≡ appended (S.has sink.old) bytes.now) }
    ensures part { OnErr result ((n : ℕ) ×
        (n < length bytes.now) × (S.has sink.new ≡ appended (S.has sink.old) (take n bytes.now))) }
{
    let mut written = 0;
    while written < bytes.len() {
        written += sink.write(&bytes[written..])?;
    }
    Ok(())
}
