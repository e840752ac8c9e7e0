//! Tests of files and sinks in memory.
use super::{
    FileFault, Files, HostFiles, HostSink, Looked, MemoryFiles, MemorySink, ReadStop, Sink,
    SinkFault, read_file, write_whole,
};
use crate::whole::read_rest;
use dw_value::{List, Text};
use std::alloc::{AllocError, Global};
use std::fmt::Display;
use std::io::Print;
use std::test::Fail;
use std::{fs, io, process};

/// What a step of a reader is expected to answer.
#[derive(Clone, Copy)]
enum Step {
    Look(&'static str, Result<Looked, FileFault>),
    Read(usize, Result<&'static [u8], FileFault>),
}

const FOUND: Result<Looked, FileFault> = Ok(Looked::Found);

const ABSENT: Result<Looked, FileFault> = Ok(Looked::Absent);

fn numbers(alloc: Global, all: &[u64]) -> Result<List<u64>, AllocError> {
    Ok(List::from_vec(Vec::from_slice(alloc, all)?))
}

/// The files `a` with 5 bytes, `b` with none, and a second `a` that doesn't count.
fn three_files(alloc: Global) -> Result<List<(Text, List<u8>)>, AllocError> {
    let mut files = List::new(alloc);
    for (name, bytes) in [("a", "first"), ("b", ""), ("a", "second")] {
        let name = Text::from_str(alloc, name)?;
        let bytes = List::from_vec(Vec::from_slice(alloc, bytes.as_bytes())?);
        files.push((name, bytes))?;
    }
    Ok(files)
}

#[test]
fn memory_files_answer_as_told(rt: HostRuntime) -> Result<(), Fail> {
    let steps = [
        Step::Read(3, Ok(b"")),
        Step::Look("a", FOUND),
        Step::Read(3, Ok(b"fir")),
        Step::Read(3, Err(FileFault)),
        Step::Read(0, Ok(b"")),
        Step::Look("c", Err(FileFault)),
        Step::Read(3, Ok(b"st")),
        Step::Read(3, Ok(b"")),
        Step::Look("a", FOUND),
        Step::Look("c", ABSENT),
        Step::Read(3, Ok(b"")),
        Step::Look("b", FOUND),
        Step::Read(3, Ok(b"")),
    ];
    let mut files = MemoryFiles::new(three_files(rt.alloc())?, numbers(rt.alloc(), &[4, 6])?);
    for step in &steps {
        match step {
            Step::Look(name, answer) => assert_eq!(rt; files.look(name), *answer),
            Step::Read(len, answer) => {
                let mut buf = vec![in rt.alloc(); 0_u8; *len]?;
                let read = files.read(&mut buf).map(|n| &buf[..n]);
                assert_eq!(rt; read, *answer);
            }
        }
    }
    Ok(())
}

#[test]
fn memory_sink_takes_all_but_the_failing_writes(rt: HostRuntime) -> Result<(), Fail> {
    let mut sink = MemorySink::new(rt.alloc(), numbers(rt.alloc(), &[2])?);
    assert_eq!(rt; sink.write(b"one"), Ok(3));
    assert_eq!(rt; sink.write(b"two"), Err(SinkFault));
    assert_eq!(rt; sink.write(b""), Ok(0));
    assert_eq!(rt; write_whole(&mut sink, b", three"), Ok(()));
    assert_eq!(rt; sink.as_slice(), b"one, three".as_slice());
    Ok(())
}

#[test]
fn files_are_read_up_to_a_limit(rt: HostRuntime) -> Result<(), Fail> {
    let cases: [(&str, usize, &[u64], Result<Option<&[u8]>, ReadStop>); 9] = [
        ("a", 5, &[], Ok(Some(b"first"))),
        ("a", 6, &[], Ok(Some(b"first"))),
        ("a", 4, &[], Err(ReadStop::TooLong)),
        ("b", 0, &[], Ok(Some(b""))),
        ("c", 5, &[], Ok(None)),
        ("c", 5, &[1], Err(ReadStop::Fault)),
        ("a", 5, &[2], Err(ReadStop::Fault)),
        ("a", 5, &[3], Err(ReadStop::Fault)),
        ("a", 5, &[4], Ok(Some(b"first"))),
    ];
    for (name, limit, fails, answer) in cases {
        let mut files = MemoryFiles::new(three_files(rt.alloc())?, numbers(rt.alloc(), fails)?);
        let found = read_file(rt.alloc(), &mut files, name, limit);
        match &found {
            Ok(Some(bytes)) => assert_eq!(rt; Ok(Some(bytes.as_slice())), answer),
            Ok(None) => assert_eq!(rt; Ok(None), answer),
            Err(stop) => assert_eq!(rt; Err(*stop), answer),
        }
    }
    Ok(())
}

#[test]
fn host_files_are_found_absent_or_faults(rt: HostRuntime) -> Result<(), Fail> {
    let mut files = HostFiles::new(rt);
    assert_eq!(rt; files.look("/no/such/file"), ABSENT);
    assert_eq!(rt; files.look(""), ABSENT);
    assert_eq!(rt; files.look("/"), Err(FileFault));
    assert_eq!(rt; files.read(&mut [0; 4]), Ok(0));

    let path = format!(in rt.alloc(); "/tmp/dw_io_test_{}", process::id(rt.process()))?;
    let long = vec![in rt.alloc(); 7_u8; 20_000]?;
    fs::write(&rt, path.as_str(), long.as_slice())?;
    let looked = files.look(path.as_str());
    let below = format!(in rt.alloc(); "{path}/below")?;
    let looked_below = files.look(below.as_str());
    let read = read_rest(rt.alloc(), &mut files, 20_000);
    fs::remove_file(&rt, path.as_str())?;
    assert_eq!(rt; looked, FOUND);
    assert_eq!(rt; looked_below, Err(FileFault));
    assert!(rt; read.is_ok_and(|read| read.as_slice() == long.as_slice()));
    Ok(())
}

/// An output that takes half of what it is given.
#[derive(Drop)]
struct Halves;

impl Print for Halves {
    fn print<D: Display + Drop>(&self, _value: D) -> io::Result<()> {
        Ok(())
    }

    fn println<D: Display + Drop>(&self, _value: D) -> io::Result<()> {
        Ok(())
    }

    fn write_all(&self, _bytes: &[u8]) -> io::Result<()> {
        Ok(())
    }

    fn write_some(&self, bytes: &[u8]) -> io::Result<usize> {
        Ok(bytes.len() / 2)
    }
}

#[test]
fn host_sink_takes_at_least_a_byte(rt: HostRuntime) -> Result<(), Fail> {
    let mut sink = HostSink::new(Halves);
    assert_eq!(rt; sink.write(b"four"), Ok(2));
    assert_eq!(rt; sink.write(b"x"), Err(SinkFault));
    assert_eq!(rt; write_whole(&mut sink, b"abc"), Err(SinkFault));
    assert_eq!(rt; HostSink::new(rt).write(b""), Ok(0));
    Ok(())
}
