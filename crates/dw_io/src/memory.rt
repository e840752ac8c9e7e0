//! Files and a sink in memory, which fail at the calls that they are told to fail at.
ghost use Rattle.std.specs.Prelude.{◌≡◌, ◌+◌, ◌^◌, ◌<◌, ◌≤◌, ◌↔◌, [], ◌++◌, length, take, drop, min, if◌then◌else◌, is_err, IsTrue, IsErr, IfOk, OnOk, OnErr, option_map};
ghost use Rattle.dw_io.specs.Outside.{Rose, one_more};
ghost use Rattle.dw_io.specs.Memory.{bytes_under, bytes_at, left_of, fails_at};

use crate::calls::Calls;
use crate::outside::{FileFault, Files, Looked, Sink, SinkFault};
use dw_value::{List, Text};
use std::alloc::Global;
use std::marker::Model;

/// Named files held in memory. Of two with one name the first counts.
#[derive(Debug, Drop)]
pub struct MemoryFiles {
    files: List<(Text, List<u8>)>,
    current: Option<usize>,
    read: usize,
    calls: Calls,
}

impl Model for MemoryFiles {
    ghost use Rattle.dw_io.specs.Memory.{MemoryOfFiles, left_of};

    ghost Value = { MemoryOfFiles };

    ghost view = { λ m. record {
      entries = m.files;
      left = left_of m.files m.current m.read;
      fails = m.calls.fails;
      calls = m.calls.made;
      faults = m.calls.faults;
    } };
}

impl MemoryFiles {
    /// Holds `files`, and fails at the calls whose numbers are in `fails`. Looks and reads are numbered together, from
    /// 1; a number stops at the greatest of 64 bits.
    pub fn new(files: List<(Text, List<u8>)>, fails: List<u64>) -> MemoryFiles
        ensures entries { result.entries ≡ files }
        ensures left { result.left ≡ [] }
        ensures fails { result.fails ≡ fails }
        ensures calls { result.calls ≡ 0 }
        ensures faults { result.faults ≡ 0 }
    {
        MemoryFiles {
            files,
            current: None,
            read: 0,
            calls: Calls::new(fails),
        }
    }
}

impl Files for MemoryFiles {
    ghost use Rattle.std.specs.Prelude.{Some};
    ghost use Rattle.dw_io.specs.Memory.{bytes_under};

    ghost held = { λ m. Some (bytes_under m.entries) };

    ghost left = { λ m. m.left };

    ghost faults = { λ m. m.faults };

    fn look(&mut self, name: &str) -> Result<Looked, FileFault>
        ensures entries { self.new.entries ≡ self.old.entries }
        ensures fails { self.new.fails ≡ self.old.fails }
        ensures calls { self.new.calls ≡ one_more self.old.calls }
        ensures fault { IsErr result ↔ IsTrue (fails_at self.old.fails (one_more self.old.calls)) }
        ensures faults { self.new.faults ≡ (if is_err result then one_more self.old.faults else self.old.faults) }
        ensures count { self.old.faults ≤ self.new.faults }
        ensures found { result ≡ Ok Looked.Found → bytes_under self.old.entries name.now ≡ Some self.new.left }
        ensures absent { result ≡ Ok Looked.Absent → bytes_under self.old.entries name.now ≡ None }
        ensures nothing { result ≡ Ok Looked.Absent → self.new.left ≡ [] }
        ensures stands { OnErr result (self.new.left ≡ self.old.left) }
    {
        if self.calls.begin() {
            return Err(FileFault);
        }
        self.read = 0;
        self.current = place_of(&self.files, name);
        Ok(match self.current {
            Some(_) => Looked::Found,
            None => Looked::Absent,
        })
    }

    fn read(&mut self, buf: &mut [u8]) -> Result<usize, FileFault>
        ensures entries { self.new.entries ≡ self.old.entries }
        ensures fails { self.new.fails ≡ self.old.fails }
        ensures calls { self.new.calls ≡ one_more self.old.calls }
        ensures fault { IsErr result ↔ IsTrue (fails_at self.old.fails (one_more self.old.calls)) }
        ensures faults { self.new.faults ≡ (if is_err result then one_more self.old.faults else self.old.faults) }
        ensures count { self.old.faults ≤ self.new.faults }
        ensures taken { IfOk result (λ n. n ≡ min (length buf.old) (length self.old.left)) }
        ensures bytes { IfOk result (λ n. buf.new ≡ take n self.old.left ++ drop n buf.old) }
        ensures left { IfOk result (λ n. self.new.left ≡ drop n self.old.left) }
        ensures stands { OnErr result (self.new.left ≡ self.old.left) }
    {
        if self.calls.begin() {
            return Err(FileFault);
        }
        let left = unread(&self.files, self.current, self.read);
        let n = left.len().min(buf.len());
        buf[..n].copy_from_slice(&left[..n]);
        self.read += n;
        Ok(n)
    }
}

/// The place of the first file of that name.
fn place_of(files: &List<(Text, List<u8>)>, name: &str) -> Option<usize>
    ensures { bytes_under files.now name.now ≡ option_map (bytes_at files.now) result }
{
    for (place, file) in files.as_slice().iter().enumerate() {
        if file.0.as_str() == name {
            return Some(place);
        }
    }
    None
}

/// What of the current file wasn't read yet.
fn unread(files: &List<(Text, List<u8>)>, current: Option<usize>, read: usize) -> &[u8]
    ensures left { result.now ≡ left_of files.now current read }
    ensures fits { read + length result.now < 2 ^ 64 }
{
    let Some(place) = current else {
        return &[];
    };
    match files.get(place) {
        Some(file) => after(file.1.as_slice(), read),
        None => &[],
    }
}

/// What follows the first `read` bytes.
fn after(bytes: &[u8], read: usize) -> &[u8]
    ensures rest { result.now ≡ drop read bytes.now }
    ensures fits { read + length result.now < 2 ^ 64 }
{
    if read < bytes.len() {
        &bytes[read..]
    } else {
        &[]
    }
}

/// A sink whose bytes are held in memory. Where memory runs out for them, the write is a fault.
#[derive(Debug, Drop)]
pub struct MemorySink {
    bytes: Vec<u8>,
    calls: Calls,
}

impl Model for MemorySink {
    ghost use Rattle.dw_io.specs.Memory.{MemoryOfSink};

    ghost Value = { MemoryOfSink };

    ghost view = { λ m. record {
      bytes = m.bytes.items;
      fails = m.calls.fails;
      calls = m.calls.made;
      faults = m.calls.faults;
    } };
}

impl MemorySink {
    /// A sink that has no byte yet, and that fails at the writes whose numbers, counted from 1, are in `fails`; a
    /// number stops at the greatest of 64 bits.
    pub fn new(alloc: Global, fails: List<u64>) -> MemorySink
        ensures bytes { result.bytes ≡ [] }
        ensures fails { result.fails ≡ fails }
        ensures calls { result.calls ≡ 0 }
        ensures faults { result.faults ≡ 0 }
    {
        MemorySink {
            bytes: Vec::new(alloc),
            calls: Calls::new(fails),
        }
    }

    /// The bytes so far.
    pub fn as_slice(&self) -> &[u8]
        ensures { result.now ≡ self.now.bytes }
    {
        self.bytes.as_slice()
    }
}

impl Sink for MemorySink {
    ghost use Rattle.std.specs.Prelude.{Some};

    ghost has = { λ m. Some m.bytes };

    ghost faults = { λ m. m.faults };

    /// Takes the whole piece, unless the write is to fail or memory runs out.
    fn write(&mut self, piece: &[u8]) -> Result<usize, SinkFault>
        ensures fails { self.new.fails ≡ self.old.fails }
        ensures calls { self.new.calls ≡ one_more self.old.calls }
        ensures fault { IsTrue (fails_at self.old.fails (one_more self.old.calls)) → IsErr result }
        ensures faults { self.new.faults ≡ (if is_err result then one_more self.old.faults else self.old.faults) }
        ensures count { self.old.faults ≤ self.new.faults }
        ensures whole { IfOk result (λ n. n ≡ length piece.now) }
        ensures takes { OnOk result (self.new.bytes ≡ self.old.bytes ++ piece.now) }
        ensures stands { OnErr result (self.new.bytes ≡ self.old.bytes) }
    {
        if self.calls.begin() {
            return Err(SinkFault);
        }
        if self.bytes.extend_from_slice(piece).is_err() {
            self.calls.count_fault();
            return Err(SinkFault);
        }
        Ok(piece.len())
    }
}
