//! The machine's files and its standard output. No contract says what these hold, so they tell nothing of it: that they
//! hand the bytes on unchanged and in order is trusted.
ghost use Rattle.std.specs.Prelude.{◌≡◌};

use crate::outside::{FileFault, Files, Looked, Sink, SinkFault};
use std::fs::OpenFile;
use std::io::Read;
use std::rt::Files as FileSystem;
use std::{fs, io};

/// The files of a file system, by their paths.
///
/// A path under which nothing is found is absent. Anything else that goes wrong is a fault: a folder, no permission,
/// a path that names something below a file, a failed or interrupted read.
#[derive(Drop)]
pub struct HostFiles<R: FileSystem + Drop> {
    file_system: R,
    current: Option<R::File>,
    faults: u64,
}

impl<R: FileSystem + Drop> HostFiles<R> {
    /// No file is current yet, and there is no fault.
    pub fn new(file_system: R) -> HostFiles<R>
        ensures { ⟦<HostFiles<R> as Files>⟧.faults result ≡ 0 }
    {
        HostFiles {
            file_system,
            current: None,
            faults: 0,
        }
    }
}

impl<R: FileSystem + Drop> Files for HostFiles<R> {
    ghost use Rattle.std.specs.Prelude.{None, []};

    ghost held = { λ _. None };

    ghost left = { λ _. [] };

    ghost faults = { λ files. files.faults };

    fn look(&mut self, name: &str) -> Result<Looked, FileFault> {
        match open(&self.file_system, name) {
            Ok(file) => {
                self.current = Some(file);
                Ok(Looked::Found)
            }
            Err(error) if error.kind() == io::ErrorKind::NotFound => {
                self.current = None;
                Ok(Looked::Absent)
            }
            Err(_) => {
                self.faults = self.faults.saturating_add(1);
                Err(FileFault)
            }
        }
    }

    fn read(&mut self, buf: &mut [u8]) -> Result<usize, FileFault> {
        let Some(file) = &mut self.current else {
            return Ok(0);
        };
        match file.read(buf) {
            Ok(n) => Ok(n),
            Err(_) => {
                self.faults = self.faults.saturating_add(1);
                Err(FileFault)
            }
        }
    }
}

/// Opens a file to read it. A folder, which the system would open too, is an error.
fn open<R: FileSystem>(file_system: &R, name: &str) -> io::Result<R::File> {
    let file = fs::open(file_system, name)?;
    if file.metadata()?.is_dir() {
        return Err(io::ErrorKind::IsADirectory.into());
    }
    Ok(file)
}

/// The standard output, with no buffer of its own: what was taken is with the system.
///
/// A write that the system refuses or breaks off before its first byte is a fault.
#[derive(Drop)]
pub struct HostSink<R: Print + Drop> {
    output: R,
    faults: u64,
}

impl<R: Print + Drop> HostSink<R> {
    /// No fault yet.
    pub fn new(output: R) -> HostSink<R>
        ensures { ⟦<HostSink<R> as Sink>⟧.faults result ≡ 0 }
    {
        HostSink { output, faults: 0 }
    }
}

impl<R: Print + Drop> Sink for HostSink<R> {
    ghost use Rattle.std.specs.Prelude.{None};

    ghost has = { λ _. None };

    ghost faults = { λ sink. sink.faults };

    fn write(&mut self, piece: &[u8]) -> Result<usize, SinkFault> {
        match self.output.write_some(piece) {
            Ok(n) if 0 < n || piece.is_empty() => Ok(n),
            _ => {
                self.faults = self.faults.saturating_add(1);
                Err(SinkFault)
            }
        }
    }
}
