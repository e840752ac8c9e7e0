//! The files that a command names.
ghost use Rattle.std.specs.Prelude.{◌≡◌, ◌+◌, ◌≤◌, length, IfOk, IfErr};
ghost use Rattle.dw_io.specs.Outside.{Held, Rose};
ghost use Rattle.dw_input.specs.Files.{file_of, files_of};
ghost use Rattle.dw_input.specs.Statuses.{MayRefuse, ComesBefore, IsOrMemory};

use dw_io::{Files, ReadStop};
use dw_script::Status;
use dw_value::{List, Text};
use std::alloc::Global;

/// The most bytes that a schedule or a script may have: 16 MiB. The limit is this project's own.
pub const MAX_SCRIPT: usize = 16_777_216;

/// The most bytes that all files of a call may have together: 1 GiB. The limit is this project's own.
const MAX_FILES: usize = 1_073_741_824;

/// The bytes of the file `name`, where `before` bytes were read before it. Where there is none of that name (`Missing`),
/// or it is longer than `limit` bytes or with those before it than 1 GiB (`TooLong`), that is the error. A fault of the
/// files is one too (`ReadFault`, only where their count of faults rose), and so is want of memory (`Memory`).
pub fn read_file<F: Files>(
    alloc: Global,
    files: &mut F,
    name: &Text,
    limit: usize,
    before: usize,
) -> Result<List<u8>, Status>
    requires { before ≤ 1073741824 }
    ensures keeps { F.held files.new ≡ F.held files.old }
    ensures count { F.faults files.old ≤ F.faults files.new }
    ensures fault { result ≡ Err Status.ReadFault → Rose (F.faults files.old) (F.faults files.new) }
    ensures early { IfErr result ComesBefore }
    ensures all { IfOk result (λ bytes. before + length bytes ≤ 1073741824) }
    ensures had { (h : Held) → F.held files.old ≡ Some h → IfOk result (λ bytes. file_of h limit before name.now ≡ Ok bytes) }
    ensures refused { (h : Held) → F.held files.old ≡ Some h → IfErr result (MayRefuse (file_of h limit before name.now)) }
{
    let room = limit.min(MAX_FILES - before);
    match dw_io::read_file(alloc, files, name.as_str(), room) {
        Ok(Some(bytes)) => Ok(bytes),
        Ok(None) => Err(missing(name)),
        Err(ReadStop::Memory) => Err(Status::Memory),
        Err(ReadStop::Fault) => Err(Status::ReadFault),
        Err(ReadStop::TooLong) => Err(too_long(name)),
    }
}

/// The bytes of the scripts of these names, read one after another, where `before` bytes were read before them. The first
/// that can't be had gives the error, as `read_file` tells.
pub fn read_files<F: Files>(
    alloc: Global,
    files: &mut F,
    names: &[Text],
    before: usize,
) -> Result<List<List<u8>>, Status>
    requires { before ≤ 1073741824 }
    ensures keeps { F.held files.new ≡ F.held files.old }
    ensures count { F.faults files.old ≤ F.faults files.new }
    ensures fault { result ≡ Err Status.ReadFault → Rose (F.faults files.old) (F.faults files.new) }
    ensures early { IfErr result ComesBefore }
    ensures each { IfOk result (λ had. length had ≡ length names.now) }
    ensures had { (h : Held) → F.held files.old ≡ Some h → IfOk result (λ had. files_of h before names.now ≡ Ok had) }
    ensures refused { (h : Held) → F.held files.old ≡ Some h → IfErr result (MayRefuse (files_of h before names.now)) }
{
    let mut had = List::new(alloc);
    let mut total = before;
    for name in names {
        let bytes = read_file(alloc, files, name, MAX_SCRIPT, total)?;
        total += bytes.len();
        if had.push(bytes).is_err() {
            return Err(Status::Memory);
        }
    }
    Ok(had)
}

/// The status that says that no file has this name, or that there was no memory to say so.
fn missing(name: &Text) -> Status
    ensures { IsOrMemory (Status.Missing name.now) result }
{
    match name.copy() {
        Ok(name) => Status::Missing { name },
        Err(_) => Status::Memory,
    }
}

/// The status that says that the file of this name is too long, or that there was no memory to say so.
fn too_long(name: &Text) -> Status
    ensures { IsOrMemory (Status.TooLong name.now) result }
{
    match name.copy() {
        Ok(name) => Status::TooLong { name },
        Err(_) => Status::Memory,
    }
}
