//! The program `warecheck JOURNAL SCRIPT...`: a printed report and the scripts that it is of go in, and the answer comes out,
//! that it is right, or the first thing that is wrong with it.
//!
//! `dw_check::top_check` is the whole program over any files and any sink. What stands here hands it the words of the command
//! line, the machine's files and the standard output, and prints its status.
#![tactic(auto)]

use dw_check::top_check;
use dw_input::words_given;
use dw_io::{HostFiles, HostSink};
use dw_script::Status;
use std::process::ExitCode;

/// The form of the command.
const USAGE: &str = "usage: warecheck JOURNAL SCRIPT...";

fn main(rt: HostRuntime) -> ExitCode {
    let status = answer(rt);
    // Where the standard error takes no line, the status's number still tells.
    let _ = match status {
        Status::Ok => Ok(()),
        Status::Usage => eprintln!(rt; "{USAGE}"),
        _ => eprintln!(rt; "{status}"),
    };
    ExitCode::from(status.number())
}

/// The status of the call over the machine's files and the standard output.
fn answer(rt: HostRuntime) -> Status {
    match words_given(rt) {
        Ok(words) => top_check(
            rt.alloc(),
            words.as_slice(),
            &mut HostFiles::new(rt),
            &mut HostSink::new(rt),
        ),
        Err(status) => status,
    }
}
