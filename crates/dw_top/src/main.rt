//! The program `warehouse SCHEDULE SCRIPT...`: a schedule and 1 to 64 scripts go in, and the report of the run comes out, in
//! which each script is driven by a session of its own.
//!
//! `top` is the whole program over any files and any sink. What stands here hands it the words of the command line, the
//! machine's files and the standard output, and prints its status.
#![tactic(auto)]

mod laws;
mod rounds;
mod run;
mod top;

use dw_input::words_given;
use dw_io::{HostFiles, HostSink};
use dw_script::Status;
use std::process::ExitCode;
use top::top;

/// The form of the command.
const USAGE: &str = "usage: warehouse SCHEDULE SCRIPT...";

fn main(rt: HostRuntime) -> ExitCode {
    let status = answer(rt);
    // Where the standard error takes no line, the status's number still tells.
    let _ = match status {
        Status::Ok => Ok(()),
        Status::Usage => eprintln!(rt; "{USAGE}"),
        _ => eprintln!(rt; "{status}"),
    };
    ExitCode::from(status.number())
}

/// The status of the call over the machine's files and the standard output.
fn answer(rt: HostRuntime) -> Status {
    match words_given(rt) {
        Ok(words) => top(
            rt.alloc(),
            words.as_slice(),
            &mut HostFiles::new(rt),
            &mut HostSink::new(rt),
        ),
        Err(status) => status,
    }
}

#[cfg(test)]
mod tests;
#[cfg(test)]
mod worked;
