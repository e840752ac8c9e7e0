//! What a program ends with.
ghost use Rattle.std.specs.Prelude.{◌≡◌};
ghost use Rattle.dw_script.specs.Status.{exit_number};

use crate::script::ScriptCause;
use dw_value::Text;
use std::fmt;

/// What a call that runs a whole program ends with.
#[derive(Debug, Drop)]
pub enum Status {
    /// Every script was driven to its end, and all was written.
    Ok,
    /// The words of the command are not of the form that the program takes.
    Usage,
    /// A file could not be read.
    ReadFault,
    /// The report could not be written.
    WriteFault,
    /// A schedule, a journal or a script of this name is not there.
    Missing { name: Text },
    /// A script cannot be read.
    BadScript { name: Text, cause: ScriptCause },
    /// This line of the schedule, counted from 1, is not in its grammar.
    BadSchedule { line: u64 },
    /// Memory ran out.
    Memory,
    /// This line of the journal, counted from 1, is not in the report's grammar.
    BadJournal { line: u64 },
    /// This event of the journal, counted from 1, is not legal after those before it.
    NotLegal { event: u64 },
    /// The events up to this one are not those of the scripts, or the next one is wanting.
    NotFollows { event: u64 },
    /// This line after the journal, counted from 1, is not the one that the journal gives.
    WrongEnd { line: u64 },
    /// A file is longer than its limit, or with the files read before it longer than the limit of all.
    TooLong { name: Text },
}

impl Status {
    /// The number that the process ends with: 0, or from 2 to 13.
    pub fn number(&self) -> u8
        ensures { result ≡ exit_number self.now }
    {
        match self {
            Status::Ok => 0,
            Status::Usage => 2,
            Status::ReadFault => 3,
            Status::WriteFault => 4,
            Status::Missing { .. } => 5,
            Status::BadScript { .. } => 6,
            Status::BadSchedule { .. } => 7,
            Status::Memory => 8,
            Status::BadJournal { .. } => 9,
            Status::NotLegal { .. } => 10,
            Status::NotFollows { .. } => 11,
            Status::WrongEnd { .. } => 12,
            Status::TooLong { .. } => 13,
        }
    }
}

/// The line that a program prints on standard error, without its LF. A name is printed as it was given. `Ok` has no
/// line, and for `Usage` a program prints the form that it takes.
impl fmt::Display for Status {
    ghost use Rattle.std.specs.Prelude.{Some};
    ghost use Rattle.dw_script.specs.Status.{line_of};

    ghost output = { λ status. Some (line_of status) };

    fn fmt<W: fmt::Write>(&self, f: &mut fmt::Formatter<W>) -> fmt::Result {
        match self {
            Status::Ok => Ok(()),
            Status::Usage => write!(f, "usage"),
            Status::ReadFault => write!(f, "read fault"),
            Status::WriteFault => write!(f, "write fault"),
            Status::Missing { name } => write!(f, "missing {}", name.as_str()),
            Status::BadScript { name, cause } => write!(f, "bad script {}: {cause}", name.as_str()),
            Status::BadSchedule { line } => write!(f, "bad schedule at line {line}"),
            Status::Memory => write!(f, "out of memory"),
            Status::BadJournal { line } => write!(f, "bad journal at line {line}"),
            Status::NotLegal { event } => write!(f, "not legal at event {event}"),
            Status::NotFollows { event } => write!(f, "not following at event {event}"),
            Status::WrongEnd { line } => write!(f, "wrong end at line {line}"),
            Status::TooLong { name } => write!(f, "too long {}", name.as_str()),
        }
    }
}
