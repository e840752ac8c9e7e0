//! Why a report, or a part of it, wasn't read.
ghost use Rattle.std.specs.Prelude.{◌≡◌};
ghost use Rattle.dw_read_report.specs.declared.faults.LineFault.TheVariants.{Memory};
ghost use Rattle.dw_read_report.specs.declared.faults.PartFault.TheVariants as part;

use std::alloc::{AllocError, AllocFailed};
use thiserror::Error;

/// Why a part of a line wasn't read.
#[derive(Clone, Copy, Debug, Drop)]
pub enum LineFault {
    /// The bytes don't begin with such a part.
    Bad,
    /// Memory ran out.
    Memory,
}

impl From<AllocError> for LineFault {
    ghost from_gives = { λ _ fault. fault ≡ Memory };

    fn from(_error: AllocError) -> LineFault {
        LineFault::Memory
    }
}

impl<T: Drop> From<AllocFailed<T>> for LineFault {
    ghost from_gives = { λ _ fault. fault ≡ Memory };

    fn from(_error: AllocFailed<T>) -> LineFault {
        LineFault::Memory
    }
}

/// Why some lines weren't read.
#[derive(Clone, Copy, Debug, Drop)]
pub enum PartFault {
    /// A line isn't one of the report's: the one that begins, or should begin, so many bytes before the end.
    Bad { left: usize },
    /// Memory ran out.
    Memory,
}

impl From<AllocError> for PartFault {
    ghost from_gives = { λ _ fault. fault ≡ part.Memory };

    fn from(_error: AllocError) -> PartFault {
        PartFault::Memory
    }
}

impl<T: Drop> From<AllocFailed<T>> for PartFault {
    ghost from_gives = { λ _ fault. fault ≡ part.Memory };

    fn from(_error: AllocFailed<T>) -> PartFault {
        PartFault::Memory
    }
}

/// Why a report's journal wasn't read.
#[derive(Clone, Copy, Debug, PartialEq, Eq, Drop, Error)]
pub enum ReportFault {
    /// This line, counted from 1, is the first that isn't one of a report's journal.
    #[error("bad journal at line {line}")]
    Bad { line: u64 },
    /// Memory ran out.
    #[error("out of memory")]
    Memory,
}
