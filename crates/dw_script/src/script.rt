//! Scripts, and why one cannot be read.
ghost use Rattle.std.specs.Prelude.{◌≡◌};
ghost use Rattle.dw_script.specs.declared.script.ScriptFault.TheVariants.{Memory};

use dw_value::List;
use std::alloc::{AllocError, AllocFailed};
use std::fmt;
use thiserror::Error;

/// The most statements that a script may have. The limit is this project's own.
pub const MAX_STATEMENTS: usize = 100_000;

/// The statements of a script.
#[derive(Debug, Drop)]
pub struct Script {
    /// The bytes of each statement, in order, from its first byte on that is no blank and in no comment, without the
    /// `;` that ends it.
    pub statements: List<List<u8>>,
}

/// Why a script cannot be read. Where several causes hold, the first in this order is told.
#[derive(Clone, Copy, Debug, PartialEq, Eq)]
pub enum ScriptCause {
    /// The script is not UTF-8. Its longest front that is UTF-8 has `place` bytes.
    NotUtf8 { place: u64 },
    /// The text or the quoted name that begins at the byte `place`, counted from 0, is not closed.
    OpenText { place: u64 },
    /// The block comment that begins at the byte `place`, counted from 0, is not closed. Of nested ones it is the
    /// outermost.
    OpenComment { place: u64 },
    /// The script has more than 100,000 statements.
    TooMany,
}

/// The cause as the line of a `Status` tells it.
impl fmt::Display for ScriptCause {
    ghost use Rattle.std.specs.Prelude.{Some};
    ghost use Rattle.dw_script.specs.Status.{cause_text};

    ghost output = { λ cause. Some (cause_text cause) };

    fn fmt<W: fmt::Write>(&self, f: &mut fmt::Formatter<W>) -> fmt::Result {
        match self {
            ScriptCause::NotUtf8 { place } => write!(f, "not utf-8 at {place}"),
            ScriptCause::OpenText { place } => write!(f, "open text at {place}"),
            ScriptCause::OpenComment { place } => write!(f, "open comment at {place}"),
            ScriptCause::TooMany => write!(f, "too many statements"),
        }
    }
}

impl std::error::Error for ScriptCause {}

/// Why a script was not split.
#[derive(Debug, Drop, Error)]
pub enum ScriptFault {
    /// The script cannot be read.
    #[error("{0}")]
    Bad(ScriptCause),
    /// Memory ran out.
    #[error("out of memory")]
    Memory,
}

impl From<AllocError> for ScriptFault {
    ghost from_gives = { λ _ fault. fault ≡ Memory };

    fn from(_error: AllocError) -> ScriptFault {
        ScriptFault::Memory
    }
}

impl<T: Drop> From<AllocFailed<T>> for ScriptFault {
    ghost from_gives = { λ _ fault. fault ≡ Memory };

    fn from(_error: AllocFailed<T>) -> ScriptFault {
        ScriptFault::Memory
    }
}
