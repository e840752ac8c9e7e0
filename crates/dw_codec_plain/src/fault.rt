//! Why bytes could not be decoded.

ghost use Rattle.std.specs.Prelude.{◌≡◌};
ghost use Rattle.dw_codec_plain.specs.declared.fault.CodecFault.TheVariants.{Memory};

use std::alloc::{AllocError, AllocFailed};
use thiserror::Error;

/// Why a decoder gives no values.
#[derive(Clone, Copy, Debug, PartialEq, Eq, Error)]
pub enum CodecFault {
    /// The bytes are not the spelling of as many values as were asked for. `place` is the length of the
    /// longest prefix of them that begins such a spelling.
    #[error("the bytes are damaged behind the first {place}")]
    Damaged { place: u64 },
    /// Memory ran out.
    #[error("out of memory")]
    Memory,
}

impl From<AllocError> for CodecFault {
    ghost from_gives = { λ _ fault. fault ≡ Memory };

    fn from(_error: AllocError) -> CodecFault {
        CodecFault::Memory
    }
}

impl<T: Drop> From<AllocFailed<T>> for CodecFault {
    ghost from_gives = { λ _ fault. fault ≡ Memory };

    fn from(_error: AllocFailed<T>) -> CodecFault {
        CodecFault::Memory
    }
}
