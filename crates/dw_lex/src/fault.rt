//! Why a text has no tokens.
use std::alloc::AllocError;

/// Why a text has no tokens.
#[derive(Clone, Copy, Debug, PartialEq, Eq)]
pub enum LexFault {
    /// No token begins at this place, a byte offset in the text.
    Foreign { place: u64 },
    /// There was no memory for the tokens.
    Memory,
}

impl From<AllocError> for LexFault {
    ghost use Rattle.std.specs.Prelude.{◌≡◌};
    ghost use Rattle.dw_lex.specs.declared.fault.LexFault.TheVariants.{Memory};

    ghost from_gives = { λ _ fault. fault ≡ Memory };

    fn from(_: AllocError) -> LexFault {
        LexFault::Memory
    }
}
