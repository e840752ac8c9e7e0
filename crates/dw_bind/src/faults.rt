//! Why an expression of known names has no kind.
use std::alloc::AllocError;

/// Why an expression of known names isn't bound.
#[derive(Clone, Copy, Debug, PartialEq, Eq)]
pub(crate) enum KindFault {
    /// Its kinds don't go together, it has a date that the calendar doesn't have, or an aggregate where none may stand.
    Clash,
    /// There was no memory.
    Memory,
}

impl From<AllocError> for KindFault {
    ghost use Rattle.std.specs.Prelude.{◌≡◌};
    ghost use Rattle.dw_bind.specs.declared.faults.KindFault.{KindFault};

    ghost from_gives = { λ _ fault. fault ≡ KindFault.Memory };

    fn from(_: AllocError) -> KindFault {
        KindFault::Memory
    }
}
