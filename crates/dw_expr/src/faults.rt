//! Why an expression is refused before any row is read.
use dw_value::Text;
use std::alloc::AllocError;

/// Why an expression isn't bound to the columns in sight.
#[derive(Debug, Drop)]
pub enum BindFault {
    /// Refusal 2: no column in sight has this name, or more than one has it.
    Unknown { name: Text },
    /// Refusal 4: kinds that don't go together, a date that the calendar doesn't have, or an aggregate where none may
    /// stand.
    Clash,
    /// There was no memory. It may come in place of any answer.
    Memory,
}

impl From<AllocError> for BindFault {
    ghost use Rattle.std.specs.Prelude.{◌≡◌};
    ghost use Rattle.dw_expr.specs.declared.faults.BindFault.{BindFault};

    ghost from_gives = { λ _ fault. fault ≡ BindFault.Memory };

    fn from(_: AllocError) -> BindFault {
        BindFault::Memory
    }
}
