//! Why statements are refused.
ghost use Rattle.std.specs.Prelude.{◌≡◌, IfOk};

use dw_value::{List, Text};
use std::alloc::AllocError;

/// Why a statement isn't carried out. A refused statement leaves no trace but its line in the report.
///
/// The numbers are this project's own; a report prints them before the refusal's text.
#[derive(Debug, Drop)]
pub enum Refusal {
    /// Number 1: the grammar derives no statement from the text. `place` is a byte offset in the statement.
    Syntax { place: u64 },
    /// Number 2: no such name.
    Unknown { name: Text },
    /// Number 3: the name is there already.
    Exists { name: Text },
    /// Number 4: kinds that don't go together, or a wrong number of values.
    Clash,
    /// Number 5: a value that its column can't hold.
    Range,
    /// Number 7: a column that takes no NULL would hold one.
    NullIn { column: Text },
    /// Number 10: the statement would wait for sessions that wait for it. `cycle` begins with its session; each of
    /// these waits for the next, and the last for the first.
    Deadlock { cycle: List<u32> },
    /// Number 11: the block is aborted, since a statement in it was refused.
    Aborted,
    /// Number 12: the statement can't stand in a block.
    InBlock,
    /// Number 13: the vacuum of this other session runs.
    Vacuuming { session: u32 },
    /// Number 14: the table that is written would have so many rows, which are too many.
    Limit { count: u64 },
    /// Number 16: there was no memory for the answer. It may come in place of any answer.
    Memory,
}

impl Refusal {
    ghost use Rattle.dw_model.specs.Refusals.{number_of};

    /// The refusal's number: 1 to 5, 7, 10 to 14, or 16.
    pub fn number(&self) -> u8
        ensures { result ≡ number_of self.now }
    {
        match self {
            Refusal::Syntax { .. } => 1,
            Refusal::Unknown { .. } => 2,
            Refusal::Exists { .. } => 3,
            Refusal::Clash => 4,
            Refusal::Range => 5,
            Refusal::NullIn { .. } => 7,
            Refusal::Deadlock { .. } => 10,
            Refusal::Aborted => 11,
            Refusal::InBlock => 12,
            Refusal::Vacuuming { .. } => 13,
            Refusal::Limit { .. } => 14,
            Refusal::Memory => 16,
        }
    }

    /// An equal refusal, with names of its own.
    pub fn copy(&self) -> Result<Refusal, AllocError>
        ensures { IfOk result (λ copy. copy ≡ self.now) }
    {
        match self {
            Refusal::Syntax { place } => Ok(Refusal::Syntax { place: *place }),
            Refusal::Unknown { name } => Ok(Refusal::Unknown { name: name.copy()? }),
            Refusal::Exists { name } => Ok(Refusal::Exists { name: name.copy()? }),
            Refusal::Clash => Ok(Refusal::Clash),
            Refusal::Range => Ok(Refusal::Range),
            Refusal::NullIn { column } => Ok(Refusal::NullIn {
                column: column.copy()?,
            }),
            Refusal::Deadlock { cycle } => Ok(Refusal::Deadlock {
                cycle: cycle.copy()?,
            }),
            Refusal::Aborted => Ok(Refusal::Aborted),
            Refusal::InBlock => Ok(Refusal::InBlock),
            Refusal::Vacuuming { session } => Ok(Refusal::Vacuuming { session: *session }),
            Refusal::Limit { count } => Ok(Refusal::Limit { count: *count }),
            Refusal::Memory => Ok(Refusal::Memory),
        }
    }
}

#[cfg(test)]
mod tests {
    use super::*;
    use std::test::Fail;

    #[test]
    fn copies_are_equal(rt: HostRuntime) -> Result<(), Fail> {
        let given = Refusal::Unknown {
            name: Text::from_str(rt.alloc(), "stock")?,
        };
        match given.copy()? {
            Refusal::Unknown { name } => assert_eq!(rt; name.as_str(), "stock"),
            _ => assert!(rt; false, "a copy has the same form"),
        }
        match given.copy()?.copy()? {
            Refusal::Exists { name } => assert_eq!(rt; name.as_str(), "stock"),
            other => assert_eq!(rt; other.number(), 2),
        }
        for (refusal, number) in [
            (Refusal::Clash, 4),
            (
                Refusal::NullIn {
                    column: Text::new(rt.alloc()),
                },
                7,
            ),
            (Refusal::Vacuuming { session: 2 }, 13),
            (Refusal::Memory, 16),
        ] {
            assert_eq!(rt; refusal.copy()?.number(), number);
        }
        Ok(())
    }
}
