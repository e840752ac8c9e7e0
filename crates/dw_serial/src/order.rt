//! The serial order of a journal's committed transactions.
ghost use Rattle.std.specs.Prelude.{◌≡◌, ◌∷◌, ◌++◌, List as Items, map, reverse, OnOk, IfOk, refl};
ghost use Rattle.std.specs.Ordering.{eq_by_cmp, as_partial_cmp};
ghost use Rattle.std.specs.Cmp.{partial_equiv_from_equiv, eq_by_cmp_equiv, partial_order_from_total};
ghost use Rattle.dw_journal.specs.declared.Event.{Event as Happened};
ghost use Rattle.dw_journal.specs.History.{events_of};
ghost use Rattle.dw_journal.specs.Transactions.{committed};
ghost use Rattle.dw_journal.specs.Serial.{serial_order};
ghost use Rattle.dw_serial.specs.Keys.{key_cmp, key_cmp_total, key_of};

use dw_journal::{Event, Journal};
use dw_value::List;
use std::alloc::{AllocError, Global};
use std::cmp::Ordering;

/// By what a commit is sorted: its low watermark ascending, and its stamp descending.
#[derive(Clone, Copy, Debug)]
struct SerialKey {
    /// The low watermark of the `commit` event.
    low: u64,
    /// The stamp, from 1.
    stamp: u64,
}

/// How two keys stand: the lower low watermark comes first, and at equal ones the greater stamp.
fn compare_keys(a: &SerialKey, b: &SerialKey) -> Ordering
    ensures { result ≡ key_cmp a.now b.now }
{
    a.low.cmp(&b.low).then(b.stamp.cmp(&a.stamp))
}

impl PartialEq for SerialKey {
    ghost eq = { eq_by_cmp key_cmp };

    ghost laws = { partial_equiv_from_equiv (eq_by_cmp_equiv key_cmp_total) };

    fn eq(&self, other: &SerialKey) -> bool {
        compare_keys(self, other).is_eq()
    }
}

impl Eq for SerialKey {
    ghost laws = { eq_by_cmp_equiv key_cmp_total };
}

impl PartialOrd for SerialKey {
    ghost partial_cmp = { as_partial_cmp key_cmp };

    ghost laws = { partial_order_from_total key_cmp_total };

    fn partial_cmp(&self, other: &SerialKey) -> Option<Ordering> {
        Some(compare_keys(self, other))
    }
}

impl Ord for SerialKey {
    ghost cmp = { key_cmp };

    ghost total = { key_cmp_total };

    ghost matches_partial_cmp = { λ _ _. refl };

    ghost matches_eq = { λ _ _. refl };

    fn cmp(&self, other: &SerialKey) -> Ordering {
        compare_keys(self, other)
    }
}

/// Puts the key of an event after the others, if it is a commit.
fn add_key(keys: &mut Vec<SerialKey>, event: &Event) -> Result<(), AllocError>
    ensures { OnOk result ((older : Items Happened) → keys.old.items ≡ reverse (map key_of (committed older)) →
        keys.new.items ≡ reverse (map key_of (committed (event.now ∷ older)))) }
{
    match event {
        Event::Commit { stamp, low, .. } => {
            keys.push(SerialKey {
                low: *low,
                stamp: *stamp,
            })?;
            Ok(())
        }
        Event::Begin { .. }
        | Event::Pass { .. }
        | Event::Wait { .. }
        | Event::Opened { .. }
        | Event::Answer { .. }
        | Event::Violation { .. }
        | Event::Refuse { .. }
        | Event::Rollback { .. }
        | Event::VacuumBegin { .. }
        | Event::VacuumSlice { .. }
        | Event::VacuumEnd { .. }
        | Event::Refresh { .. }
        | Event::End { .. } => Ok(()),
    }
}

/// The keys of the commits, the oldest first.
fn keys_of(alloc: Global, events: &[Event]) -> Result<Vec<SerialKey>, AllocError>
    ensures { IfOk result (λ keys. keys.items ≡ reverse (map key_of (committed (reverse events.now)))) }
{
    let mut keys = Vec::new(alloc);
    for event in events {
        add_key(&mut keys, event)?;
    }
    Ok(keys)
}

/// The stamps of the committed transactions in serial order: ascending low watermark, and at equal ones the later commit
/// first, after the Serial Safety Net paper. The low watermarks are those of the journal's `commit` events, whether it is
/// legal or not. It takes time in proportion to n log n for n commits. An `Err` comes only for want of memory.
pub fn serial_order(alloc: Global, journal: &Journal) -> Result<List<u64>, AllocError>
    ensures { IfOk result (λ stamps. stamps ≡ map (λ commit. commit.stamp) (serial_order journal.now)) }
{
    let mut keys = keys_of(alloc, journal.events.as_slice())?;
    keys.sort_unstable();
    stamps_of(alloc, keys.as_slice())
}

/// The stamps of keys.
fn stamps_of(alloc: Global, keys: &[SerialKey]) -> Result<List<u64>, AllocError>
    ensures { IfOk result (λ stamps. stamps ≡ map (λ key. key.stamp) keys.now) }
{
    let mut stamps = List::with_capacity(alloc, keys.len())?;
    for key in keys {
        stamps.push(key.stamp)?;
    }
    Ok(stamps)
}

#[cfg(test)]
mod tests {
    use super::*;
    use dw_journal::Shape;
    use std::test::Fail;

    /// A journal of commits alone, with these low watermarks.
    fn journal(alloc: Global, lows: &[u64]) -> Result<Journal, AllocError> {
        let mut events = List::new(alloc);
        for (place, mark) in lows.iter().enumerate() {
            events.push(Event::Commit {
                session: 1,
                statement: 1,
                stamp: place as u64 + 1,
                low: *mark,
                high: 0,
            })?;
        }
        Ok(Journal {
            shape: Shape::standard(1),
            events,
        })
    }

    /// A reader that commits after the writer whose rows it didn't see; three sessions, of which the last one's second
    /// transaction comes before its first; and journals of no commit and of equal low watermarks.
    #[test]
    fn orders_of_journals(rt: HostRuntime) -> Result<(), Fail> {
        let alloc = rt.alloc();
        let none = serial_order(alloc, &journal(alloc, &[])?)?;
        assert_eq!(rt; none.len(), 0);
        let reader = serial_order(alloc, &journal(alloc, &[1, 2, 3, 3])?)?;
        assert_eq!(rt; reader.as_slice(), [1, 2, 4, 3].as_slice());
        let sessions = serial_order(alloc, &journal(alloc, &[1, 2, 3, 4, 5, 4, 4])?)?;
        assert_eq!(rt; sessions.as_slice(), [1, 2, 3, 7, 6, 4, 5].as_slice());
        let equal = serial_order(alloc, &journal(alloc, &[1, 1, 1])?)?;
        assert_eq!(rt; equal.as_slice(), [3, 2, 1].as_slice());
        Ok(())
    }
}
