//! Numbers of a journal: its commits, snapshots, horizon. They take no memory.
ghost use Rattle.std.specs.Prelude.{◌≡◌, ◌+◌, ◌^◌, ◌<◌, ◌≤◌, [], ◌∷◌, List as Items, Option as Optional};
ghost use Rattle.std.specs.List.{fold, cons_option};
ghost use Rattle.dw_journal.specs.History.{events_of};
ghost use Rattle.dw_journal.specs.Transactions.{Transaction, commits, horizon, least_with, snapshot_of, snapshot_in, transaction_after};
ghost use Rattle.dw_journal.specs.declared.Event.{Event as Happened};

use crate::{Event, Journal};

/// How many transactions were committed. It takes no memory.
pub fn commits(journal: &Journal) -> u64
    ensures { result ≡ commits (events_of journal.now) }
{
    let mut count = 0;
    for event in journal.events.as_slice() {
        count = count_after(event, count);
    }
    count
}

/// The number of commits with this event, where there were so many before it.
fn count_after(event: &Event, before: u64) -> u64
    requires { before + 1 < 2 ^ 64 }
    ensures commits { (older : Items Happened) → commits older ≡ before → commits (event.now ∷ older) ≡ result }
    ensures bound { result ≤ before + 1 }
{
    match event {
        Event::Commit { .. } => before + 1,
        Event::Begin { .. }
        | Event::Pass { .. }
        | Event::Wait { .. }
        | Event::Opened { .. }
        | Event::Answer { .. }
        | Event::Violation { .. }
        | Event::Refuse { .. }
        | Event::Rollback { .. }
        | Event::VacuumBegin { .. }
        | Event::VacuumSlice { .. }
        | Event::VacuumEnd { .. }
        | Event::Refresh { .. }
        | Event::End { .. } => before,
    }
}

/// The snapshot of a session's open transaction: the number of commits that it sees. `None` comes exactly where no
/// transaction of the session is open. It takes no memory.
pub fn snapshot_of(journal: &Journal, session: u32) -> Option<u64>
    ensures { result ≡ snapshot_of session (events_of journal.now) }
{
    let mut snapshot = None;
    for event in journal.events.as_slice() {
        if event.session() == Some(session) {
            snapshot = snapshot_after(event, snapshot);
        }
    }
    snapshot
}

/// The snapshot of the open transaction of an event's session, where it was this before the event.
fn snapshot_after(event: &Event, before: Option<u64>) -> Option<u64>
    ensures { (transaction : Optional Transaction) → snapshot_in transaction ≡ before →
        snapshot_in (transaction_after event.now transaction) ≡ result }
{
    match event {
        Event::Opened { snapshot, .. } => before.or(Some(*snapshot)),
        Event::Commit { .. }
        | Event::Violation { .. }
        | Event::Refuse { .. }
        | Event::Rollback { .. }
        | Event::End { .. } => None,
        Event::Begin { .. }
        | Event::Pass { .. }
        | Event::Wait { .. }
        | Event::Answer { .. }
        | Event::VacuumBegin { .. }
        | Event::VacuumSlice { .. }
        | Event::VacuumEnd { .. }
        | Event::Refresh { .. } => before,
    }
}

/// The horizon: the least snapshot of an open transaction, or the number of commits where none is open. It takes no
/// memory.
pub fn horizon(journal: &Journal) -> u64
    ensures { result ≡ horizon journal.now.shape.sessions (events_of journal.now) }
{
    let mut least = None;
    for before in 0..journal.shape.sessions {
        least = least_with(least, snapshot_of(journal, before + 1));
    }
    least.unwrap_or(commits(journal))
}

/// The least number so far, with one more, if there is one.
fn least_with(least: Option<u64>, number: Option<u64>) -> Option<u64>
    ensures { result ≡ fold least_with least (cons_option number []) }
{
    match (least, number) {
        (Some(least), Some(number)) => Some(least.min(number)),
        (least, None) => least,
        (None, number) => number,
    }
}

#[cfg(test)]
mod tests {
    use super::*;
    use crate::{Route, Shape};
    use dw_model::{Answer, Object, Word};
    use dw_value::{List, Text};
    use std::alloc::Global;
    use std::test::Fail;

    /// An event of a session: a block's begin, an opening at this snapshot, an answer, a commit of this stamp, a
    /// violation, a rollback, a refresh, an end.
    fn event(alloc: Global, letter: char, session: u32, number: u64) -> Event {
        let statement = 1;
        match letter {
            'b' => Event::Begin { session, statement },
            'o' => Event::Opened {
                session,
                statement,
                snapshot: number,
                route: Route::Main,
            },
            'a' => Event::Answer {
                session,
                statement,
                answer: Answer::Plain {
                    word: Word::CreateTable,
                },
            },
            'c' => Event::Commit {
                session,
                statement,
                stamp: number,
                low: number,
                high: 0,
            },
            'v' => Event::Violation {
                session,
                statement,
                low: number,
                high: number,
                object: Object::Rows(Text::new(alloc)),
            },
            'r' => Event::Rollback { session, statement },
            'f' => Event::Refresh {
                cluster: 1,
                stamp: number,
            },
            _ => Event::End { session },
        }
    }

    /// After each event the number of commits, the snapshot of session 1, and the horizon of two sessions.
    #[test]
    fn numbers_of_a_journal(rt: HostRuntime) -> Result<(), Fail> {
        let mut journal = Journal {
            shape: Shape::standard(2),
            events: List::new(rt.alloc()),
        };
        for (letter, session, number, count, snapshot, least) in [
            ('o', 1, 0, 0, Some(0), 0),
            ('a', 1, 0, 0, Some(0), 0),
            ('c', 1, 1, 1, None, 1),
            ('b', 1, 0, 1, None, 1),
            ('o', 2, 1, 1, None, 1),
            ('c', 2, 2, 2, None, 2),
            ('o', 1, 2, 2, Some(2), 2),
            ('a', 1, 0, 2, Some(2), 2),
            ('o', 2, 2, 2, Some(2), 2),
            ('c', 2, 3, 3, Some(2), 2),
            ('o', 2, 3, 3, Some(2), 2),
            ('o', 1, 2, 3, Some(2), 2),
            ('f', 0, 3, 3, Some(2), 2),
            ('v', 1, 3, 3, None, 3),
            ('r', 2, 0, 3, None, 3),
            ('e', 1, 0, 3, None, 3),
        ] {
            journal
                .events
                .push(event(rt.alloc(), letter, session, number))?;
            assert_eq!(rt; commits(&journal), count, "after {letter} of {session}");
            assert_eq!(rt;
                snapshot_of(&journal, 1),
                snapshot,
                "after {letter} of {session}"
            );
            assert_eq!(rt; horizon(&journal), least, "after {letter} of {session}");
        }
        Ok(())
    }
}
