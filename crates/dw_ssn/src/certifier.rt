//! The certifier: what it keeps of the commits, and the watermarks over them.
ghost use Rattle.std.specs.Prelude.{◌≡◌, ◌+◌, ◌<◌, ◌≤◌, [], ◌∷◌, ℕ, true, List as Items, length, map, filter, drop, max, min, nat_eq, slice_get, option_and_then, IfSome, IsSome, OnOk, OnErr, IfOk};
ghost use Rattle.dw_journal.specs.declared.Certified.{Certified};
ghost use Rattle.dw_journal.specs.Watermarks.{low_watermark, high_watermark, low_over, high_over, violated_object, least_object, written_at_low};
ghost use Rattle.dw_model.specs.Objects.{IsAscendingObjects, is_among};
ghost use Rattle.dw_ssn.specs.CommitList.{CommitList, newest_writer, entry_count};
ghost use Rattle.dw_ssn.specs.Summaries.{StandsFor, newest_of};
ghost use Rattle.dw_ssn.specs.OneObject.{low_at, seen_at, up_to};

use crate::objects::find;
use crate::summaries::{Newest, Recent, drop_last, make_room, newest_at, raise, writers_before};
use crate::violations::comes_first;
use dw_journal::Taken;
use dw_model::Object;
use std::alloc::{AllocError, Global};
use std::collections::VecDeque;
use std::marker::Model;

/// The watermarks of a transaction, and what a violation names.
#[derive(Clone, Copy, Debug, PartialEq, Eq)]
pub struct Marks {
    /// The low watermark.
    pub low: u64,
    /// The high watermark. The transaction may commit where it is below the low one.
    pub high: u64,
    /// The place, among the objects that the transaction read, of the one that a violation names: of those that a
    /// commit after the snapshot wrote whose low watermark is the transaction's own, the least. Objects are ordered by
    /// the table's name, and the definition comes before the rows. It is there wherever the low watermark is no greater
    /// than the number of commits, and so for each violation.
    pub by: Option<usize>,
}

/// What is kept of all commits, so that `watermarks` gives the two watermarks over the whole list of them for every
/// snapshot from the oldest number to the list's length. Contracts see the summaries, and speak of each list of commits
/// that they stand for: `admit` makes them stand for the list with one commit more, and `prune` for the same list with
/// a higher oldest number. An object that was read or written keeps one entry of a few words, and each commit past the
/// oldest number what it wrote.
#[derive(Debug, Drop)]
pub struct Certifier {
    oldest: u64,
    count: u64,
    kept: u64,
    objects: Vec<Object>,
    stamps: Vec<Newest>,
    recent: VecDeque<Recent>,
}

impl Model for Certifier {
    ghost use Rattle.std.specs.Prelude.{◌≡◌, ◌+◌, ◌<◌, ◌^◌, length};
    ghost use Rattle.dw_model.specs.Objects.{IsAscendingObjects};
    ghost use Rattle.dw_ssn.specs.Summaries.{Summaries};

    ghost Value = { Summaries };

    ghost view = { λ certifier. record {
      oldest = certifier.oldest;
      count = certifier.count;
      kept = certifier.kept;
      objects = certifier.objects.items;
      stamps = certifier.stamps.items;
      recent = certifier.recent.items;
    } };

    ghost invariant = { λ certifier. IsAscendingObjects certifier.objects.items
        × (length certifier.objects.items ≡ length certifier.stamps.items)
        × (certifier.count + 1 < 2 ^ 64) };
}

impl Certifier {
    /// A certifier of no commit, whose oldest number is 0.
    pub fn new(alloc: Global) -> Certifier
        ensures stands { StandsFor result (record { oldest = 0; commits = [] }) }
    {
        Certifier {
            oldest: 0,
            count: 0,
            kept: 0,
            objects: Vec::new(alloc),
            stamps: Vec::new(alloc),
            recent: VecDeque::new(alloc),
        }
    }

    /// The number of commits.
    pub fn len(&self) -> u64
        ensures count { result ≡ self.now.count }
        ensures len { (list : CommitList) → StandsFor self.now list → result ≡ length list.commits }
    {
        self.count
    }

    /// Whether there is no commit.
    pub fn is_empty(&self) -> bool
        ensures { (list : CommitList) → StandsFor self.now list → result ≡ nat_eq (length list.commits) 0 }
    {
        self.count == 0
    }

    /// The oldest snapshot that a transaction may still have. It is at most the number of commits.
    pub fn oldest(&self) -> u64
        ensures oldest { result ≡ self.now.oldest }
        ensures within { (list : CommitList) → StandsFor self.now list → result ≤ length list.commits }
    {
        self.oldest
    }

    /// The number of entries: for each object one for each of its writers past the oldest number, and one more where it
    /// has a writer at or before it. It takes no memory.
    pub fn entries(&self) -> u64
        ensures { (list : CommitList) → StandsFor self.now list → result ≡ entry_count list.oldest list.commits }
    {
        self.kept
    }

    /// The watermarks that a transaction has if it is the next one to commit, over all commits, and the object that a
    /// violation names. Its snapshot is not before the oldest number. It takes no memory.
    pub fn watermarks(&self, taken: &Taken) -> Marks
        requires oldest { self.now.oldest ≤ taken.now.snapshot }
        ensures low { (list : CommitList) → StandsFor self.now list
            → result.low ≡ low_watermark taken.now list.commits }
        ensures high { (list : CommitList) → StandsFor self.now list
            → result.high ≡ high_watermark taken.now list.commits }
        ensures by { (list : CommitList) → StandsFor self.now list
            → option_and_then (slice_get taken.now.reads) result.by ≡ violated_object taken.now list.commits }
        ensures within { IfSome result.by (λ place. place < length taken.now.reads) }
        ensures named { (list : CommitList) → StandsFor self.now list
            → result.low ≤ length list.commits → IsSome result.by }
        ensures bounded { (list : CommitList) → StandsFor self.now list → result.high ≤ length list.commits }
    {
        let bounds = self.bounds_written(taken, self.bounds_read(taken));
        Marks {
            low: bounds.low,
            high: bounds.high,
            by: self.violated_place(taken.reads.as_slice(), taken.snapshot, bounds.low),
        }
    }

    /// Adds a transaction that is committed now, and gives its stamp. The oldest number stays. Where memory runs out,
    /// or the stamps do, nothing is added.
    pub fn admit(&mut self, taken: Taken, marks: Marks) -> Result<u64, AllocError>
        requires set { IsAscendingObjects taken.writes }
        ensures stamp { (list : CommitList) → StandsFor self.old list
            → IfOk result (λ stamp. stamp ≡ length list.commits + 1) }
        ensures added { (list : CommitList) → StandsFor self.old list → OnOk result (StandsFor self.new
            (record { oldest = list.oldest; commits = record { low = marks.low; taken = taken } ∷ list.commits })) }
        ensures err { (list : CommitList) → StandsFor self.old list → OnErr result (StandsFor self.new list) }
        ensures oldest { self.new.oldest ≡ self.old.oldest }
    {
        let more = taken.writes.len() as u64;
        if self.count >= u64::MAX - 1 || self.kept > u64::MAX - more {
            return Err(AllocError);
        }
        let alloc = *self.objects.allocator();
        let before = writers_before(
            alloc,
            self.objects.as_slice(),
            self.stamps.as_slice(),
            taken.writes.as_slice(),
        )?;
        make_room(&mut self.objects, &mut self.stamps, taken.reads.as_slice())?;
        make_room(&mut self.objects, &mut self.stamps, taken.writes.as_slice())?;
        self.recent.reserve(1)?;
        let stamp = self.count + 1;
        raise(
            self.objects.as_slice(),
            &mut self.stamps,
            taken.reads.as_slice(),
            stamp,
            false,
        );
        raise(
            self.objects.as_slice(),
            &mut self.stamps,
            taken.writes.as_slice(),
            stamp,
            true,
        );
        self.recent.push_front_reserved(Recent {
            low: marks.low,
            writes: taken.writes,
            before,
        });
        self.kept += more;
        self.count = stamp;
        Ok(stamp)
    }

    /// From now on no transaction has a snapshot below `oldest`, which is at most the number of commits. A number below
    /// the oldest one changes nothing, since that never falls. It takes no memory, and the time of what it takes away.
    pub fn prune(&mut self, oldest: u64)
        requires { oldest ≤ self.old.count }
        ensures stands { (list : CommitList) → StandsFor self.old list
            → StandsFor self.new (record { oldest = max list.oldest oldest; commits = list.commits }) }
        ensures oldest { self.new.oldest ≡ max self.old.oldest oldest }
    {
        while self.oldest < oldest {
            self.drop_oldest();
        }
    }

    /// The oldest number rises by one.
    fn drop_oldest(&mut self)
        requires { self.old.oldest < self.old.count }
        ensures stands { (list : CommitList) → StandsFor self.old list
            → StandsFor self.new (record { oldest = list.oldest + 1; commits = list.commits }) }
        ensures oldest { self.new.oldest ≡ self.old.oldest + 1 }
        ensures count { self.new.count ≡ self.old.count }
    {
        self.kept = self.kept.saturating_sub(drop_last(&mut self.recent));
        self.oldest += 1;
    }

    /// The newest stamps of an object.
    fn newest(&self, object: &Object) -> Newest
        ensures { (list : CommitList) → StandsFor self.now list → result ≡ newest_of object.now list.commits }
    {
        newest_at(self.objects.as_slice(), self.stamps.as_slice(), object)
    }

    /// Of a commit past the oldest number that wrote the object: its low watermark, and the writer before it.
    fn writer_at(&self, object: &Object, at: u64) -> Writer
        requires { 0 < at }
        ensures falls { result.before < at }
        ensures is { (list : CommitList) → (commit : Certified) → (older : Items Certified) → StandsFor self.now list
            → list.oldest < at → up_to at list.commits ≡ commit ∷ older → length (commit ∷ older) ≡ at
            → is_among object.now commit.taken.writes ≡ true
            → (result.low ≡ commit.low) × (result.before ≡ newest_writer object.now older) }
    {
        let found = self.recent.get(self.count.saturating_sub(at) as usize);
        match found {
            Some(commit) => Writer {
                low: commit.low,
                before: before_in(commit, object).min(at - 1),
            },
            None => Writer { low: 0, before: 0 },
        }
    }

    /// What one object that was read adds to the watermarks: it goes from writer to writer, as far as the snapshot.
    fn bounds_of(&self, object: &Object, snapshot: u64) -> Bounds
        requires { self.now.oldest ≤ snapshot }
        ensures low { (list : CommitList) → StandsFor self.now list
            → result.low ≡ low_at (length list.commits + 1) snapshot object.now list.commits }
        ensures high { (list : CommitList) → StandsFor self.now list
            → result.high ≡ seen_at snapshot object.now list.commits }
    {
        let mut low = self.count + 1;
        let mut at = self.newest(object).writer;
        while at > snapshot {
            let writer = self.writer_at(object, at);
            low = low.min(writer.low);
            at = writer.before;
        }
        Bounds { low, high: at }
    }

    /// Whether a commit after the snapshot, of this low watermark, wrote the object.
    fn is_written_at(&self, object: &Object, snapshot: u64, low: u64) -> bool
        requires { self.now.oldest ≤ snapshot }
        ensures { (list : CommitList) → StandsFor self.now list
            → result ≡ written_at_low low snapshot list.commits object.now }
    {
        let mut at = self.newest(object).writer;
        while at > snapshot {
            let writer = self.writer_at(object, at);
            if writer.low == low {
                return true;
            }
            at = writer.before;
        }
        false
    }

    /// What the objects that were read add to the watermarks.
    fn bounds_read(&self, taken: &Taken) -> Bounds
        requires { self.now.oldest ≤ taken.now.snapshot }
        ensures low { (list : CommitList) → StandsFor self.now list
            → result.low ≡ low_watermark taken.now list.commits }
        ensures high { (list : CommitList) → StandsFor self.now list → result.high
            ≡ high_over (record { snapshot = taken.now.snapshot; reads = taken.now.reads; writes = [] }) list.commits }
    {
        let reads = taken.reads.as_slice();
        let mut bounds = Bounds {
            low: self.count + 1,
            high: 0,
        };
        let mut left = reads.len();
        while left > 0 {
            left -= 1;
            let one = self.bounds_of(&reads[left], taken.snapshot);
            bounds = Bounds {
                low: one.low.min(bounds.low),
                high: one.high.max(bounds.high),
            };
        }
        bounds
    }

    /// With what the objects that were written add to the high one.
    fn bounds_written(&self, taken: &Taken, read: Bounds) -> Bounds
        ensures low { result.low ≡ read.low }
        ensures high { (list : CommitList) → StandsFor self.now list → read.high
            ≡ high_over (record { snapshot = taken.now.snapshot; reads = taken.now.reads; writes = [] }) list.commits
            → result.high ≡ high_watermark taken.now list.commits }
    {
        let writes = taken.writes.as_slice();
        let mut high = read.high;
        let mut left = writes.len();
        while left > 0 {
            left -= 1;
            let newest = self.newest(&writes[left]);
            high = newest.writer.max(newest.reader).max(high);
        }
        Bounds {
            low: read.low,
            high,
        }
    }

    /// The place of the least object, of those read, that a commit after the snapshot, of this low watermark, wrote.
    fn violated_place(&self, reads: &[Object], snapshot: u64, low: u64) -> Option<usize>
        requires { self.now.oldest ≤ snapshot }
        ensures least { (list : CommitList) → StandsFor self.now list → option_and_then (slice_get reads.now) result
            ≡ least_object (filter (written_at_low low snapshot list.commits) reads.now) }
        ensures within { IfSome result (λ place. place < length reads.now) }
    {
        let mut least = None;
        for (place, object) in reads.iter().enumerate() {
            if self.is_written_at(object, snapshot, low) && comes_first(object, reads, least) {
                least = Some(place);
            }
        }
        least
    }
}

/// A low and a high watermark.
#[derive(Clone, Copy)]
struct Bounds {
    low: u64,
    high: u64,
}

/// A commit that wrote an object: its low watermark, and the stamp of the writer before it.
#[derive(Clone, Copy)]
struct Writer {
    low: u64,
    before: u64,
}

/// The writer of the object before this commit, or 0.
fn before_in(commit: &Recent, object: &Object) -> u64
    ensures { (older : Items Certified) → IsAscendingObjects commit.now.writes
        → is_among object.now commit.now.writes ≡ true
        → commit.now.before ≡ map (λ other. newest_writer other older) commit.now.writes
        → result ≡ newest_writer object.now older }
{
    match find(commit.writes.as_slice(), object) {
        Ok(place) => commit.before.get(place).copied().unwrap_or(0),
        Err(_) => 0,
    }
}

#[cfg(test)]
mod tests {
    use super::*;
    use dw_model::add_objects;
    use dw_value::{List, Text};
    use std::test::Fail;

    /// A letter in lower case names a table's rows, one in upper case its definition.
    fn objects(alloc: Global, letters: &str) -> Result<List<Object>, AllocError> {
        let mut objects = List::new(alloc);
        for letter in letters.chars() {
            let mut name = Text::new(alloc);
            name.push(letter.to_ascii_lowercase())?;
            objects.push(if letter.is_ascii_lowercase() {
                Object::Rows(name)
            } else {
                Object::Def(name)
            })?;
        }
        Ok(objects)
    }

    /// The set of these objects.
    fn set(alloc: Global, letters: &str) -> Result<List<Object>, AllocError>
        ensures { IfOk result IsAscendingObjects }
    {
        let mut set = List::new(alloc);
        add_objects(&mut set, objects(alloc, letters)?)?;
        Ok(set)
    }

    /// A transaction of this snapshot that reads and writes these objects.
    fn taken(alloc: Global, snapshot: u64, reads: &str, writes: &str) -> Result<Taken, AllocError>
        ensures { IfOk result (λ taken. IsAscendingObjects taken.writes) }
    {
        Ok(Taken {
            snapshot,
            reads: objects(alloc, reads)?,
            writes: set(alloc, writes)?,
        })
    }

    /// Commits one after another, each with its snapshot, what it reads and what it writes, and its marks. They are
    /// those of three sessions, whose last transaction comes before its own session's first in serial order.
    #[test]
    fn marks_of_commits(rt: HostRuntime) -> Result<(), Fail> {
        let commits = [
            (0, "Xx", "Xx", 1, 0, None),
            (1, "Yy", "Yy", 2, 0, None),
            (2, "Zz", "Zz", 3, 0, None),
            (3, "X", "x", 4, 1, None),
            (3, "Z", "z", 5, 3, None),
            (3, "XxY", "y", 4, 2, Some(1)),
            (5, "Yy", "", 4, 2, Some(1)),
        ];
        let mut certifier = Certifier::new(rt.alloc());
        assert!(rt; certifier.is_empty());
        for (place, (snapshot, reads, writes, low, high, by)) in commits.into_iter().enumerate() {
            let taken = taken(rt.alloc(), snapshot, reads, writes)?;
            assert!(rt; certifier.oldest() <= taken.snapshot);
            let marks = certifier.watermarks(&taken);
            assert_eq!(rt; marks, Marks { low, high, by }, "at {place}");
            let stamp = certifier.admit(taken, marks)?;
            assert_eq!(rt; stamp, place as u64 + 1);
            assert_eq!(rt; certifier.len(), stamp);
        }
        Ok(())
    }

    /// Marks of transactions that aren't admitted. The first is the second half of a write skew.
    #[test]
    fn marks_of_violations(rt: HostRuntime) -> Result<(), Fail> {
        let commits = [
            (0, "Mm", "Mm"),
            (1, "Nn", "Nn"),
            (2, "MmN", "n"),
            (3, "Aa", "Aa"),
        ];
        let mut certifier = Certifier::new(rt.alloc());
        for (snapshot, reads, writes) in commits {
            let taken = taken(rt.alloc(), snapshot, reads, writes)?;
            assert!(rt; certifier.oldest() <= taken.snapshot);
            let marks = certifier.watermarks(&taken);
            certifier.admit(taken, marks)?;
        }
        let violations = [
            (2, "NnM", "m", 3, 3, Some(1)),
            (2, "an", "m", 3, 3, Some(1)),
            (3, "aA", "a", 4, 4, Some(1)),
        ];
        for (snapshot, reads, writes, low, high, by) in violations {
            let taken = taken(rt.alloc(), snapshot, reads, writes)?;
            assert!(rt; certifier.oldest() <= taken.snapshot);
            assert_eq!(rt;
                certifier.watermarks(&taken),
                Marks { low, high, by },
                "{reads}"
            );
        }
        let last = certifier.len();
        certifier.prune(last);
        certifier.prune(0);
        assert_eq!(rt; certifier.oldest(), 4);
        Ok(())
    }

    /// A table is created, and rows are put into it three times: all is pruned, or a snapshot after the first commit
    /// stays open.
    #[test]
    fn entries_of_commits(rt: HostRuntime) -> Result<(), Fail> {
        for (open, wanted) in [(9, [2, 2, 2, 2]), (1, [2, 3, 4, 5])] {
            let mut certifier = Certifier::new(rt.alloc());
            for (place, entries) in wanted.into_iter().enumerate() {
                let taken = if place == 0 {
                    taken(rt.alloc(), 0, "Tt", "Tt")?
                } else {
                    taken(rt.alloc(), place as u64, "T", "t")?
                };
                assert!(rt; certifier.oldest() <= taken.snapshot);
                let marks = certifier.watermarks(&taken);
                let stamp = certifier.admit(taken, marks)?;
                let last = certifier.len();
                assert_eq!(rt; stamp, last);
                certifier.prune(last.min(open));
                assert_eq!(rt; certifier.entries(), entries, "at {place}");
            }
        }
        Ok(())
    }
}
