//! What is kept of the commits.
ghost use Rattle.std.specs.Prelude.{◌≡◌, ◌∷◌, [], ◌≤◌, ◌++◌, ℕ, true, List as Items, length, map, filter, not, ◌==◌, IfOk, OnOk, if◌then◌else◌};
ghost use Rattle.dw_model.specs.declared.objects.Object.{Object as Thing};
ghost use Rattle.dw_model.specs.Objects.{IsAscendingObjects, is_among};
ghost use Rattle.dw_ssn.specs.declared.summaries.Recent.{Recent as Commit};
ghost use Rattle.dw_ssn.specs.Summaries.{newest_at};
ghost use Rattle.dw_ssn.specs.Raised.{raised};

use crate::objects::find;
use dw_model::Object;
use dw_value::List;
use std::alloc::{AllocError, Global};
use std::collections::VecDeque;

/// The newest stamps of an object.
#[derive(Clone, Copy, Debug)]
pub(crate) struct Newest {
    /// The greatest stamp of a commit that wrote it, or 0.
    pub(crate) writer: u64,
    /// The greatest stamp of a commit that read it, or 0.
    pub(crate) reader: u64,
}

/// A commit past the oldest number.
#[derive(Debug, Drop)]
pub(crate) struct Recent {
    pub(crate) low: u64,
    pub(crate) writes: List<Object>,
    /// For each object that it wrote, the stamp of the writer before it, or 0.
    pub(crate) before: List<u64>,
}

/// The newest stamps that are kept of an object; zeros where none are.
pub(crate) fn newest_at(objects: &[Object], stamps: &[Newest], object: &Object) -> Newest
    requires ascending { IsAscendingObjects objects.now }
    requires len { length objects.now ≡ length stamps.now }
    ensures { result ≡ newest_at object.now objects.now stamps.now }
{
    match find(objects, object) {
        Ok(place) => stamps[place],
        Err(_) => Newest {
            writer: 0,
            reader: 0,
        },
    }
}

/// The newest writer of each of these objects.
pub(crate) fn writers_before(
    alloc: Global,
    objects: &[Object],
    stamps: &[Newest],
    writes: &[Object],
) -> Result<List<u64>, AllocError>
    requires ascending { IsAscendingObjects objects.now }
    requires len { length objects.now ≡ length stamps.now }
    ensures { IfOk result (λ before. before
        ≡ map (λ object. (newest_at object objects.now stamps.now).writer) writes.now) }
{
    let mut before = List::new(alloc);
    for object in writes {
        before.push(newest_at(objects, stamps, object).writer)?;
    }
    Ok(before)
}

/// Each of these objects has its place, with zeros where it had none. Where memory runs out, some have.
pub(crate) fn make_room(
    objects: &mut Vec<Object>,
    stamps: &mut Vec<Newest>,
    more: &[Object],
) -> Result<(), AllocError>
    requires ascending { IsAscendingObjects objects.old.items }
    requires len { length objects.old.items ≡ length stamps.old.items }
    ensures ascending { IsAscendingObjects objects.new.items }
    ensures len { length objects.new.items ≡ length stamps.new.items }
    ensures same { (object : Thing) → newest_at object objects.new.items stamps.new.items
        ≡ newest_at object objects.old.items stamps.old.items }
    ensures stay { (object : Thing) → is_among object objects.old.items ≡ true
        → is_among object objects.new.items ≡ true }
    ensures there { (object : Thing) → is_among object more.now ≡ true
        → OnOk result (is_among object objects.new.items ≡ true) }
{
    for object in more {
        add(objects, stamps, object)?;
    }
    Ok(())
}

/// The object has its place, with zeros where it had none.
fn add(
    objects: &mut Vec<Object>,
    stamps: &mut Vec<Newest>,
    object: &Object,
) -> Result<(), AllocError>
    requires ascending { IsAscendingObjects objects.old.items }
    requires len { length objects.old.items ≡ length stamps.old.items }
    ensures ascending { IsAscendingObjects objects.new.items }
    ensures len { length objects.new.items ≡ length stamps.new.items }
    ensures same { (other : Thing) → newest_at other objects.new.items stamps.new.items
        ≡ newest_at other objects.old.items stamps.old.items }
    ensures stay { (other : Thing) → is_among other objects.old.items ≡ true → is_among other objects.new.items ≡ true }
    ensures there { OnOk result (is_among object.now objects.new.items ≡ true) }
{
    let Err(place) = find(objects.as_slice(), object) else {
        return Ok(());
    };
    let copy = object.copy()?;
    objects.reserve(1)?;
    stamps.reserve(1)?;
    let _added = objects.insert(place, copy);
    let _stamped = stamps.insert(
        place,
        Newest {
            writer: 0,
            reader: 0,
        },
    );
    Ok(())
}

/// Each of these objects that has its place is written by a commit of this stamp, or read by one.
pub(crate) fn raise(
    objects: &[Object],
    stamps: &mut Vec<Newest>,
    some: &[Object],
    stamp: u64,
    is_written: bool,
)
    requires ascending { IsAscendingObjects objects.now }
    requires len { length objects.now ≡ length stamps.old.items }
    ensures len { length stamps.new.items ≡ length stamps.old.items }
    ensures raised { (object : Thing) → (is_among object some.now ≡ true → is_among object objects.now ≡ true)
        → newest_at object objects.now stamps.new.items
        ≡ (if is_among object some.now then raised stamp is_written (newest_at object objects.now stamps.old.items)
        else newest_at object objects.now stamps.old.items) }
{
    for object in some {
        if let Ok(place) = find(objects, object) {
            stamps[place] = raised(stamps[place], stamp, is_written);
        }
    }
}

/// The stamps with this one, of a writer or a reader.
fn raised(newest: Newest, stamp: u64, is_written: bool) -> Newest
    ensures { result ≡ raised stamp is_written newest }
{
    if is_written {
        Newest {
            writer: stamp,
            reader: newest.reader,
        }
    } else {
        Newest {
            writer: newest.writer,
            reader: stamp,
        }
    }
}

/// The oldest of these commits is taken away. It gives how many of its objects had a writer before.
pub(crate) fn drop_last(recent: &mut VecDeque<Recent>) -> u64
    ensures { (rest : Items Commit) → (commit : Commit) → recent.old.items ≡ rest ++ commit ∷ []
        → (recent.new.items ≡ rest) × (result ≡ length (filter (λ stamp. not (stamp == 0)) commit.before)) }
{
    match recent.pop_back() {
        Some(commit) => later_writers(commit.before.as_slice()),
        None => 0,
    }
}

/// How many of these writers there are.
fn later_writers(before: &[u64]) -> u64
    ensures { result ≡ length (filter (λ stamp. not (stamp == 0)) before.now) }
{
    before.iter().filter(|stamp| **stamp != 0).count() as u64
}
