//! Tests of slices.
ghost use Rattle.std.specs.Prelude.{◌≡◌, ◌+◌, ◌^◌, ◌<◌, ◌≤◌, [], ◌∷◌, All, IfOk};
ghost use Rattle.std.specs.List.{range_with_len};
ghost use Rattle.dw_slice.specs.Columns.{columns_of, FitsColumns};
ghost use Rattle.dw_slice.specs.Slices.{AreEntries, ids_of, fresh_ids, fresh_rows};

use crate::packed::Storage;
use crate::slices::{Entry, Fresh, Slice};
use crate::steps::Steps;
use dw_model::{Column, TableDef};
use dw_value::{Encoding, Kind, List, Row, Style, Text, Value};
use std::alloc::{AllocError, Global};
use std::marker::Brand;
use std::process::Abort;
use std::sync::ledger::{Blank, Ledger};
use std::test::Fail;

const COLUMN: Storage = Storage {
    kind: Kind::Date,
    encoding: Encoding::Delta,
};

/// A table of one column.
fn table(alloc: Global) -> Result<TableDef, AllocError>
    ensures { IfOk result (λ def. columns_of def ≡ COLUMN ∷ []) }
{
    let mut columns = List::new(alloc);
    columns.push(Column {
        name: Text::from_str(alloc, "day")?,
        kind: COLUMN.kind,
        not_null: false,
        default: Value::Null,
        encoding: COLUMN.encoding,
    })?;
    Ok(TableDef {
        name: Text::from_str(alloc, "t")?,
        columns,
        style: Style::Even,
        sort: List::new(alloc),
    })
}

/// A row of the table: a day, or NULL.
fn row(alloc: Global, day: Option<i32>) -> Result<Row, AllocError>
    ensures { IfOk result (FitsColumns (COLUMN ∷ [])) }
{
    let mut values = List::new(alloc);
    match day {
        Some(day) => values.push(Value::Day(day))?,
        None => values.push(Value::Null)?,
    }
    Ok(Row { values })
}

/// So many rows of one day, with the ids from `from` on.
fn fresh(alloc: Global, from: u64, count: u32, day: Option<i32>) -> Result<List<Fresh>, AllocError>
    requires { from < 2 ^ 32 }
    ensures ids { IfOk result (λ fresh. fresh_ids fresh ≡ range_with_len from count) }
    ensures fit { IfOk result (λ fresh. All (FitsColumns (COLUMN ∷ [])) (fresh_rows fresh)) }
{
    let mut fresh = List::new(alloc);
    for place in 0..count {
        let id = from + u64::from(place);
        let row = row(alloc, day)?;
        fresh.push(Fresh { id, row })?;
    }
    Ok(fresh)
}

/// A slice of the table with no entries.
fn empty(alloc: Global) -> Result<Slice, AllocError>
    ensures columns { IfOk result (λ slice. slice.columns ≡ COLUMN ∷ []) }
    ensures number { IfOk result (λ slice. slice.number ≡ 0) }
    ensures below { IfOk result (λ slice. All (λ id. id < 1) (ids_of slice.entries)) }
{
    let def = table(alloc)?;
    let slice = Slice::empty(&def)?;
    Ok(slice)
}

/// The slice after a commit that inserts so many rows of one day, with the ids from `from` on.
fn grown(
    alloc: Global,
    slice: &Slice,
    stamp: u64,
    from: u64,
    count: u32,
    day: Option<i32>,
) -> Result<Slice, AllocError>
    requires columns { slice.now.columns ≡ COLUMN ∷ [] }
    requires number { slice.now.number < 2 ^ 32 }
    requires below { All (λ id. id < from) (ids_of slice.now.entries) }
    requires from { from < 2 ^ 32 }
    ensures columns { IfOk result (λ after. after.columns ≡ COLUMN ∷ []) }
    ensures number { IfOk result (λ after. after.number ≤ slice.now.number + 1) }
    ensures below { IfOk result (λ after. All (λ id. id < from + count) (ids_of after.entries)) }
{
    let gone = List::new(alloc);
    let fresh = fresh(alloc, from, count, day)?;
    let after = slice.changed(stamp, &gone, &fresh)?;
    Ok(after)
}

/// The slice after a commit that deletes the row of an id.
fn without(
    alloc: Global,
    slice: &Slice,
    stamp: u64,
    id: u64,
    next: u64,
) -> Result<Slice, AllocError>
    requires columns { slice.now.columns ≡ COLUMN ∷ [] }
    requires number { slice.now.number < 2 ^ 32 }
    requires below { All (λ id. id < next) (ids_of slice.now.entries) }
    ensures columns { IfOk result (λ after. after.columns ≡ COLUMN ∷ []) }
    ensures number { IfOk result (λ after. after.number ≤ slice.now.number + 1) }
    ensures below { IfOk result (λ after. All (λ id. id < next) (ids_of after.entries)) }
{
    let mut gone = List::new(alloc);
    gone.push(id)?;
    let fresh = List::new(alloc);
    let after = slice.changed(stamp, &gone, &fresh)?;
    Ok(after)
}

/// All entries of the slice, block after block, counted by a ledger.
fn entries_by<L: Ledger>(
    alloc: Global,
    slice: &Slice,
    blank: Blank,
) -> Result<Vec<Entry>, AllocError>
    requires name { blank.name ≡ L.name }
    requires parts { blank.parts ≡ L.parts }
    requires some { 0 < blank.parts }
{
    let mut steps = Steps::<L>::new(blank);
    let mut entries = Vec::new(alloc);
    let blocks = slice.block_count();
    for block in 0..blocks {
        let mut found = slice.decode(block, &mut steps)?.into_vec();
        entries.append(&mut found)?;
    }
    Ok(entries)
}

/// All entries of the slice, block after block.
fn entries_of(alloc: Global, slice: &Slice) -> Result<Vec<Entry>, AllocError> {
    entries_by::<Brand>(alloc, slice, Blank::new(1))
}

/// The ids of the rows that a reader at the snapshot sees, with a space before each.
fn seen(alloc: Global, slice: &Slice, snapshot: u64) -> Result<String, AllocError> {
    let entries = entries_of(alloc, slice)?;
    let mut seen = String::new(alloc);
    for entry in &entries {
        if entry.is_visible(snapshot) {
            let id = entry.id;
            let text = format!(in alloc; " {id}")?;
            seen.push_str(text.as_str())?;
        }
    }
    Ok(seen)
}

/// Slices, each after a commit to the one before: two rows come at stamp 5, one of them goes at 7, it goes again at 8,
/// an id goes that isn't there, a row comes at 9, and it goes at 9.
fn history(alloc: Global) -> Result<Vec<Slice>, AllocError> {
    let none = empty(alloc)?;
    let two = grown(alloc, &none, 5, 1, 2, Some(20))?;
    let one = without(alloc, &two, 7, 1, 3)?;
    let again = without(alloc, &one, 8, 1, 3)?;
    let absent = without(alloc, &again, 8, 30, 3)?;
    let three = grown(alloc, &absent, 9, 3, 1, None)?;
    let brief = without(alloc, &three, 9, 3, 4)?;
    let mut slices = Vec::new(alloc);
    slices.push(none)?;
    slices.push(two)?;
    slices.push(one)?;
    slices.push(again)?;
    slices.push(absent)?;
    slices.push(three)?;
    slices.push(brief)?;
    Ok(slices)
}

/// In each row: the place of a slice in the history, its change number, a snapshot, and the ids that it sees.
const SEEN: &str = "0 0 9
1 1 4
1 1 5 1 2
1 1 8 1 2
2 2 6 1 2
2 2 7 2
2 2 8 2
3 2 6 1 2
3 2 7 2
4 2 8 2
5 3 8 2
5 3 9 2 3
6 4 8 2
6 4 9 2
6 4 10 2";

/// Whether the slice that a row names sees what the row says.
fn holds(alloc: Global, slices: &[Slice], row: &str) -> Result<bool, AllocError> {
    let mut fields = row.splitn(4, ' ');
    let place = fields.next().unwrap_or("").parse::<usize>().unwrap_or(0);
    let number = fields.next().unwrap_or("").parse::<u64>().unwrap_or(0);
    let snapshot = fields.next().unwrap_or("").parse::<u64>().unwrap_or(0);
    match slices.get(place) {
        Some(slice) => {
            let seen = seen(alloc, slice, snapshot)?;
            let same = seen.as_str().trim_start() == fields.next().unwrap_or("");
            Ok(same && slice.change_number() == number)
        }
        None => Ok(false),
    }
}

#[test]
fn snapshots_see_what_is_there(rt: HostRuntime) -> Result<(), Fail> {
    let alloc = rt.alloc();
    let slices = history(alloc)?;
    for row in SEEN.lines() {
        assert!(rt; holds(alloc, slices.as_slice(), row)?, "{row}");
    }
    Ok(())
}

/// A slice of so many rows, the slice with one row more, and that one without the row before the last.
fn three(alloc: Global, count: u32) -> Result<(Slice, Slice, Slice), AllocError>
    requires { count < 2 ^ 31 }
{
    let none = empty(alloc)?;
    let first = grown(alloc, &none, 1, 1, count, Some(-1))?;
    let next = u64::from(count) + 1;
    let second = grown(alloc, &first, 2, next, 1, Some(3))?;
    let third = without(alloc, &second, 3, u64::from(count), next + 1)?;
    Ok((first, second, third))
}

/// Checks the marks of all entries but the last: the ids ascend from 1 on, and the one that went has its deletion.
fn check_marks(
    rt: &impl Abort,
    alloc: Global,
    slice: &Slice,
    count: u64,
    gone: u64,
) -> Result<(), Fail> {
    let entries = entries_of(alloc, slice)?;
    assert_eq!(rt; entries.len() as u64, count);
    for (place, entry) in entries.iter().enumerate() {
        let id = entry.id;
        assert_eq!(rt; id, place as u64 + 1);
        assert_eq!(rt; entry.inserted == 2, id == count);
        assert_eq!(rt; entry.deleted, if id == gone { Some(3) } else { None });
        assert!(rt; !entry.sorted);
    }
    Ok(())
}

/// Checks how many blocks so many entries have, and one entry more, and that all come back.
fn check_size(
    rt: &impl Abort,
    alloc: Global,
    count: u32,
    blocks: u64,
    blocks_after: u64,
) -> Result<(), Fail>
    requires { count < 2 ^ 31 }
{
    let (first, second, third) = three(alloc, count)?;
    assert_eq!(rt; first.block_count(), blocks);
    assert_eq!(rt; second.block_count(), blocks_after);
    assert_eq!(rt; third.block_count(), blocks_after);
    check_marks(rt, alloc, &second, u64::from(count) + 1, 0)?;
    check_marks(rt, alloc, &third, u64::from(count) + 1, u64::from(count))
}

#[test]
fn full_chunks_are_blocks(rt: HostRuntime) -> Result<(), Fail> {
    let alloc = rt.alloc();
    check_size(&rt, alloc, 4095, 1, 1)?;
    check_size(&rt, alloc, 4096, 1, 2)?;
    check_size(&rt, alloc, 4097, 2, 2)?;
    check_size(&rt, alloc, 8192, 2, 3)?;
    Ok(())
}

/// Checks the kind and the zone of the first block's column.
fn check_zone(
    rt: &impl Abort,
    alloc: Global,
    day: Option<i32>,
    count: u32,
    text: &str,
) -> Result<(), Fail> {
    let none = empty(alloc)?;
    let slice = grown(alloc, &none, 1, 1, count, day)?;
    assert_eq!(rt; slice.kind(0), Kind::Date);
    assert!(rt; slice.block_count() > 0);
    let zone = slice.zone(0, 0);
    let shown = format!(in alloc; "{:?} {:?} {}", zone.least, zone.greatest, zone.nulls)?;
    assert_eq!(rt; shown.as_str(), text);
    Ok(())
}

#[test]
fn blocks_have_zones(rt: HostRuntime) -> Result<(), Fail> {
    let alloc = rt.alloc();
    check_zone(&rt, alloc, None, 3, "None None 3")?;
    check_zone(&rt, alloc, Some(8), 2, "Some(Day(8)) Some(Day(8)) 0")?;
    Ok(())
}

/// Entries of several forms, with the ids from 0 on.
fn entries(alloc: Global, count: u32) -> Result<List<Entry>, AllocError>
    ensures { IfOk result (AreEntries (COLUMN ∷ [])) }
{
    let mut entries = List::new(alloc);
    for place in 0..count {
        let row = row(alloc, if place % 5 == 0 { None } else { Some(7) })?;
        entries.push(Entry {
            id: u64::from(place),
            inserted: u64::from(place % 3),
            deleted: if place % 2 == 0 { Some(9) } else { None },
            sorted: place % 7 == 0,
            row,
        })?;
    }
    Ok(entries)
}

/// The entries, and a slice that is made of them.
fn made(alloc: Global, count: u32) -> Result<(List<Entry>, Slice), AllocError> {
    let def = table(alloc)?;
    let given = entries(alloc, count)?;
    let slice = Slice::of_entries(&def, &given, 7)?;
    Ok((given, slice))
}

/// Whether two entries are equal.
fn is_same(one: &Entry, other: &Entry) -> bool {
    one.id == other.id
        && one.inserted == other.inserted
        && one.deleted == other.deleted
        && one.sorted == other.sorted
        && one.row == other.row
}

#[test]
fn slices_are_made_of_entries(rt: HostRuntime) -> Result<(), Fail> {
    let alloc = rt.alloc();
    let (given, slice) = made(alloc, 5000)?;
    assert_eq!(rt; slice.change_number(), 7);
    assert_eq!(rt; slice.block_count(), 2);
    let found = entries_of(alloc, &slice)?;
    assert_eq!(rt; found.len(), given.len());
    for (place, one) in found.iter().enumerate() {
        if let Some(other) = given.get(place) {
            assert!(rt; is_same(one, other), "at {place}");
        }
    }
    Ok(())
}
