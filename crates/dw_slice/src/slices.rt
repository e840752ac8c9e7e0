//! Slices: lists of entries that never change, and that share what they have in common.
ghost use Rattle.std.specs.Prelude.{◌≡◌, ◌<◌, ◌+◌, ◌^◌, ◌++◌, [], All, nat_eq, false, length, slice_get, map, Some, IfOk};
ghost use Rattle.std.specs.List.{IsDistinct};
ghost use Rattle.dw_block.specs.Zones.{zone_of};
ghost use Rattle.dw_slice.specs.Columns.{columns_of, kinds_of, IsStorage, FitsColumns};
ghost use Rattle.dw_slice.specs.Grid.{column_of};
ghost use Rattle.dw_slice.specs.Slices.{AreEntries, visible, is_among, ids_of, rows_of, fresh_ids, fresh_rows, new_entry, changed_slice, block_count, block_of};
ghost use Rattle.dw_slice.specs.Chunks.{all_entries, zip_entries, IsCut};

use crate::chunks::{Chunk, ChunkBuilder, marked_chunks};
use crate::ids::SortedIds;
use crate::marks::Mark;
use crate::packed::Storage;
use crate::steps::Steps;
use dw_block::Zone;
use dw_model::TableDef;
use dw_value::{Kind, List, Row};
use std::alloc::{AllocError, Global};
use std::marker::Model;
use std::sync::ledger::Ledger;

/// A row of a table, and when it came and went.
#[derive(Debug, Drop)]
pub struct Entry {
    /// The row's id, which differs from those of all other rows of its slice.
    pub id: u64,
    /// The stamp of the commit that inserted it.
    pub inserted: u64,
    /// The stamp of the commit that deleted it, if one did.
    pub deleted: Option<u64>,
    /// Whether it stands in the order of the sort key.
    pub sorted: bool,
    /// The values.
    pub row: Row,
}

impl Entry {
    /// Whether a reader at this snapshot sees the row: it was inserted at or before it, and not deleted by then. It
    /// takes no memory.
    pub fn is_visible(&self, snapshot: u64) -> bool
        ensures { result ≡ visible snapshot self.now }
    {
        let stays = match self.deleted {
            Some(deleted) => snapshot < deleted,
            None => true,
        };
        self.inserted <= snapshot && stays
    }
}

/// A row that a commit inserts, with its id.
#[derive(Debug, Drop)]
pub struct Fresh {
    /// The row's id.
    pub id: u64,
    /// The values.
    pub row: Row,
}

/// The entries of a table on one slice. Contracts see its columns, its change number and its entries, whose ids differ
/// and whose rows have the columns' kinds.
#[derive(Drop)]
pub struct Slice {
    number: u64,
    columns: Vec<Storage>,
    chunks: Vec<Chunk>,
}

impl Model for Slice {
    ghost use Rattle.dw_slice.specs.Slices.{SliceView};
    ghost use Rattle.dw_slice.specs.Chunks.{shown, IsSlice};

    ghost Value = { SliceView };

    ghost view = { λ slice. shown slice.columns.items slice.number slice.chunks.items };

    ghost invariant = { λ slice. IsSlice slice.columns.items slice.chunks.items };
}

/// How the columns of a definition are stored.
fn columns_of(def: &TableDef) -> Result<Vec<Storage>, AllocError>
    ensures { IfOk result (λ columns. columns.items ≡ columns_of def.now) }
{
    let alloc = def.columns.allocator();
    let mut columns = Vec::with_capacity(alloc, def.columns.len())?;
    for column in def.columns.as_slice() {
        columns.push(Storage {
            kind: column.kind,
            encoding: column.encoding,
        })?;
    }
    Ok(columns)
}

/// The chunks with entries of the fresh rows after them.
fn appended(
    alloc: Global,
    columns: &[Storage],
    chunks: Vec<Chunk>,
    stamp: u64,
    fresh: &[Fresh],
) -> Result<Vec<Chunk>, AllocError>
    requires columns { All IsStorage columns.now }
    requires cut { IsCut columns.now chunks.items }
    requires fit { All (FitsColumns columns.now) (fresh_rows fresh.now) }
    ensures entries { IfOk result (λ found.
        all_entries found.items ≡ all_entries chunks.items ++ map (new_entry stamp) fresh.now) }
    ensures cut { IfOk result (λ found. IsCut columns.now found.items) }
{
    let mut builder = ChunkBuilder::resume(alloc, columns, chunks)?;
    for one in fresh {
        let mark = Mark {
            id: one.id,
            inserted: stamp,
            deleted: None,
            sorted: false,
        };
        builder.push(alloc, columns, mark, &one.row)?;
    }
    let chunks = builder.finish(alloc, columns)?;
    Ok(chunks)
}

/// Each mark with a copy of the row at its place.
fn zip_entries(alloc: Global, marks: &[Mark], rows: &[Row]) -> Result<List<Entry>, AllocError>
    requires { length marks.now ≡ length rows.now }
    ensures { IfOk result (λ entries. entries ≡ zip_entries marks.now rows.now) }
{
    let mut entries = Vec::with_capacity(alloc, rows.len())?;
    for (place, row) in rows.iter().enumerate() {
        let mark = marks[place];
        entries.push(Entry {
            id: mark.id,
            inserted: mark.inserted,
            deleted: mark.deleted,
            sorted: mark.sorted,
            row: row.copy()?,
        })?;
    }
    Ok(List::from_vec(entries))
}

impl Slice {
    /// A slice of the defined table that has no entries, on the definition's memory. Each column's kind has to be
    /// within its limits, 38 digits and 65,535 bytes, and may have the column's encoding.
    pub fn empty(def: &TableDef) -> Result<Slice, AllocError>
        requires { All IsStorage (columns_of def.now) }
        ensures { IfOk result (λ slice. slice ≡ record { columns = columns_of def.now; number = 0; entries = [] }) }
    {
        let columns = columns_of(def)?;
        let alloc = *columns.allocator();
        Ok(Slice {
            number: 0,
            columns,
            chunks: Vec::new(alloc),
        })
    }

    /// The slice after a commit with this stamp, which deleted the rows of the ids `gone` and inserted the rows
    /// `fresh`. Entries of those ids that have no deletion get one at the stamp; ids that aren't there, and entries
    /// that were deleted before, change nothing. Each fresh row is an entry after all others, unsorted. The change
    /// number rises by one where an entry was marked or appended, and stays elsewhere. This slice stays as it is; the
    /// new one shares its chunks but for the marks of those with a new deletion, and the last one where something is
    /// appended.
    ///
    /// `gone` is sorted once. A chunk with none of its ids between its least and its greatest id takes one bisection,
    /// each other one a bisection for each of its entries.
    pub fn changed(
        &self,
        stamp: u64,
        gone: &List<u64>,
        fresh: &List<Fresh>,
    ) -> Result<Slice, AllocError>
        requires room { self.now.number + 1 < 2 ^ 64 }
        requires fit { All (FitsColumns self.now.columns) (fresh_rows fresh.now) }
        requires different { IsDistinct nat_eq (fresh_ids fresh.now) }
        requires new { All (λ id. is_among (ids_of self.now.entries) id ≡ false) (fresh_ids fresh.now) }
        ensures { IfOk result (λ slice. slice ≡ changed_slice stamp gone.now fresh.now self.now) }
    {
        let alloc = *self.chunks.allocator();
        let sorted = SortedIds::of(alloc, gone.as_slice())?;
        let (chunks, any) = marked_chunks(alloc, stamp, &sorted, self.chunks.as_slice())?;
        let columns = Vec::from_slice(alloc, self.columns.as_slice())?;
        if fresh.is_empty() {
            let number = if any { self.number + 1 } else { self.number };
            return Ok(Slice {
                number,
                columns,
                chunks,
            });
        }
        let chunks = appended(alloc, columns.as_slice(), chunks, stamp, fresh.as_slice())?;
        Ok(Slice {
            number: self.number + 1,
            columns,
            chunks,
        })
    }

    /// How often the slice was changed or rebuilt. It takes no memory.
    pub fn change_number(&self) -> u64
        ensures { result ≡ self.now.number }
    {
        self.number
    }

    /// How many blocks each column has: one for each 4,096 entries, and one for the rest. It takes no memory.
    pub fn block_count(&self) -> u64
        ensures count { result ≡ block_count self.now.entries }
        ensures entries { AreEntries self.now.columns self.now.entries }
    {
        self.chunks.len() as u64
    }

    /// The kind of the column at a place, from 0. It takes no memory.
    pub fn kind(&self, column: u32) -> Kind
        requires { column < length self.now.columns }
        ensures { slice_get (map (λ storage. storage.kind) self.now.columns) column ≡ Some result }
    {
        self.columns[column as usize].kind
    }

    /// The zone of one block of the column at a place. It takes no memory.
    pub fn zone(&self, block: u64, column: u32) -> &Zone
        requires block { block < block_count self.now.entries }
        requires column { column < length self.now.columns }
        ensures { result.now ≡ zone_of (column_of (rows_of (block_of self.now.entries block)) column) }
    {
        let chunk = &self.chunks[block as usize];
        chunk.packed.zone(column as usize)
    }

    /// The entries of one block, in order, which is one step more, also where memory runs out.
    pub fn decode<L: Ledger>(
        &self,
        block: u64,
        steps: &mut Steps<L>,
    ) -> Result<List<Entry>, AllocError>
        requires { block < block_count self.now.entries }
        ensures entries { IfOk result (λ entries. entries ≡ block_of self.now.entries block) }
        ensures step { steps.new ≡ steps.old + 1 }
    {
        steps.tick();
        let alloc = *self.chunks.allocator();
        let chunk = &self.chunks[block as usize];
        let rows = chunk.packed.rows(alloc)?;
        let entries = zip_entries(alloc, chunk.marks.as_slice(), rows.as_slice())?;
        Ok(entries)
    }

    /// The slice of the defined table that has these entries and this change number, on the definition's memory.
    pub fn of_entries(
        def: &TableDef,
        entries: &List<Entry>,
        number: u64,
    ) -> Result<Slice, AllocError>
        requires columns { All IsStorage (columns_of def.now) }
        requires entries { AreEntries (columns_of def.now) entries.now }
        ensures { IfOk result (λ slice.
            slice ≡ record { columns = columns_of def.now; number = number; entries = entries.now }) }
    {
        let columns = columns_of(def)?;
        let chunks = cut(*columns.allocator(), columns.as_slice(), entries.as_slice())?;
        Ok(Slice {
            number,
            columns,
            chunks,
        })
    }
}

/// The chunks of entries.
fn cut(alloc: Global, columns: &[Storage], entries: &[Entry]) -> Result<Vec<Chunk>, AllocError>
    requires columns { All IsStorage columns.now }
    requires fit { All (FitsColumns columns.now) (rows_of entries.now) }
    ensures entries { IfOk result (λ found. all_entries found.items ≡ entries.now) }
    ensures cut { IfOk result (λ found. IsCut columns.now found.items) }
{
    let mut builder = ChunkBuilder::after(alloc, Vec::new(alloc));
    for entry in entries {
        let mark = Mark {
            id: entry.id,
            inserted: entry.inserted,
            deleted: entry.deleted,
            sorted: entry.sorted,
        };
        builder.push(alloc, columns, mark, &entry.row)?;
    }
    let chunks = builder.finish(alloc, columns)?;
    Ok(chunks)
}
