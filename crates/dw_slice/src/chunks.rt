//! Chunks: up to 4,096 entries, their rows packed apart from their marks, so that a deletion copies no block.
ghost use Rattle.std.specs.Prelude.{◌≡◌, ◌||◌, ◌<◌, ◌≤◌, ◌++◌, ◌∷◌, [], All, length, IfOk};
ghost use Rattle.std.specs.List.{list_any, AllZip};
ghost use Rattle.dw_slice.specs.Columns.{IsStorage, FitsColumns};
ghost use Rattle.dw_slice.specs.Chunks.{entry_of, marks_in, packed_in, all_entries, IsCut};
ghost use Rattle.dw_slice.specs.Building.{IsMarkedChunk, chunk_goes, built, IsBuilding};

use crate::ids::SortedIds;
use crate::marks::{Mark, Marks};
use crate::packed::{Packed, Storage};
use dw_value::Row;
use std::alloc::{AllocError, Global};
use std::mem;
use std::sync::Arc;

/// How many entries a full chunk has.
const FULL: usize = 4096;

/// Up to 4,096 entries, which the slices that have them share.
#[derive(Drop)]
pub struct Chunk {
    pub marks: Arc<Marks>,
    pub packed: Arc<Packed>,
}

impl Chunk {
    /// The chunk with the deletions of the ids that go, and whether one of them is new. What stays is shared.
    fn marked(
        &self,
        alloc: Global,
        stamp: u64,
        gone: &SortedIds,
    ) -> Result<(Chunk, bool), AllocError>
        ensures chunk { IfOk result (λ found. IsMarkedChunk stamp gone.now self.now found.0) }
        ensures goes { IfOk result (λ found. found.1 ≡ chunk_goes gone.now self.now) }
    {
        let packed = Arc::try_clone(&self.packed)?;
        match self.marks.marked(alloc, stamp, gone)? {
            Some(marks) => {
                let marks = Arc::new(alloc, marks)?;
                Ok((Chunk { marks, packed }, true))
            }
            None => {
                let marks = Arc::try_clone(&self.marks)?;
                Ok((Chunk { marks, packed }, false))
            }
        }
    }
}

fn either(one: bool, other: bool) -> bool
    ensures { result ≡ (one || other) }
{
    one || other
}

/// The chunks with the deletions of the ids that go, and whether one of them is new.
pub fn marked_chunks(
    alloc: Global,
    stamp: u64,
    gone: &SortedIds,
    chunks: &[Chunk],
) -> Result<(Vec<Chunk>, bool), AllocError>
    ensures chunks { IfOk result (λ found. AllZip (IsMarkedChunk stamp gone.now) chunks.now found.0.items) }
    ensures goes { IfOk result (λ found. found.1 ≡ list_any (chunk_goes gone.now) chunks.now) }
{
    let mut found = Vec::with_capacity(alloc, chunks.len())?;
    let mut any = false;
    for chunk in chunks {
        let (next, goes) = chunk.marked(alloc, stamp, gone)?;
        found.push(next)?;
        any = either(any, goes);
    }
    Ok((found, any))
}

/// The chunk of these marks and rows.
fn packed_chunk(
    alloc: Global,
    columns: &[Storage],
    marks: Vec<Mark>,
    rows: &[Row],
) -> Result<Chunk, AllocError>
    requires few { length rows.now ≤ 4096 }
    requires columns { All IsStorage columns.now }
    requires fit { All (FitsColumns columns.now) rows.now }
    ensures marks { IfOk result (λ chunk. marks_in chunk ≡ marks.items) }
    ensures columns { IfOk result (λ chunk. (packed_in chunk).columns ≡ columns.now) }
    ensures rows { IfOk result (λ chunk. (packed_in chunk).rows ≡ rows.now) }
{
    let packed = Packed::pack(alloc, columns, rows)?;
    Ok(Chunk {
        marks: Arc::new(alloc, Marks::of(marks))?,
        packed: Arc::new(alloc, packed)?,
    })
}

/// Full chunks, and after them up to 4,095 entries that are no chunk yet.
#[derive(Drop)]
pub struct ChunkBuilder {
    chunks: Vec<Chunk>,
    marks: Vec<Mark>,
    rows: Vec<Row>,
}

impl ChunkBuilder {
    /// No entries yet but those of the chunks, all of which are full.
    pub fn after(alloc: Global, chunks: Vec<Chunk>) -> ChunkBuilder
        ensures chunks { result.chunks ≡ chunks }
        ensures marks { result.marks.items ≡ [] }
        ensures rows { result.rows.items ≡ [] }
    {
        ChunkBuilder {
            chunks,
            marks: Vec::new(alloc),
            rows: Vec::new(alloc),
        }
    }

    /// The entries of the chunks. The last chunk is taken apart where it isn't full.
    pub fn resume(
        alloc: Global,
        columns: &[Storage],
        chunks: Vec<Chunk>,
    ) -> Result<ChunkBuilder, AllocError>
        requires { IsCut columns.now chunks.items }
        ensures built { IfOk result (λ builder. built builder ≡ all_entries chunks.items) }
        ensures building { IfOk result (λ builder. IsBuilding columns.now builder) }
    {
        let mut chunks = chunks;
        match chunks.pop() {
            Some(last) if last.packed.len() < FULL => {
                let rows = last.packed.rows(alloc)?;
                let marks = Vec::from_slice(alloc, last.marks.as_slice())?;
                Ok(ChunkBuilder {
                    chunks,
                    marks,
                    rows,
                })
            }
            Some(last) => {
                chunks.push(last)?;
                Ok(ChunkBuilder::after(alloc, chunks))
            }
            None => Ok(ChunkBuilder::after(alloc, chunks)),
        }
    }

    /// One entry more, with a copy of the row.
    pub fn push(
        &mut self,
        alloc: Global,
        columns: &[Storage],
        mark: Mark,
        row: &Row,
    ) -> Result<(), AllocError>
        requires columns { All IsStorage columns.now }
        requires building { IsBuilding columns.now self.old }
        requires fits { FitsColumns columns.now row.now }
        ensures built { IfOk result (λ _. built self.new ≡ built self.old ++ entry_of mark row.now ∷ []) }
        ensures building { IfOk result (λ _. IsBuilding columns.now self.new) }
    {
        let row = row.copy()?;
        self.marks.push(mark)?;
        self.rows.push(row)?;
        if self.rows.len() == FULL {
            let marks = mem::replace(&mut self.marks, Vec::new(alloc));
            let rows = mem::replace(&mut self.rows, Vec::new(alloc));
            let chunk = packed_chunk(alloc, columns, marks, rows.as_slice())?;
            self.chunks.push(chunk)?;
        }
        Ok(())
    }

    /// The chunks of all entries.
    pub fn finish(self, alloc: Global, columns: &[Storage]) -> Result<Vec<Chunk>, AllocError>
        requires columns { All IsStorage columns.now }
        requires building { IsBuilding columns.now self }
        ensures built { IfOk result (λ chunks. all_entries chunks.items ≡ built self) }
        ensures cut { IfOk result (λ chunks. IsCut columns.now chunks.items) }
    {
        let ChunkBuilder {
            mut chunks,
            marks,
            rows,
        } = self;
        if !rows.is_empty() {
            let chunk = packed_chunk(alloc, columns, marks, rows.as_slice())?;
            chunks.push(chunk)?;
        }
        Ok(chunks)
    }
}
