//! Rows packed by column, one block for each.
ghost use Rattle.std.specs.Prelude.{◌≡◌, ◌<◌, ◌≤◌, length, All, IfOk};
ghost use Rattle.dw_block.specs.Zones.{zone_of};
ghost use Rattle.dw_slice.specs.Columns.{IsStorage, FitsColumns};
ghost use Rattle.dw_slice.specs.Grid.{column_of};

use crate::grid::{column_of, first_rows};
use dw_block::{Block, Zone};
use dw_value::{Encoding, Kind, Row};
use std::alloc::{AllocError, Global};
use std::marker::Model;

/// What a column takes, and how its blocks spell it.
#[derive(Debug, Clone, Copy, Drop)]
pub struct Storage {
    /// The column's kind.
    pub kind: Kind,
    /// The encoding of its blocks.
    pub encoding: Encoding,
}

/// At most 4,096 rows, as a block for each column. Contracts see the columns and the rows.
#[derive(Drop)]
pub struct Packed {
    count: usize,
    blocks: Vec<Block>,
}

impl Model for Packed {
    ghost use Rattle.dw_slice.specs.Packed.{PackedView, packed_view, IsPacked};

    ghost Value = { PackedView };

    ghost view = { λ packed. packed_view packed.count packed.blocks.items };

    ghost invariant = { λ packed. IsPacked packed.count packed.blocks.items };
}

impl Packed {
    /// The rows, packed on memory of `alloc`.
    pub fn pack(alloc: Global, columns: &[Storage], rows: &[Row]) -> Result<Packed, AllocError>
        requires few { length rows.now ≤ 4096 }
        requires columns { All IsStorage columns.now }
        requires fit { All (FitsColumns columns.now) rows.now }
        ensures columns { IfOk result (λ packed. packed.columns ≡ columns.now) }
        ensures rows { IfOk result (λ packed. packed.rows ≡ rows.now) }
    {
        let mut blocks = Vec::with_capacity(alloc, columns.len())?;
        for (place, column) in columns.iter().enumerate() {
            let values = column_of(alloc, rows, place)?;
            let block = Block::make(alloc, column.encoding, column.kind, &values)?;
            blocks.push(block)?;
        }
        Ok(Packed {
            count: rows.len(),
            blocks,
        })
    }

    /// How many rows there are.
    pub fn len(&self) -> usize
        ensures count { result ≡ length self.now.rows }
        ensures few { result ≤ 4096 }
        ensures columns { All IsStorage self.now.columns }
        ensures fit { All (FitsColumns self.now.columns) self.now.rows }
    {
        self.count
    }

    /// The rows, on memory of `alloc`.
    pub fn rows(&self, alloc: Global) -> Result<Vec<Row>, AllocError>
        ensures { IfOk result (λ rows. rows.items ≡ self.now.rows) }
    {
        let mut columns = Vec::with_capacity(alloc, self.blocks.len())?;
        for block in &self.blocks {
            columns.push(block.values()?)?;
        }
        first_rows(alloc, columns.as_slice(), self.count)
    }

    /// The zone of the column at a place.
    pub fn zone(&self, column: usize) -> &Zone
        requires { column < length self.now.columns }
        ensures { result.now ≡ zone_of (column_of self.now.rows column) }
    {
        self.blocks[column].zone()
    }
}
