//! Tables: their definitions and their rows.
ghost use Rattle.std.specs.Prelude.{◌≡◌, ◌<◌, false, length, slice_get, IfOk, IsTrue};
ghost use Rattle.std.specs.Option.{option_map_or};
ghost use Rattle.dw_model.specs.Changes.{same_row, table_changed, without_row, without_rows};
ghost use Rattle.dw_model.specs.Databases.{IsAscending};

use dw_value::{Copied, Encoding, Kind, List, Row, Style, Text, Value, add_rows};
use std::alloc::AllocError;

/// A column of a table.
#[derive(Debug, Drop)]
pub struct Column {
    /// The column's name, folded to lower case.
    pub name: Text,
    /// What the column takes.
    pub kind: Kind,
    /// Whether it takes no NULL.
    pub not_null: bool,
    /// What it holds where a row gives it no value.
    pub default: Value,
    /// How its values are spelled in blocks.
    pub encoding: Encoding,
}

impl Column {
    /// An equal column.
    pub fn copy(&self) -> Result<Column, AllocError>
        ensures { IfOk result (λ copy. copy ≡ self.now) }
    {
        Ok(Column {
            name: self.name.copy()?,
            kind: self.kind,
            not_null: self.not_null,
            default: self.default.copy()?,
            encoding: self.encoding,
        })
    }
}

impl Copied for Column {
    fn copy(&self) -> Result<Column, AllocError> {
        self.copy()
    }
}

/// The definition of a table.
#[derive(Debug, Drop)]
pub struct TableDef {
    /// The table's name, folded to lower case.
    pub name: Text,
    /// The columns, in the order in which they were written.
    pub columns: List<Column>,
    /// How the rows are shared out.
    pub style: Style,
    /// The columns of the sort key by their places among the columns, from 0, in the key's order.
    pub sort: List<u32>,
}

impl TableDef {
    /// An equal definition.
    pub fn copy(&self) -> Result<TableDef, AllocError>
        ensures { IfOk result (λ copy. copy ≡ self.now) }
    {
        Ok(TableDef {
            name: self.name.copy()?,
            columns: self.columns.copy()?,
            style: self.style,
            sort: self.sort.copy()?,
        })
    }
}

/// A table: its definition, and its rows in ascending order. So two tables are equal where their definitions are and
/// where they have the same rows, each as often.
#[derive(Debug, Drop)]
pub struct Table {
    /// The table's definition.
    pub def: TableDef,
    /// The table's rows, in ascending order.
    pub rows: List<Row>,
}

impl Table {
    /// An equal table.
    pub fn copy(&self) -> Result<Table, AllocError>
        ensures { IfOk result (λ copy. copy ≡ self.now) }
    {
        Ok(Table {
            def: self.def.copy()?,
            rows: self.rows.copy()?,
        })
    }

    /// A table of this definition from whose rows `gone` are taken away and to which `added` are added. For each row
    /// of `gone` one equal row goes, where there is one. The given table stays. It takes time in proportion to n log
    /// n for n rows in all, and for each row that goes the time to move up the rows after it.
    pub(crate) fn changed(&self, gone: &List<Row>, added: &List<Row>) -> Result<Table, AllocError>
        requires { IsAscending self.now.rows }
        ensures table { IfOk result (λ table. table ≡ table_changed gone.now added.now self.now) }
        ensures ascending { IfOk result (λ table. IsAscending table.rows) }
    {
        let def = self.def.copy()?;
        let left = rows_left(&self.rows, gone)?;
        let rows = add_rows(left, added.copy()?)?;
        Ok(Table { def, rows })
    }
}

// Copies of the rows that are left when these are gone.
fn rows_left(rows: &List<Row>, gone: &List<Row>) -> Result<List<Row>, AllocError>
    requires { IsAscending rows.now }
    ensures { IfOk result (λ left. left ≡ without_rows gone.now rows.now) }
{
    let mut left = rows.copy()?.into_vec();
    for row in gone.as_slice() {
        take_away(&mut left, row);
    }
    Ok(List::from_vec(left))
}

// Takes one row away that equals this one, if there is one. The search is binary.
fn take_away(rows: &mut Vec<Row>, row: &Row)
    requires { IsAscending rows.old.items }
    ensures { rows.new.items ≡ without_row row.now rows.old.items }
{
    let place = rows.partition_point(|other| other.cmp(row).is_lt());
    if stands_at(rows.as_slice(), place, row) {
        rows.remove(place);
    }
}

// Whether an equal row stands at this place.
fn stands_at(rows: &[Row], place: usize, row: &Row) -> bool
    ensures stands { result ≡ option_map_or (same_row row.now) (slice_get rows.now place) false }
    ensures within { IsTrue result → place < length rows.now }
{
    match rows.get(place) {
        Some(other) => *row == *other,
        None => false,
    }
}
