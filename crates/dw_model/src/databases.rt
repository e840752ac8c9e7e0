//! Databases: tables under their names.
ghost use Rattle.std.specs.Prelude.{◌≡◌, ◌<◌, ◌≤◌, ◌↔◌, length, slice_get, IsTrue, IfOk, IfSome, OnOk, OnErr};
ghost use Rattle.std.specs.Option.{option_copied};
ghost use Rattle.std.specs.FinMap as map;
ghost use Rattle.dw_model.specs.Changes.{changed, rows_changed_at};
ghost use Rattle.std.specs.Arc.{arc_value};
ghost use Rattle.dw_model.specs.Databases.{IsAscending, table_put};
ghost use Rattle.dw_model.specs.Entries.{names_rise, named_at, pair_of, pairs_of, place_in, RowsAscend};

use crate::changes::Change;
use crate::tables::Table;
use dw_value::{List, Row, Text};
use std::alloc::{AllocError, Global};
use std::marker::Model;
use std::sync::Arc;

/// A table under its name. The databases that have the table share both.
#[derive(Debug, Drop)]
pub struct Entry {
    /// The table's name, folded to lower case.
    pub name: Arc<Text>,
    /// The table, which is never changed in place.
    pub table: Arc<Table>,
}

impl Entry {
    /// An entry that shares the name and the table.
    pub fn copy(&self) -> Result<Entry, AllocError>
        ensures { IfOk result (λ copy. pair_of copy ≡ pair_of self.now) }
    {
        Ok(Entry {
            name: Arc::try_clone(&self.name)?,
            table: Arc::try_clone(&self.table)?,
        })
    }
}

/// A database: tables under their names, each with its rows in ascending order. Contracts see it as a finite map, so
/// two databases are equal where they have the same tables with the same rows up to order.
#[derive(Debug, Drop)]
pub struct Database {
    entries: Vec<Entry>,
}

impl Model for Database {
    ghost use Rattle.std.specs.Prelude.{IsTrue};
    ghost use Rattle.std.specs.Coded.{coded_list, coded_ℕ};
    ghost use Rattle.std.specs.FinMap as map;
    ghost use Rattle.dw_model.specs.contracts.tables.Table as table;
    ghost use Rattle.dw_model.specs.Databases.{Tables};
    ghost use Rattle.dw_model.specs.Entries.{pairs_of, names_rise, RowsAscend};

    ghost Value = { Tables };

    ghost coded = { map.code (coded_list coded_ℕ) table.the_row.coded };

    ghost view = { λ database. map.from_sorted (pairs_of database.entries.items) };

    ghost invariant = { λ database. IsTrue (names_rise database.entries.items) × RowsAscend database.entries.items };
}

impl Database {
    /// A database of no tables, which takes its memory from `alloc` once it grows.
    pub fn new(alloc: Global) -> Database
        ensures { result ≡ map.empty }
    {
        Database {
            entries: Vec::new(alloc),
        }
    }

    /// The number of tables.
    pub fn len(&self) -> usize
        ensures { result ≡ map.len self.now }
    {
        self.entries.len()
    }

    /// Whether there is no table.
    pub fn is_empty(&self) -> bool
        ensures { IsTrue result ↔ (map.len self.now ≡ 0) }
    {
        self.len() == 0
    }

    /// All tables, in ascending order of their names by bytes. The rows of each stand in ascending order.
    pub fn as_slice(&self) -> &[Entry]
        ensures entries { pairs_of result.now ≡ map.entries self.now }
        ensures ascending { RowsAscend result.now }
    {
        self.entries.as_slice()
    }

    /// The table of this name. `None` comes exactly where there is none. The search is binary.
    pub fn get(&self, name: &Text) -> Option<&Table>
        ensures table { option_copied result ≡ map.get self.now name.now }
        ensures ascending { IfSome result (λ table. IsAscending table.now.rows) }
    {
        let place = place_of(self.entries.as_slice(), name);
        if is_named(self.entries.as_slice(), place, name) {
            Some(&*self.entries[place].table)
        } else {
            None
        }
    }

    /// Puts a table under a name, in the place of the one that is there. Where memory runs out, the database is as
    /// before.
    pub fn put(&mut self, name: Text, table: Table) -> Result<(), AllocError>
        requires { IsAscending table.rows }
        ensures ok { OnOk result (self.new ≡ map.insert self.old name table) }
        ensures err { OnErr result (self.new ≡ self.old) }
    {
        let alloc = *self.entries.allocator();
        let name = Arc::new(alloc, name)?;
        let table = Arc::new(alloc, table)?;
        self.put_entry(Entry { name, table })
    }

    /// Makes the table of this name the one that `from` has under it, which the two databases then share, or takes it
    /// away where `from` has none. No row is copied. Where memory runs out, the database is as before.
    pub fn share(&mut self, name: &Text, from: &Database) -> Result<(), AllocError>
        ensures ok { OnOk result (self.new ≡ table_put name.now (map.get from.now name.now) self.old) }
        ensures err { OnErr result (self.new ≡ self.old) }
    {
        let place = place_of(from.entries.as_slice(), name);
        if !is_named(from.entries.as_slice(), place, name) {
            self.remove(name);
            return Ok(());
        }
        let entry = from.entries[place].copy()?;
        self.put_entry(entry)
    }

    // Puts an entry in the place of the one of its name, or at a place of its own.
    fn put_entry(&mut self, entry: Entry) -> Result<(), AllocError>
        requires { IsAscending (arc_value entry.table).rows }
        ensures ok { OnOk result (self.new ≡ map.insert self.old (arc_value entry.name) (arc_value entry.table)) }
        ensures err { OnErr result (self.new ≡ self.old) }
    {
        let place = place_of(self.entries.as_slice(), &entry.name);
        if is_named(self.entries.as_slice(), place, &entry.name) {
            self.entries[place] = entry;
            return Ok(());
        }
        self.entries.insert(place, entry)?;
        Ok(())
    }

    /// Takes the table of this name away, if there is one. The others stay. It takes no memory.
    pub fn remove(&mut self, name: &Text)
        ensures { self.new ≡ map.remove self.old name.now }
    {
        let place = place_of(self.entries.as_slice(), name);
        if is_named(self.entries.as_slice(), place, name) {
            self.entries.remove(place);
        }
    }

    /// Carries a change out. The rows of the one table that changes are copied, those that go left out; the others
    /// are shared as before. Where memory runs out, the database is as before.
    pub fn apply(&mut self, change: &Change) -> Result<(), AllocError>
        ensures ok { OnOk result (self.new ≡ changed change.now self.old) }
        ensures err { OnErr result (self.new ≡ self.old) }
    {
        match change {
            Change::Unchanged => Ok(()),
            Change::Creates { table, def } => {
                let rows = List::new(*self.entries.allocator());
                let made = Table {
                    def: def.copy()?,
                    rows,
                };
                self.put(table.copy()?, made)
            }
            Change::Drops { table } => {
                self.remove(table);
                Ok(())
            }
            Change::Alters { table, gone, added } => self.alter(table, gone, added),
        }
    }

    // Takes rows from the table of this name and adds rows to it, where it is there.
    fn alter(&mut self, name: &Text, gone: &List<Row>, added: &List<Row>) -> Result<(), AllocError>
        ensures ok { OnOk result
            (self.new ≡ rows_changed_at name.now gone.now added.now (map.get self.old name.now) self.old) }
        ensures err { OnErr result (self.new ≡ self.old) }
    {
        let made = match self.get(name) {
            Some(table) => table.changed(gone, added)?,
            None => return Ok(()),
        };
        self.put(name.copy()?, made)
    }

    /// An equal database, which shares the names and the tables with this one. So it costs time in proportion to the
    /// number of tables, not of their rows.
    pub fn copy(&self) -> Result<Database, AllocError>
        ensures { IfOk result (λ copy. copy ≡ self.now) }
    {
        let mut entries = Vec::with_capacity(*self.entries.allocator(), self.entries.len())?;
        for entry in &self.entries {
            entries.push(entry.copy()?)?;
        }
        Ok(Database { entries })
    }
}

// Where an entry of this name stands, or where a new one goes.
fn place_of(entries: &[Entry], name: &Text) -> usize
    requires { IsTrue (names_rise entries.now) }
    ensures within { result ≤ length entries.now }
    ensures place { result ≡ place_in entries.now name.now }
{
    entries.partition_point(|entry| entry.name.as_bytes().cmp(name.as_bytes()).is_lt())
}

// Whether there is an entry at this place, and it has this name.
fn is_named(entries: &[Entry], place: usize, name: &Text) -> bool
    ensures named { result ≡ named_at name.now (slice_get entries.now place) }
    ensures within { IsTrue result → place < length entries.now }
{
    match entries.get(place) {
        Some(entry) => *entry.name == *name,
        None => false,
    }
}
