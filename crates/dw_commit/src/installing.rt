//! The database that a commit leaves, built before the commit is decided.
ghost use Rattle.std.specs.Prelude.{◌≡◌, ◌++◌, ◌≤◌, length, IfOk, OnOk, IsTrue};
ghost use Rattle.dw_value.specs.Values.{row_cmp};
ghost use Rattle.dw_value.specs.Sorted.{add_sorted};
ghost use Rattle.dw_model.specs.declared.objects.Object.TheVariants.{Def, Rows};
ghost use Rattle.dw_model.specs.Databases.{def_of, rows_of};
ghost use Rattle.dw_model.specs.Objects.{is_among, same_object};
ghost use Rattle.dw_journal.specs.Contents.{Effect, added_by, after_commit, def_after, rows_after, with_table};

use crate::views::View;
use dw_journal::Taken;
use dw_model::{Change, Column, Database, Object, Table, TableDef};
use dw_value::{List, Row, Text, add_rows};
use std::alloc::{AllocError, Global};

/// The database once a transaction with this view, which took this, is committed on `database`. A table that is then as
/// in the view or as in `database` is shared with it; of any other one the rows are copied once, with those added that
/// the transaction's changes add.
pub fn install(view: &View, taken: &Taken, database: &Database) -> Result<Database, AllocError>
    ensures { IfOk result (λ next. next ≡ after_commit
        (record { taken = taken.now; changes = view.now.changes; view = view.now.database }) database.now) }
{
    let mut next = database.copy()?;
    let writes = taken.writes.as_slice();
    for place in (0..writes.len()).rev() {
        install_table(view, taken, database, writes[place].table(), &mut next)?;
    }
    Ok(next)
}

// Puts the table of a name into the next database as the transaction leaves it.
fn install_table(
    view: &View,
    taken: &Taken,
    before: &Database,
    name: &Text,
    next: &mut Database,
) -> Result<(), AllocError>
    ensures { let done : Effect = record { taken = taken.now; changes = view.now.changes; view = view.now.database } in
        OnOk result (next.new ≡ with_table name.now
        (def_after done before.now name.now) (rows_after done before.now name.now) next.old) }
{
    let alloc = view.changes.allocator();
    let defs = if has_def(taken.writes.as_slice(), name) {
        &view.database
    } else {
        before
    };
    if !has_rows(taken.writes.as_slice(), name) {
        return place_table(alloc, defs, before, name, next);
    }
    if has_rows(taken.reads.as_slice(), name) {
        return place_table(alloc, defs, &view.database, name, next);
    }
    let added = rows_added(alloc, view.changes.as_slice(), name)?;
    build_table(defs, before, added, name, next)
}

// Puts a table under a name that has its definition from one database and its rows from another, or none where the
// first one has none. Where the two define it alike it is shared, and else copied.
fn place_table(
    alloc: Global,
    defs: &Database,
    rows: &Database,
    name: &Text,
    next: &mut Database,
) -> Result<(), AllocError>
    ensures { OnOk result
        (next.new ≡ with_table name.now (def_of defs.now name.now) (rows_of rows.now name.now) next.old) }
{
    if are_defined_alike(defs, rows, name) {
        return next.share(name, rows);
    }
    build_table(defs, rows, List::new(alloc), name, next)
}

// Puts a table under a name that has its definition from one database and from another copies of its rows, with these
// added, or none where the first one has none.
fn build_table(
    defs: &Database,
    rows: &Database,
    added: List<Row>,
    name: &Text,
    next: &mut Database,
) -> Result<(), AllocError>
    ensures { OnOk result (next.new ≡ with_table name.now (def_of defs.now name.now)
        (add_sorted row_cmp added (rows_of rows.now name.now)) next.old) }
{
    let Some(table) = defs.get(name) else {
        next.remove(name);
        return Ok(());
    };
    let def = table.def.copy()?;
    let kept = match rows.get(name) {
        Some(table) => table.rows.copy()?,
        None => List::new(added.allocator()),
    };
    let rows = add_rows(kept, added)?;
    next.put(name.copy()?, Table { def, rows })
}

// Whether two databases have tables of one definition under a name, or both none.
fn are_defined_alike(a: &Database, b: &Database, name: &Text) -> bool
    ensures { IsTrue result → def_of a.now name.now ≡ def_of b.now name.now }
{
    match (a.get(name), b.get(name)) {
        (Some(a), Some(b)) => is_same_definition(&a.def, &b.def),
        (None, None) => true,
        (Some(_), None) | (None, Some(_)) => false,
    }
}

// Whether these are the same definitions.
fn is_same_definition(a: &TableDef, b: &TableDef) -> bool
    ensures { IsTrue result → a.now ≡ b.now }
{
    a.name == b.name
        && a.style == b.style
        && a.sort == b.sort
        && are_alike(a.columns.as_slice(), b.columns.as_slice())
}

// Whether these are the same columns in the same order.
fn are_alike(a: &[Column], b: &[Column]) -> bool
    ensures { IsTrue result → a.now ≡ b.now }
{
    if a.len() != b.len() {
        return false;
    }
    for place in 0..a.len() {
        if !is_alike(&a[place], &b[place]) {
            return false;
        }
    }
    true
}

// Whether two columns take the same values.
fn takes_same(a: &Column, b: &Column) -> bool
    ensures { IsTrue result → (a.now.kind ≡ b.now.kind) × (a.now.not_null ≡ b.now.not_null) }
{
    a.kind == b.kind && a.not_null == b.not_null
}

// Whether two columns have the same default.
#[tactic(auto, using(crate::proofs::Definitions::value_tied))]
fn has_same_default(a: &Column, b: &Column) -> bool
    ensures { IsTrue result → a.now.default ≡ b.now.default }
{
    a.default == b.default
}

// Whether two columns have the same name and encoding.
fn has_same_name(a: &Column, b: &Column) -> bool
    ensures { IsTrue result → (a.now.name ≡ b.now.name) × (a.now.encoding ≡ b.now.encoding) }
{
    a.name == b.name && a.encoding == b.encoding
}

// Whether two columns are the same.
#[tactic(auto, using(crate::proofs::Definitions::column_same))]
fn is_alike(a: &Column, b: &Column) -> bool
    ensures { IsTrue result → a.now ≡ b.now }
{
    takes_same(a, b) && has_same_default(a, b) && has_same_name(a, b)
}

// Copies of the rows that changes add to the table of a name, in order.
fn rows_added(alloc: Global, changes: &[Change], name: &Text) -> Result<List<Row>, AllocError>
    ensures { IfOk result (λ rows. rows ≡ added_by changes.now name.now) }
{
    let mut rows = List::new(alloc);
    for change in changes {
        if let Change::Alters { table, added, .. } = change {
            if name == table {
                add_copies(&mut rows, added.as_slice())?;
            }
        }
    }
    Ok(rows)
}

// Puts copies of these rows after the others.
fn add_copies(rows: &mut List<Row>, more: &[Row]) -> Result<(), AllocError>
    ensures { OnOk result (rows.new ≡ rows.old ++ more.now) }
{
    for row in more {
        rows.push(row.copy()?)?;
    }
    Ok(())
}

// Whether the definition of the table of a name is among these objects. Where they ascend and it is, it is found by
// binary search, and else all of them are gone through.
fn has_def(objects: &[Object], name: &Text) -> bool
    ensures { result ≡ is_among (Def name.now) objects.now }
{
    if is_def_at(objects, place_of(objects, name), name) {
        return true;
    }
    objects.iter().any(|object| is_def(object, name))
}

// Whether the rows of the table of a name are among these objects, found in the same way.
fn has_rows(objects: &[Object], name: &Text) -> bool
    ensures { result ≡ is_among (Rows name.now) objects.now }
{
    let place = place_of(objects, name);
    if is_rows_at(objects, place, name) || is_rows_at(objects, place + 1, name) {
        return true;
    }
    objects.iter().any(|object| is_rows(object, name))
}

// How many of these objects are of tables whose names come before this one, where the objects ascend.
fn place_of(objects: &[Object], name: &Text) -> usize
    ensures { result ≤ length objects.now }
{
    objects.partition_point(|object| object.table().as_bytes().cmp(name.as_bytes()).is_lt())
}

// Whether the object at this place is the definition of the table of this name.
fn is_def_at(objects: &[Object], place: usize, name: &Text) -> bool
    ensures { IsTrue result → IsTrue (is_among (Def name.now) objects.now) }
{
    place < objects.len() && is_def(&objects[place], name)
}

// Whether the object at this place is the rows of the table of this name.
fn is_rows_at(objects: &[Object], place: usize, name: &Text) -> bool
    ensures { IsTrue result → IsTrue (is_among (Rows name.now) objects.now) }
{
    place < objects.len() && is_rows(&objects[place], name)
}

fn is_def(object: &Object, name: &Text) -> bool
    ensures { result ≡ same_object (Def name.now) object.now }
{
    match object {
        Object::Def(other) => name == other,
        Object::Rows(_) => false,
    }
}

fn is_rows(object: &Object, name: &Text) -> bool
    ensures { result ≡ same_object (Rows name.now) object.now }
{
    match object {
        Object::Rows(other) => name == other,
        Object::Def(_) => false,
    }
}

#[cfg(test)]
mod tests {
    use super::install;
    use crate::views::View;
    use crate::work::{Replied, reply};
    use dw_journal::Taken;
    use dw_model::{ColumnSpec, Database, FileMap, Literal, Object, Statement, TableSpec};
    use dw_value::{Kind, List, Text, Value};
    use std::alloc::{AllocError, Global};
    use std::test::Fail;

    // What a transaction does on its snapshot, the database that it is committed on, what it reads and writes, and what
    // becomes of the table `t`: its column and its rows.
    const COMMITS: &str = "=>create t x,insert t 1=>=>d t r t=>d t r t=>x 1
create t x,create u x=>insert t 2,insert u 9,insert t 1=>create t x,insert t 5,insert t 1=>d t=>r t=>x 1 1 2 5
create t x=>insert t 2=>=>d t=>r t=>none
create t x,insert t 1=>=>create t y,insert t 5=>d t=>d t=>x 5
create t x,insert t 1=>insert t 2=>create t x,insert t 5=>d t r t=>r t=>x 1 2
create t x,insert t 1=>insert t 2=>create t y,insert t 5=>d t r t=>r t=>y 1 2
create t x,insert t 1=>drop t=>create t x,insert t 1=>d t r t=>d t r t=>none
create t x,insert t 1=>drop t,create t y,insert t 2=>create t x,insert t 1=>d t r t=>d t r t=>y 2
=>=>create t y,insert t 5=>=>d t=>none
create t x,insert t 1=>=>create t y,insert t 5=>r t=>=>y 5";

    fn statement(alloc: Global, text: &str) -> Result<Statement, AllocError> {
        let mut words = text.split_whitespace();
        let form = words.next().unwrap_or("");
        let name = Text::from_str(alloc, words.next().unwrap_or(""))?;
        let word = words.next().unwrap_or("");
        if form == "create" {
            let mut columns = List::new(alloc);
            columns.push(ColumnSpec::new(Text::from_str(alloc, word)?, Kind::Int))?;
            return Ok(Statement::Create {
                spec: TableSpec::new(name, columns),
            });
        }
        if form == "drop" {
            return Ok(Statement::Drop { table: name });
        }
        let mut values = List::new(alloc);
        values.push(Literal::Number {
            coefficient: word.parse::<i128>().unwrap_or(0),
            scale: 0,
        })?;
        let mut rows = List::new(alloc);
        rows.push(values)?;
        Ok(Statement::Insert {
            table: name,
            columns: List::new(alloc),
            rows,
        })
    }

    // The view after these statements, none of which is refused.
    fn view_of(alloc: Global, text: &str, database: Database) -> Result<View, AllocError> {
        let files = FileMap::new(alloc);
        let changes = List::new(alloc);
        let mut view = View { database, changes };
        for part in text.split(',') {
            if part.is_empty() {
                continue;
            }
            let statement = statement(alloc, part)?;
            view = match reply(alloc, &statement, &files, view)? {
                Replied::Answered { view, .. } => view,
                Replied::Refused(_) => {
                    let database = Database::new(alloc);
                    let changes = List::new(alloc);
                    View { database, changes }
                }
            };
        }
        Ok(view)
    }

    fn objects(alloc: Global, text: &str) -> Result<List<Object>, AllocError> {
        let mut objects = List::new(alloc);
        let mut words = text.split_whitespace();
        while let Some(form) = words.next() {
            let name = Text::from_str(alloc, words.next().unwrap_or(""))?;
            objects.push(if form == "d" {
                Object::Def(name)
            } else {
                Object::Rows(name)
            })?;
        }
        Ok(objects)
    }

    // The first column of the table `t`, and the first value of each of its rows.
    fn shown(alloc: Global, database: &Database) -> Result<String, AllocError> {
        let Some(table) = database.get(&Text::from_str(alloc, "t")?) else {
            return String::from_str(alloc, "none");
        };
        let mut text = String::new(alloc);
        for column in table.def.columns.as_slice() {
            text.push_str(column.name.as_str())?;
        }
        for row in table.rows.as_slice() {
            if let Some(Value::Number(number)) = row.values.get(0) {
                text.push_str(format!(in alloc; " {number}")?.as_str())?;
            }
        }
        Ok(text)
    }

    #[test]
    fn commits_leave_tables(rt: HostRuntime) -> Result<(), Fail> {
        let alloc = rt.alloc();
        for line in COMMITS.lines() {
            let mut parts = line.split("=>");
            let snapshot = view_of(alloc, parts.next().unwrap_or(""), Database::new(alloc))?;
            let view = view_of(alloc, parts.next().unwrap_or(""), snapshot.database)?;
            let before = view_of(alloc, parts.next().unwrap_or(""), Database::new(alloc))?;
            let taken = Taken {
                snapshot: 0,
                reads: objects(alloc, parts.next().unwrap_or(""))?,
                writes: objects(alloc, parts.next().unwrap_or(""))?,
            };
            let next = install(&view, &taken, &before.database)?;
            let wanted = parts.next().unwrap_or("");
            assert_eq!(rt; shown(alloc, &next)?.as_str(), wanted, "{line}");
        }
        Ok(())
    }
}
