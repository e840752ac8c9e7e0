//! What a transaction reads and writes of tables, and the order of these objects.
ghost use Rattle.std.specs.Prelude.{◌≡◌, ◌+◌, ◌<◌, ◌≤◌, false, [], ◌∷◌, IfOk, OnOk, OnErr, slice_get};
ghost use Rattle.std.specs.Option.{option_map_or};
ghost use Rattle.std.specs.Vec.{vec_capacity, vec_len};
ghost use Rattle.dw_model.specs.declared.objects.Object.TheVariants as object;
ghost use Rattle.dw_model.specs.Objects.{IsAscendingObjects, defs_of, object_before, reads_of, same_object, table_of, with_object, with_objects, writes_of};

use crate::statements::Statement;
use dw_value::{Copied, List, Text};
use std::alloc::{AllocError, Global};
use std::mem;

/// What a transaction reads and writes of a table: its definition, or its rows.
#[derive(Debug, Drop)]
pub enum Object {
    /// The definition of the table of this name.
    Def(Text),
    /// The rows of the table of this name.
    Rows(Text),
}

impl Object {
    /// An equal object.
    pub fn copy(&self) -> Result<Object, AllocError>
        ensures { IfOk result (λ copy. copy ≡ self.now) }
    {
        match self {
            Object::Def(name) => Ok(Object::Def(name.copy()?)),
            Object::Rows(name) => Ok(Object::Rows(name.copy()?)),
        }
    }

    /// The name of the object's table.
    pub fn table(&self) -> &Text
        ensures { result.now ≡ table_of self.now }
    {
        match self {
            Object::Def(name) | Object::Rows(name) => name,
        }
    }

    /// Whether two objects are the same: the definitions, or the rows, of tables of one name.
    pub fn is_same(&self, other: &Object) -> bool
        ensures { result ≡ same_object self.now other.now }
    {
        match (self, other) {
            (Object::Def(a), Object::Def(b)) | (Object::Rows(a), Object::Rows(b)) => a == b,
            (Object::Def(_), Object::Rows(_)) | (Object::Rows(_), Object::Def(_)) => false,
        }
    }

    /// Whether the object comes before another: by the table's name, and the definition before the rows.
    pub fn is_before(&self, other: &Object) -> bool
        ensures { result ≡ object_before self.now other.now }
    {
        match (self, other) {
            (Object::Def(a), Object::Rows(b)) => a.as_bytes().cmp(b.as_bytes()).is_lt() || a == b,
            (Object::Def(a), Object::Def(b))
            | (Object::Rows(a), Object::Def(b))
            | (Object::Rows(a), Object::Rows(b)) => a.as_bytes().cmp(b.as_bytes()).is_lt(),
        }
    }
}

impl Copied for Object {
    fn copy(&self) -> Result<Object, AllocError> {
        self.copy()
    }
}

/// Puts these objects into an ascending list, each at its place and once, by binary search. Where memory runs out, the
/// list is as before; room for all of them is asked for first.
pub fn add_objects(objects: &mut List<Object>, more: List<Object>) -> Result<(), AllocError>
    requires { IsAscendingObjects objects.old }
    ensures ok { OnOk result (objects.new ≡ with_objects more objects.old) }
    ensures err { OnErr result (objects.new ≡ objects.old) }
    ensures ascending { IsAscendingObjects objects.new }
{
    let alloc = objects.allocator();
    let mut set = mem::replace(objects, List::new(alloc)).into_vec();
    let mut left = more;
    if let Err(error) = set.reserve(left.len()) {
        *objects = List::from_vec(set);
        return Err(error);
    }
    while let Some(object) = left.pop() {
        put_object(&mut set, object);
    }
    *objects = List::from_vec(set);
    Ok(())
}

// Puts an object into an ascending list that has room for it.
fn put_object(set: &mut Vec<Object>, object: Object)
    requires room { vec_len set.old < vec_capacity set.old }
    requires ascending { IsAscendingObjects set.old.items }
    ensures items { set.new.items ≡ with_object object set.old.items }
    ensures len { vec_len set.new ≤ vec_len set.old + 1 }
    ensures capacity { vec_capacity set.old ≤ vec_capacity set.new }
{
    let place = set.partition_point(|other| other.is_before(&object));
    if !stands_at(set.as_slice(), place, &object) {
        let _inserted = set.insert(place, object);
    }
}

// Whether the object stands at this place.
fn stands_at(objects: &[Object], place: usize, object: &Object) -> bool
    ensures { result ≡ option_map_or (same_object object.now) (slice_get objects.now place) false }
{
    match objects.get(place) {
        Some(other) => object.is_same(other),
        None => false,
    }
}

impl Statement {
    /// The objects that the statement reads, in ascending order. They depend on the statement alone.
    pub fn reads(&self, alloc: Global) -> Result<List<Object>, AllocError>
        ensures { IfOk result (λ objects. objects ≡ reads_of self.now) }
    {
        match self {
            Statement::Begin | Statement::Commit | Statement::Rollback | Statement::Vacuum { .. } =>
                Ok(List::new(alloc)),
            Statement::Create { spec } => both(alloc, &spec.name),
            Statement::Drop { table } => both(alloc, table),
            Statement::Lock { tables } => definition_set(alloc, tables.as_slice()),
            Statement::Insert { table, .. } => only(alloc, Object::Def(table.copy()?)),
            Statement::Select { query } => both(alloc, &query.table),
        }
    }

    /// The objects that the statement writes, in ascending order. They depend on the statement alone.
    pub fn writes(&self, alloc: Global) -> Result<List<Object>, AllocError>
        ensures { IfOk result (λ objects. objects ≡ writes_of self.now) }
    {
        match self {
            Statement::Create { spec } => both(alloc, &spec.name),
            Statement::Drop { table } => both(alloc, table),
            Statement::Insert { table, .. } => only(alloc, Object::Rows(table.copy()?)),
            Statement::Begin
            | Statement::Commit
            | Statement::Rollback
            | Statement::Vacuum { .. }
            | Statement::Lock { .. }
            | Statement::Select { .. } => Ok(List::new(alloc)),
        }
    }
}

fn only(alloc: Global, object: Object) -> Result<List<Object>, AllocError>
    ensures { IfOk result (λ objects. objects ≡ object ∷ []) }
{
    let mut objects = List::new(alloc);
    objects.push(object)?;
    Ok(objects)
}

// The definitions of the tables of these names.
fn definitions(alloc: Global, tables: &[Text]) -> Result<List<Object>, AllocError>
    ensures { IfOk result (λ objects. objects ≡ defs_of tables.now) }
{
    let mut objects = List::with_capacity(alloc, tables.len())?;
    for table in tables {
        objects.push(Object::Def(table.copy()?))?;
    }
    Ok(objects)
}

// The same in ascending order, each once.
fn definition_set(alloc: Global, tables: &[Text]) -> Result<List<Object>, AllocError>
    ensures { IfOk result (λ objects. objects ≡ with_objects (defs_of tables.now) []) }
{
    let mut objects = List::new(alloc);
    add_objects(&mut objects, definitions(alloc, tables)?)?;
    Ok(objects)
}

// The definition and the rows of the table of a name.
fn both(alloc: Global, name: &Text) -> Result<List<Object>, AllocError>
    ensures { IfOk result (λ objects. objects ≡ object.Def name.now ∷ object.Rows name.now ∷ []) }
{
    let mut objects = List::new(alloc);
    objects.push(Object::Def(name.copy()?))?;
    objects.push(Object::Rows(name.copy()?))?;
    Ok(objects)
}

#[cfg(test)]
mod tests {
    use super::{Object, add_objects};
    use crate::statements::{ColumnSpec, Statement, TableSpec};
    use dw_value::{Kind, List, Text};
    use std::alloc::{AllocError, Global};
    use std::test::Fail;

    // The objects of a text, as `d a r b` for the definition of `a` and the rows of `b`.
    fn objects(alloc: Global, text: &str) -> Result<List<Object>, AllocError> {
        let mut objects = List::new(alloc);
        let mut words = text.split_whitespace();
        while let Some(form) = words.next() {
            let name = Text::from_str(alloc, words.next().unwrap_or(""))?;
            objects.push(if form == "d" {
                Object::Def(name)
            } else {
                Object::Rows(name)
            })?;
        }
        Ok(objects)
    }

    fn text_of(alloc: Global, objects: &[Object]) -> Result<String, AllocError> {
        let mut text = String::new(alloc);
        for object in objects {
            text.push_str(match object {
                Object::Def(_) => " d ",
                Object::Rows(_) => " r ",
            })?;
            text.push_str(object.table().as_str())?;
        }
        Ok(text)
    }

    #[test]
    fn sets_stay_ascending(rt: HostRuntime) -> Result<(), Fail> {
        let alloc = rt.alloc();
        for (more, wanted) in [
            ("", " d b r b"),
            ("r b d b", " d b r b"),
            ("r c d bb r a d a d bb", " d a r a d b r b d bb r c"),
        ] {
            let mut set = List::new(alloc);
            add_objects(&mut set, objects(alloc, "r b d b")?)?;
            add_objects(&mut set, objects(alloc, more)?.copy()?)?;
            assert_eq!(rt; text_of(alloc, set.as_slice())?.as_str(), wanted, "{more}");
        }
        Ok(())
    }

    // The statement of a word, of the table `t`; LOCK is of `u`, `t` and `u`.
    fn statement(alloc: Global, form: &str) -> Result<Statement, AllocError> {
        let table = Text::from_str(alloc, "t")?;
        match form {
            "create" => create(alloc, table),
            "drop" => Ok(Statement::Drop { table }),
            "insert" => Ok(Statement::Insert {
                table,
                columns: List::new(alloc),
                rows: List::new(alloc),
            }),
            "lock" => lock(alloc, table),
            _ => Ok(Statement::Begin),
        }
    }

    fn create(alloc: Global, table: Text) -> Result<Statement, AllocError> {
        let mut columns = List::new(alloc);
        columns.push(ColumnSpec::new(table.copy()?, Kind::Int))?;
        Ok(Statement::Create {
            spec: TableSpec::new(table, columns),
        })
    }

    fn lock(alloc: Global, table: Text) -> Result<Statement, AllocError> {
        let mut tables = List::new(alloc);
        tables.push(Text::from_str(alloc, "u")?)?;
        tables.push(table)?;
        tables.push(Text::from_str(alloc, "u")?)?;
        Ok(Statement::Lock { tables })
    }

    #[test]
    fn statements_read_and_write(rt: HostRuntime) -> Result<(), Fail> {
        let alloc = rt.alloc();
        for (form, reads, writes) in [
            ("create", " d t r t", " d t r t"),
            ("drop", " d t r t", " d t r t"),
            ("insert", " d t", " r t"),
            ("lock", " d t d u", ""),
            ("begin", "", ""),
        ] {
            let statement = statement(alloc, form)?;
            assert_eq!(rt;
                text_of(alloc, statement.reads(alloc)?.as_slice())?.as_str(),
                reads
            );
            assert_eq!(rt;
                text_of(alloc, statement.writes(alloc)?.as_slice())?.as_str(),
                writes
            );
        }
        Ok(())
    }
}
