//! Laws of statements: calls that do nothing, whose contracts speak of every statement and every database.
ghost use Rattle.std.specs.Prelude.{◌≡◌, true, false, List as Items};
ghost use Rattle.std.specs.Prelude.{ℕ};
ghost use Rattle.dw_value.specs.Values.{row_cmp};
ghost use Rattle.dw_value.specs.Sorted.{add_sorted};
ghost use Rattle.dw_model.specs.declared.statements.Statement.{Statement};
ghost use Rattle.dw_model.specs.declared.objects.Object.{Object};
ghost use Rattle.dw_model.specs.declared.objects.Object.TheVariants.{Def, Rows};
ghost use Rattle.dw_model.specs.Files.{Files};
ghost use Rattle.dw_model.specs.Databases.{Tables, AllAscending, def_of, rows_of};
ghost use Rattle.dw_model.specs.Changes.{added_to, def_by, rows_by};
ghost use Rattle.dw_model.specs.Alone.{change_of, next_of, reply_of};
ghost use Rattle.dw_model.specs.Objects.{reads_of, writes_of, is_among, SameAt, SameAtAll};

/// The frame of a statement, which the serial order of transactions stands on. What it replies and changes, and what
/// becomes of an object that it reads and writes, depend on the objects in its read set alone. An object outside its
/// write set stays as it is. An object that it writes without reading is the rows of a table, to which it adds the
/// rows of its change.
pub fn statements_have_a_frame()
    ensures reply { (files : Files) (statement : Statement) (a b : Tables) →
        SameAtAll a b (reads_of statement) → reply_of files statement a ≡ reply_of files statement b }
    ensures change { (files : Files) (statement : Statement) (a b : Tables) →
        SameAtAll a b (reads_of statement) → change_of files statement a ≡ change_of files statement b }
    ensures written { (files : Files) (statement : Statement) (a b : Tables) (object : Object) →
        SameAtAll a b (reads_of statement) → is_among object (reads_of statement) ≡ true →
        is_among object (writes_of statement) ≡ true →
        SameAt (next_of files statement a) (next_of files statement b) object }
    ensures added { (files : Files) (statement : Statement) (a : Tables) (name : Items ℕ) →
        is_among (Rows name) (writes_of statement) ≡ true → is_among (Rows name) (reads_of statement) ≡ false →
        rows_of (next_of files statement a) name ≡
        add_sorted row_cmp (added_to name (change_of files statement a)) (rows_of a name) }
    ensures added_alone { (statement : Statement) (name : Items ℕ) →
        is_among (Def name) (writes_of statement) ≡ true → is_among (Def name) (reads_of statement) ≡ true }
    ensures unwritten { (files : Files) (statement : Statement) (a : Tables) (object : Object) →
        is_among object (writes_of statement) ≡ false → SameAt a (next_of files statement a) object }
{}

/// The database after a statement is the change applied to the one before, name by name: its definitions and its rows.
pub fn next_applies_the_change()
    ensures definitions { (files : Files) (statement : Statement) (tables : Tables) (name : Items ℕ) →
        def_of (next_of files statement tables) name ≡
        def_by name (change_of files statement tables) (def_of tables name) }
    ensures rows { (files : Files) (statement : Statement) (tables : Tables) (name : Items ℕ) →
        rows_of (next_of files statement tables) name ≡
        rows_by name (change_of files statement tables) (rows_of tables name) }
{}

/// Where the rows of each table stand in ascending order, they do so after a statement, too.
pub fn rows_stay_ascending()
    ensures { (files : Files) (statement : Statement) (a : Tables) →
        AllAscending a → AllAscending (next_of files statement a) }
{}
