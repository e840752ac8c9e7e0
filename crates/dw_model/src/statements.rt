//! The statements that the grammar derives.
ghost use Rattle.std.specs.Prelude.{◌≡◌, [], None, false};

use dw_value::{Comparison, Encoding, Kind, List, Text};

/// A literal, as it is written.
#[derive(Debug, Drop)]
pub enum Literal {
    /// NULL.
    Null,
    /// A number: that of its digits with its sign, whatever its point, and how many digits stood after the point, from 0
    /// to 37.
    Number { coefficient: i128, scale: u8 },
    /// A text.
    Words { text: Text },
    /// DATE and a text, which need not be that of a date.
    Date { text: Text },
    /// TRUE or FALSE.
    Truth { value: bool },
}

/// A column of a table that is to be created. Of an option that was written twice the last counts.
#[derive(Debug, Drop)]
pub struct ColumnSpec {
    /// The column's name, folded to lower case.
    pub name: Text,
    /// What the column is to take.
    pub kind: Kind,
    /// Whether NOT NULL was written, and no NULL after it.
    pub not_null: bool,
    /// What was written after DEFAULT, if it was.
    pub default: Option<Literal>,
    /// What was written after ENCODE, if it was.
    pub encoding: Option<Encoding>,
}

impl ColumnSpec {
    /// A column of this name and kind, for which no option is written. It takes no memory.
    pub fn new(name: Text, kind: Kind) -> ColumnSpec
        ensures { result
            ≡ record { name = name; kind = kind; not_null = false; default = None; encoding = None } }
    {
        ColumnSpec {
            name,
            kind,
            not_null: false,
            default: None,
            encoding: None,
        }
    }
}

/// What was written after DISTSTYLE.
#[derive(Debug, Clone, Copy, PartialEq, Eq, Drop)]
pub enum StyleWord {
    /// EVEN, or AUTO, which is taken as EVEN.
    Even,
    /// KEY.
    Key,
    /// ALL.
    All,
}

/// A table that is to be created.
#[derive(Debug, Drop)]
pub struct TableSpec {
    /// The table's name, folded to lower case.
    pub name: Text,
    /// The columns, in the order in which they were written.
    pub columns: List<ColumnSpec>,
    /// The distribution style, if one was written. Of two the last counts.
    pub style: Option<StyleWord>,
    /// The column of each DISTKEY that was written.
    pub dist_keys: List<Text>,
    /// The columns of each SORTKEY that was written, but for SORTKEY AUTO.
    pub sort_keys: List<List<Text>>,
    /// The names that keys and constraints on the table itself have in parentheses, in the order in which they were
    /// written.
    pub named: List<Text>,
}

impl TableSpec {
    /// A table of this name and these columns, for which nothing else is written. It takes no memory.
    pub fn new(name: Text, columns: List<ColumnSpec>) -> TableSpec
        ensures { result ≡ record {
          name = name;
          columns = columns;
          style = None;
          dist_keys = [];
          sort_keys = [];
          named = [];
        } }
    {
        let alloc = columns.allocator();
        TableSpec {
            name,
            columns,
            style: None,
            dist_keys: List::new(alloc),
            sort_keys: List::new(alloc),
            named: List::new(alloc),
        }
    }
}

/// A comparison of a column with a literal.
#[derive(Debug, Drop)]
pub struct Test {
    /// The column's name.
    pub column: Text,
    /// How the column's value is compared.
    pub comparison: Comparison,
    /// What it is compared with.
    pub literal: Literal,
}

/// A query of some columns of one table's rows.
#[derive(Debug, Drop)]
pub struct Query {
    /// The names of the columns, in the order of the answer.
    pub items: List<Text>,
    /// The table's name.
    pub table: Text,
    /// The condition after WHERE.
    pub keep: Option<Test>,
}

/// A statement that the grammar derives. Names are folded to lower case.
#[derive(Debug, Drop)]
pub enum Statement {
    /// BEGIN or START TRANSACTION: a block of statements begins, which are one transaction.
    Begin,
    /// COMMIT or END: the block ends, and its transaction is committed.
    Commit,
    /// ROLLBACK or ABORT: the block ends without a trace.
    Rollback,
    /// VACUUM: the slices of the table are rebuilt one by one. It is no transaction.
    Vacuum {
        table: Text,
    },
    /// CREATE TABLE.
    Create {
        spec: TableSpec,
    },
    /// DROP TABLE.
    Drop {
        table: Text,
    },
    /// LOCK: the tables of these names, at least one, are locked to the end of the transaction.
    Lock {
        tables: List<Text>,
    },
    /// INSERT INTO .. VALUES, with the literals of each tuple, for the columns of these names. Where no names were
    /// written, they are for all columns of the table in order.
    Insert {
        table: Text,
        columns: List<Text>,
        rows: List<List<Literal>>,
    },
    /// SELECT.
    Select {
        query: Query,
    },
}
