//! The locks of tables: what a statement wants.
use dw_value::Text;

/// How a table is locked, after the table-level locks of the Amazon Redshift guide.
#[derive(Clone, Copy, Debug, PartialEq, Eq)]
pub enum Mode {
    /// For reading. It stands beside all but `AccessExclusive`.
    AccessShare,
    /// For changing rows. It stands beside `AccessShare` alone.
    ShareRowExclusive,
    /// For changing the table itself. It stands beside no other lock.
    AccessExclusive,
}

/// A lock that a statement wants before it is opened.
#[derive(Debug, Drop)]
pub struct Want {
    /// The table's name.
    pub table: Text,
    /// How it is to be locked.
    pub mode: Mode,
}
