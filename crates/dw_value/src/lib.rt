//! Values, rows and kinds of columns, and the two containers that every other type of the warehouse is made of.
//!
//! A contract sees a `Text` as the list of its bytes and a `List<T>` as the list of its items, so `≡` between two of
//! them says that they hold the same. `Value` and `Row` are plain data. Their order and what a column holds stand in
//! specs/Values.antt, what it takes of other kinds in specs/Assignment.antt, exact arithmetic and rounding in
//! specs/Arithmetic.antt, exact sums in specs/Sums.antt, printed forms in specs/Printed.antt, numbers in texts in
//! specs/Written.antt, the kinds of results in specs/Kinds.antt, which encodings a kind may have in
//! specs/Encodings.antt, sorted lists in specs/Sorted.antt, the calendar in specs/Dates.antt. The order is total and
//! tells any two different rows apart, so a sorted list is the one name of the bag of its rows.
#![tactic(auto)]

mod arithmetic;
mod columns;
mod dates;
mod kinds;
pub mod laws;
mod lists;
mod order;
mod printed;
mod results;
mod scaling;
mod sorting;
mod sums;
mod texts;
mod values;
mod written;

pub use arithmetic::compute;
pub use columns::{admit, goes_with, holds_number};
pub use dates::read_date;
pub use kinds::{Comparison, Encoding, Fault, Kind, Misfit, Misread, Op, Style, Truth, allows};
pub use lists::{Copied, List};
pub use order::compare;
pub use printed::show;
pub use results::{literal_kind, result_kind};
pub use sorting::{add_rows, sort_rows};
pub use sums::Sum;
pub use texts::Text;
pub use values::{Field, Row, Value};
pub use written::read_number;

#[cfg(test)]
mod tests;
