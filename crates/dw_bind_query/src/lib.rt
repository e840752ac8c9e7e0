//! Queries, tuples and new values, bound to the columns in sight.
//!
//! What each is bound to, or refused for, stands in dw_query's specs/Binding.antt and specs/BindingRows.antt: the first
//! name that means nothing, in the order in which they are written, and only after all names what doesn't go together.
#![tactic(auto)]

mod conditions;
mod items;
mod lookup;
mod names;
mod parts;
mod rows;

pub use conditions::bind_condition;
pub use items::bind_query;
pub use rows::{bind_change, bind_tuples};

#[cfg(test)]
mod tests;
