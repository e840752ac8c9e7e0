//! Names bound to columns: expressions over the columns in sight.
#![tactic(auto)]

mod binding;
mod branches;
mod comparisons;
mod faults;
mod hits;
mod names;
mod nodes;
mod operands;
mod operations;
mod sight;
mod unknown;

pub use binding::bind_expression;
pub use sight::Sight;

#[cfg(test)]
mod tests;
