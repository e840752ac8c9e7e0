//! What a session sees in its open transaction, what a statement does to that, and the database that a commit leaves.
#![tactic(auto)]

mod installing;
mod views;
mod work;

pub use installing::install;
pub use views::View;
pub use work::{Replied, reply};
