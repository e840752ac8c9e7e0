//! The certifier: the low and the high watermark of a transaction, after the Serial Safety Net paper of Wang, Johnson,
//! Fekete and Pandis, and the object that a violation of them names. It keeps summaries of the commits by object.
#![tactic(auto)]

mod certifier;
mod objects;
mod summaries;
mod violations;

pub use certifier::{Certifier, Marks};
pub use dw_journal::Taken;
