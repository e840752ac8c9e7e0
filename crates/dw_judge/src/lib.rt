//! The judge of a journal: whether each event is due by the scripts and legal, and the first that isn't.
//!
//! It goes over the events once. What it keeps of the events so far stands for their history.
#![tactic(auto)]

mod answering;
mod asking;
mod dues;
mod follows;
mod happened;
mod judging;
mod legal;
mod locking;
mod marks;
mod moves;
mod objects;
mod opening;
mod openings;
mod refreshing;
mod refusing;
mod sames;
mod scripts;
mod sessions;
mod stepping;
mod summaries;
mod verdicts;
mod violations;
mod waits;

pub use judging::judge;
pub use verdicts::{Verdict, one_verdict};

#[cfg(test)]
mod tests;
