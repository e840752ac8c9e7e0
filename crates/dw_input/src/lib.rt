//! What the programs are handed: the names among a command's words, the bytes of the files of those names, and the
//! statements of scripts.
#![tactic(auto)]

mod files;
mod scripts;
mod words;

pub use files::{MAX_SCRIPT, read_file, read_files};
pub use scripts::read_scripts;
pub use words::{MAX_SCRIPTS, names, words_given};
