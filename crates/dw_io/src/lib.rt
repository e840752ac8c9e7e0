//! The outside of the warehouse: where the bytes of scripts and loads come from, and where a report goes.
//!
//! [`Files`] and [`Sink`] are what the rest of the program knows of it. Each comes in two forms: one in memory, whose
//! contract says every byte and which calls fail, and a thin one over the machine's files and standard output, which
//! tells nothing of what it holds and is trusted.
#![tactic(auto)]

mod calls;
mod host;
mod memory;
mod outside;
mod whole;

pub use host::{HostFiles, HostSink};
pub use memory::{MemoryFiles, MemorySink};
pub use outside::{FileFault, Files, Looked, Sink, SinkFault};
pub use whole::{ReadStop, read_file, write_whole};

#[cfg(test)]
mod tests;
