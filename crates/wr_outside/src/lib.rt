//! The outside as the tools see it: a store of named files and a sink of bytes, each of which may fail.
//!
//! A store and a sink may tell what they hold. What they tell, and how often they failed, is all that contracts
//! know of them: each answer of a call and of `read_whole`, `write_whole` and `put_all` is said in these terms.
#![tactic(auto)]

mod failures;
mod memory;
mod named_files;
mod outside;
mod safe;
mod whole;

pub use failures::Failures;
pub use memory::{MemorySink, MemoryStore};
pub use named_files::NamedFiles;
pub use outside::{Sink, SinkFault, Store, StoreFault};
pub use safe::{SafeSink, SafeStore};
pub use whole::{ReadRefusal, put_all, read_whole, write_whole};
