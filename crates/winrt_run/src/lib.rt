//! The tools over the real outside: the words of the process, real files by their paths, and the standard streams. The status
//! that `run` answers is the one that the top call answers for these words over this store and these two sinks.
#![tactic(auto)]

mod answer;
mod disk;
mod process;
mod stream;
mod words;

pub use disk::Disk;
pub use process::run;
pub use stream::Stream;
pub use words::WordsRefusal;
