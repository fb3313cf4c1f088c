//! The source set of a command: the files that its words name and those that they import, each read, lexed and parsed in its turn, up to the first that is
//! missing, too long, one too many, or refused.
#![tactic(auto)]

mod distinct;
mod files;
mod imports;
mod laws;
mod lines;
mod names;
mod reading;
mod set;
mod source;
mod texts;

pub use files::{SourceSet, line_of};
pub use laws::one_outcome;
pub use lines::refusal_line;
pub use set::sources;
pub use source::{Source, SourceStop, Text};
