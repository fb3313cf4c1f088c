//! An image that is read: its rows, the names that its tokens stand for, and its rows by those to which they belong, each found once.
//! Names are taken out of it as the definitions say, or with their fault where it stands.
#![tactic(auto)]

mod faults;
mod names;
mod rows;
mod source;

pub use faults::refused;
pub use names::{full_name, name_of};
pub use source::{AttributeRows, PartRows, Source};
