//! What is found once of an image before it is read: the names that its tokens stand for, the types that own its methods, and its rows by
//! those to which they belong. No fault is met here: a name that can't be read is kept as its kind of fault.
#![tactic(auto)]

mod indexes;
mod names;
mod owners;
mod rows;
mod texts;

pub use indexes::{Indexes, indexes_of, source_of};
pub use names::names_of;
pub use owners::owners_of;
pub use rows::{attribute_rows, part_rows};
