//! Interfaces of one list that share a member's or an accessor's name.
#![tactic(auto)]

mod clash;
mod names;
mod table;

pub use clash::clashes;
pub use names::put_names;
pub use table::Table;
