//! Sets of declarations put together: the union of what images state, where no full name has two declarations that differ and the rules and limits hold.
//!
//! `merge` gathers the declarations of all sets (`gathered`), finds the first name that has two (`conflicts`), keeps one declaration of each name (`united`), and asks the rules (`merging`).
#![tactic(auto)]

mod conflicts;
mod gathered;
mod laws;
mod merging;
mod refusal;
mod united;

pub use laws::{few_together, one_outcome, one_union};
pub use merging::merge;
pub use refusal::MergeRefusal;
