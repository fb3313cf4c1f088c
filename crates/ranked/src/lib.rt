//! Refusals at places and the first of them: names, places, what stops a call, the order of refusals by place, code
//! and word, and the laws by which passes over many rules give the one broken entry that stands first.
#![tactic(auto)]

mod name;
mod place;
mod refusal;
mod stop;

pub use name::Name;
pub use place::Place;
pub use refusal::{Rank, Refusal, earlier};
pub use stop::{Memory, Stop};
