//! The images that the words of a call name: each is read whole and then taken by the types that it states, one after the other, up to the first that
//! isn't held, is too long, is one too many or has a fault.
#![tactic(auto)]

mod kinds;
mod laws;
mod lines;
mod reading;
mod set;
mod stop;

pub use laws::one_outcome;
pub use lines::fault_line;
pub use set::images;
pub use stop::ImageStop;
