//! Limits of a whole set, in the order of places: how many types it declares, and how many names.
#![tactic(auto)]

mod counts;
mod pass;

pub use counts::names_in;
pub use pass::first_past_limits;
