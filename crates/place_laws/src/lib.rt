//! What is accepted doesn't depend on places: laws alone.
#![tactic(auto)]

mod laws;

pub use laws::{accepted_anywhere, places_do_not_count};
