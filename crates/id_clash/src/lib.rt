//! The rule on ids that a reserved one has already, or another declaration or instance that stands no later.
//!
//! `first_duplicate_id` answers the first entry that breaks it in a set with places: `texts` gives the instances that a
//! declaration uses, `items` meets them, and `pass` goes over the declarations in the order of their places.
#![tactic(auto)]

mod items;
mod pass;
mod texts;

pub use pass::first_duplicate_id;
