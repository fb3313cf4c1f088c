//! Declarations where they stand, refusals there, and the pass over all of them that finds the entry of a rule that
//! stands first.
#![tactic(auto)]

mod rule;
mod site;
mod spot;

pub use rule::{Both, SiteRule, first_in};
pub use site::Site;
pub use spot::{Spot, refuse_if};
