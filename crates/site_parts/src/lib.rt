//! The parts of a declaration where they stand, in order, and the passes over such lists that find the entry of a rule
//! that stands first.
#![tactic(auto)]

mod item_rule;
mod parts;
mod repeats;
mod standing;

pub use item_rule::{ItemRule, first_among};
pub use parts::{cases_at, fields_at, members_at, signatures_at};
pub use repeats::{Repeats, first_repeat};
pub use standing::{Standing, Titled};
