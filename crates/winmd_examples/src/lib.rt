//! Examples of what images state, laid out by hand from ECMA-335 II.22 to II.25 and computed by the prover: they tell the definitions of reading from wrong ones.
#![tactic(auto)]

mod built;
mod edits;
mod layouts;
mod outside;

pub use built::built_images_state;
pub use edits::{mix_edits_state, shop_edits_state, size_edits_state};
pub use layouts::{layouts_state, long_lengths_state};
pub use outside::{images_are_by_hand, outside_is_read};
