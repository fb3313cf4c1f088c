//! What images state is what rules and limits are asked of, and what images can state again: laws alone.
#![tactic(auto)]

mod laws;

pub use laws::{image_set_is_stated, image_sets_can_be_merged, union_is_stated};
