//! The rule on the names of types that are taken: by a namespace, by a found type or by an earlier type, but for ASCII case.
//!
//! `first_namespace_clash` answers the first entry that breaks it in a set with places. `site_of` and `add_text` serve
//! other passes in this order too.
#![tactic(auto)]

mod pass;
mod spaces;

pub use pass::{first_namespace_clash, site_of};
pub use spaces::add_text;
