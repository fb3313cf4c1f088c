//! The rows of the members of an interface, as they are drawn (ECMA-335 II.22.26, II.22.34, II.22.13, II.22.28): what they refer to is
//! found through a trait.
#![tactic(auto)]

mod accessors;
mod events;
mod maps;
mod members;
mod methods;
mod properties;
mod signatures;

pub use events::put_event;
pub use maps::put_maps;
pub use members::{put_member, put_members};
pub use methods::put_method;
pub use properties::put_property;
