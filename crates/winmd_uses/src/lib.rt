//! What the rows of a set of declarations use (ECMA-335 II.22): the names of types, the constructors of attributes and the instances,
//! each once, found in one pass over the set.
#![tactic(auto)]

mod declarations;
mod declared;
mod instances;
mod keys;
mod kinds;
mod makers;
mod members;
mod names;
mod repeats;
mod takes;
mod used;
mod uses;

pub use declarations::uses_of;
pub use declared::{is_declared, is_outside};
pub use keys::put_key;
pub use makers::Maker;
pub use used::Used;
