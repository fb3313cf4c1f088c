//! What one row of TypeDef declares, as an image states it (ECMA-335 II.22.37): of which kind its type is, by its flags and by what it
//! extends, then the declaration of that kind. Exactly what is defined, or the first fault where it stands.
#![tactic(auto)]

mod declarations;
mod kinds;
mod names;
mod types;

pub use types::type_of;
