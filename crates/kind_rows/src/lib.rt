//! The rows of declarations of each kind, as they are drawn (ECMA-335 II.22): what they refer to is found through a trait.
#![tactic(auto)]

mod attributes;
mod delegates;
mod enums;
mod makers;
mod methods;
mod out;
mod referred;
mod structs;
mod types;

pub use attributes::{put_named, put_on, put_version};
pub use delegates::put_delegate;
pub use enums::put_enum;
pub use makers::Maker;
pub use methods::{put_signature, put_typed_field};
pub use out::Out;
pub use referred::Referred;
pub use structs::put_struct;
pub use types::{put_baseless, put_type};
