//! The attributes of an image's rows (ECMA-335 II.22.10) and what they say (II.23.3), exactly as they are defined, or the first fault where
//! it stands.
#![tactic(auto)]

mod constructors;
mod lists;
mod types;
mod values;
mod words;

pub use constructors::{Attribute, Made, Maker, attributes_of, signature_blob, signature_offset};
pub use lists::{has_word, of_word, only_of};
pub use types::{exclusive_to, id_of, version_of};
pub use values::{abi_name, type_name_of};
pub use words::Word;
