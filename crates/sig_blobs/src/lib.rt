//! Signatures and attributes' values in blobs (ECMA-335 II.23.2, II.23.3), written and read.
//!
//! The writers append exactly the canonical blob, or after want of memory leave the bytes as they were; the readers answer exactly what
//! a blob spells, or its first fault with the fault's offset in the blob. What is canonical spells.
#![tactic(auto)]

mod argument;
mod attributes;
mod cut_back;
mod elements;
mod faults;
mod flaw;
mod front;
mod fronts;
mod integers;
mod laws;
mod methods;
mod modifiers;
mod names;
mod numbered;
mod put;
mod put_arguments;
mod put_uses;
mod reading;
mod templates;
mod token_names;
mod tokens;
mod uses;
mod writing;

pub use argument::{Argument, ArgumentKind};
pub use attributes::first_argument;
pub use laws::{canonical_spells, spells_one, value_spells};
pub use put_arguments::put_attribute;
pub use reading::{field_of, method_of, property_of, spec_of};
pub use templates::template;
pub use token_names::{RowName, TokenNames};
pub use tokens::Tokens;
pub use writing::{put_field, put_method, put_property, put_spec};
