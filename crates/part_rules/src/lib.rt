//! Rules on the cases, fields and parameters of one declaration, and on the declaration by itself.
#![tactic(auto)]

mod class_rules;
mod enum_rules;
mod name_rules;
mod struct_rules;

pub use class_rules::{DefaultMissing, StaticMembers};
pub use enum_rules::EnumRange;
pub use name_rules::{EnumRepeat, FieldRepeat, ParamRepeat};
pub use struct_rules::StructEmpty;
