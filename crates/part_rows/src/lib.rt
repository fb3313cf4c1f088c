//! The rows of a type's parts, one by one, each as it is drawn (ECMA-335 II.22): what a row refers to is given by its row's number, and a
//! signature or a value as a blob.
#![tactic(auto)]

mod first;
mod laws;
mod params;
mod rows;
mod target;

pub use first::put_first;
pub use laws::lines_are_written;
pub use params::put_params;
pub use rows::{
    put_attribute_row, put_constant_row, put_constructor_row, put_event_map, put_event_row,
    put_event_semantics, put_field_row, put_interface_row, put_method_row, put_property_map,
    put_property_row, put_property_semantics, put_spec_row, put_type_row,
};
pub use target::Target;
