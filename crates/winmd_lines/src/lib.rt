//! The rows of metadata as lines (ECMA-335 II.22): what the cells of a row say before it is known where rows, types, constructors and
//! heap entries stand, which rows lines come to, and how rows are followed by a reader.
#![tactic(auto)]

mod laws;

pub use laws::{lists_are_written, rows_lead_to_owners};
