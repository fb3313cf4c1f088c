//! The tables' stream: what a set of rows is as bytes, and which rows bytes hold.
#![tactic(auto)]

mod bits;
mod cells;
mod fields;
mod header;
mod lists;
mod numbers;
mod put;
mod read;
mod rows;
mod set;
mod view;
mod writable;
mod write;

pub use bits::{bit_count, has_bit};
pub use cells::{Cells, widths};
pub use numbers::place;
pub use read::read_tables;
pub use set::TableSet;
pub use view::TableView;
pub use writable::is_writable;
pub use write::write_tables;
