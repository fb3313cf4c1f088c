//! Rows and heaps that are written line by line: each line adds to what the rows say exactly the row that it says, at whatever indices the
//! entries of the heaps stand (ECMA-335 II.22, II.24.2.3, II.24.2.4).
#![tactic(auto)]

mod cell;
mod heaps;
mod index;
mod numbers;
mod writer;

pub use cell::Cell;
pub use writer::Writer;
