//! The end of writing: rows and heaps as an image, which is strict for the declarations whose rows they are (ECMA-335 II.22, II.24, II.25).
#![tactic(auto)]

mod finish;
mod sorting;

pub use finish::finished;
