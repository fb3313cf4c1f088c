//! The words of MIDL: which kind of token a word or a mark is, and the reading of single tokens, names and dotted names.
//!
//! `terminals_of` makes the grammar's tokens from those of lexing; each `take` reads one from the front, exactly as its definition does.
#![tactic(auto)]

mod reading;
mod stop;
mod words;

pub use reading::{
    begins, begins_name, dotted_of, more_dots, take, take_if, take_name, take_number, take_own_name,
};
pub use stop::{Code, Stop};
pub use words::{base_by, terminals_of};
