//! Bytes by offsets: numbers low byte first, zeros that fill up, and parts that stand in a whole at an offset.
#![tactic(auto)]

mod laws;
mod numbers;
mod padding;

pub use laws::{number_stands, part_is_read, part_of_part};
pub use numbers::{number, put_number, put_numbers};
pub use padding::{put_padded, put_zeros};
