//! How the cases of a program spell bytes and numbers, and how its answers do. What is spelled otherwise stands for something, and no call refuses it.
#![tactic(auto)]

mod declarations;
mod digits;
mod said;
mod spelled;

pub use declarations::{declaration, head, id_text, members, places, signature, use_text, uses};
pub use digits::{decimal, hexadecimal, words_of};
pub use said::push_runs;
pub use spelled::{bytes_of, halves, push_bytes};
