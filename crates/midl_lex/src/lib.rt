//! The tokens of MIDL text: bytes cut from left to right by the longest match, or the first fault among them.
#![tactic(auto)]

mod bytes;
mod comments;
mod fault;
mod guids;
mod laws;
mod lexing;
mod numbers;
mod scan;
mod token;

pub use bytes::Run;
pub use fault::Fault;
pub use laws::{fault_is_first_entry, tokens_or_fault};
pub use lexing::tokens;
pub use numbers::{number_value, try_number_value};
pub use scan::ByteClass;
pub use token::{LexemeKind, Token, TokenKind};
