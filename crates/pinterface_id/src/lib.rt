//! Signatures of type uses and the identifiers made of them (Windows Runtime type system; RFC 9562, 5.5).
#![tactic(auto)]

mod gathered;
mod ids;
mod listing;
mod meaning;
mod pieces;
mod stack;
mod walk;

pub use ids::{find_id, has_signature, id_of, named_id, signature_of};
pub use listing::ids_of;
pub use meaning::{Meaning, meaning_of, named};
pub use walk::signature;
