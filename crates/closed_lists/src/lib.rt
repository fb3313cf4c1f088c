//! Declarations with their lists closed: with what an interface requires and a class has, all that this leads to.
#![tactic(auto)]

mod closing;
mod index;
mod site;

pub use closing::close_all;
pub use site::PlacedDeclaration;
