//! The uses of a declaration, each with its role and the spot where it stands, and questions on uses at any depth.
#![tactic(auto)]

mod depth;
mod pushing;
mod shape;
mod site_uses;
mod used;

pub use depth::{UseTest, any_inside, any_within};
pub use shape::{Shape, shape_of};
pub use site_uses::uses_at;
pub use used::{Role, Used};
