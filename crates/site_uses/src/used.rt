//! A use with its role and the spot where it stands.

use crate::shape::Shape;
use placed_sites::Spot;

/// What a use is for: the type of a field; that of a parameter, a result or a property; that of an event; an element of
/// `requires` or `has`, or the default; a name of factories or statics.
#[derive(Clone, Copy, Debug)]
pub enum Role {
    Field,
    Passed,
    Event,
    Listed,
    ByName,
}

/// A use, with its role and the spot where it stands.
#[derive(Clone, Copy, Debug)]
pub struct Used<'a> {
    pub role: Role,
    pub spot: Spot<'a>,
    pub shape: Shape<'a>,
}
