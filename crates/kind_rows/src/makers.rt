//! The constructors of the attributes that are written.

/// A constructor of an attribute's type. `Activatable` is of a class that is made without parameters, `Factory` of one with a factory.
#[derive(Clone, Copy, Debug, PartialEq, Eq)]
pub enum Maker {
    Flags,
    Activatable,
    Factory,
    Default,
    ExclusiveTo,
    Guid,
    Overload,
    Static,
    Version,
}
