/// What a type is where it is used.
#[derive(Clone, Copy, Debug, PartialEq, Eq)]
pub(crate) enum Sort {
    /// An enum or a struct.
    Value,
    /// An interface, a class or a delegate.
    Reference,
    /// A template that takes so many arguments.
    Template(u32),
}
