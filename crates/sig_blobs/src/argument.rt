//! Arguments of attributes.

use ranked::Name;
use wr_base::FullName;

/// An argument of an attribute's constructor (ECMA-335 II.23.3).
#[derive(Debug, Drop)]
pub enum Argument {
    /// A number of four bytes.
    Number(u32),
    /// A text.
    Words(Name),
    /// A `System.Type`.
    TypeName(FullName),
    /// A Guid, which a constructor takes as eleven numbers.
    Id(u128),
}

/// What an argument is.
#[derive(Clone, Copy, Debug, PartialEq, Eq)]
pub enum ArgumentKind {
    Number,
    Words,
    TypeName,
    Id,
}
