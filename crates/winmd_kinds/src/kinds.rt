//! Kinds of types.

ghost use Rattle.std.specs.Prelude.{◌≡◌};
ghost use Rattle.winmd_cells.specs.Names.{full_seen};
ghost use Rattle.winmd_cells.specs.Seen.{value_seen};
ghost use Rattle.winmd_kinds.specs.Kinds.{kind_by, kind_of_base};
ghost use Rattle.winmd_lines.specs.Cells as cells_as;

use winmd_cells::{TypeName, Value, has_flag, is_named};

/// Of which kind a type is: an interface by its flags, else by what it extends.
#[derive(Clone, Copy)]
pub enum Kind {
    Interface,
    Enum,
    Struct,
    Delegate,
    Class,
    /// It extends nothing.
    Nothing,
    /// It extends another type.
    Other,
}

/// Whether a cell leads nowhere.
pub(crate) fn is_null(value: Value<'_>) -> bool
    ensures { result ≡ cells_as.is_null (value_seen value.entry) }
{
    match value {
        Value::To(_, n) => n == 0,
        _ => true,
    }
}

fn kind_of_base(base: &TypeName<'_>) -> Kind
    ensures { result ≡ kind_of_base (full_seen base.now) }
{
    if is_named(base, b"System.Enum") {
        Kind::Enum
    } else if is_named(base, b"System.ValueType") {
        Kind::Struct
    } else if is_named(base, b"System.MulticastDelegate") {
        Kind::Delegate
    } else if is_named(base, b"System.Object") {
        Kind::Class
    } else {
        Kind::Other
    }
}

/// The kind of a type with these flags, which extends what a cell leads to, of this full name.
pub(crate) fn kind_of(flags: u32, extends: Value<'_>, base: &TypeName<'_>) -> Kind
    ensures { result ≡ kind_by flags (value_seen extends.entry) (full_seen base.now) }
{
    if has_flag(flags, 0x20) {
        Kind::Interface
    } else if is_null(extends) {
        Kind::Nothing
    } else {
        kind_of_base(base)
    }
}
