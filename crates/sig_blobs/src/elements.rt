//! The elements of base types (ECMA-335 II.23.1.16).

ghost use Rattle.std.specs.Prelude.{◌≡◌};
ghost use Rattle.sig_blobs.specs.Elements as elements;

use wr_base::Base;

/// The element of a base type; a Guid is a value type.
pub(crate) fn element_of(base: Base) -> u8
    ensures { result ≡ elements.element_of base }
{
    match base {
        Base::Boolean => 0x02,
        Base::Char => 0x03,
        Base::U8 => 0x05,
        Base::I16 => 0x06,
        Base::U16 => 0x07,
        Base::I32 => 0x08,
        Base::U32 => 0x09,
        Base::I64 => 0x0A,
        Base::U64 => 0x0B,
        Base::Text => 0x0E,
        Base::Guid => 0x11,
        Base::Object => 0x1C,
    }
}

/// The base type of an element.
pub(crate) fn base_of(element: u8) -> Option<Base>
    ensures { result ≡ elements.base_of element }
{
    match element {
        0x02 => Some(Base::Boolean),
        0x03 => Some(Base::Char),
        0x05 => Some(Base::U8),
        0x06 => Some(Base::I16),
        0x07 => Some(Base::U16),
        0x08 => Some(Base::I32),
        0x09 => Some(Base::U32),
        0x0A => Some(Base::I64),
        0x0B => Some(Base::U64),
        0x0E => Some(Base::Text),
        0x1C => Some(Base::Object),
        _ => None,
    }
}
