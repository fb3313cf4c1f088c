//! What the attributes of a declaration say.

ghost use Rattle.std.specs.Prelude.{◌≡◌};
ghost use Rattle.std.specs.List.{list_any};
ghost use Rattle.midl_tree.specs.Views.{attribute_view};
ghost use Rattle.midl_names.specs.Declares.{version_by, version_of, id_of, is_flags, is_mark};
ghost use Rattle.midl_names.specs.Views.{attributes_of};

use crate::attributes::id_of as uuid_of;
use midl_tree::AttributeNode;

fn version_by(value: u64) -> u32
    ensures { result ≡ version_by value }
{
    if value < 4294967296 { value as u32 } else { 1 }
}

/// The version that is written, or 1.
pub(crate) fn version_of(attributes: &[&AttributeNode]) -> u32
    ensures { result ≡ version_of (attributes_of attributes.now) }
{
    for attribute in attributes {
        if let AttributeNode::Version(_, number) = *attribute {
            return version_by(number.value());
        }
    }
    1
}

/// The id that is written.
pub(crate) fn id_of(attributes: &[&AttributeNode]) -> Option<u128>
    ensures { result ≡ id_of (attributes_of attributes.now) }
{
    for attribute in attributes {
        if let AttributeNode::Uuid(_, id) = *attribute {
            return match uuid_of(id.as_str().as_bytes()) {
                Some(id) => Some(id.as_u128()),
                None => None,
            };
        }
    }
    None
}

fn is_flags(attribute: &AttributeNode) -> bool
    ensures { result ≡ is_flags (attribute_view attribute.now) }
{
    matches!(attribute, AttributeNode::Flags(_))
}

fn is_mark(attribute: &AttributeNode) -> bool
    ensures { result ≡ is_mark (attribute_view attribute.now) }
{
    matches!(attribute, AttributeNode::DefaultInterface(_))
}

/// Whether `[flags]` stands there.
pub(crate) fn has_flags(attributes: &[&AttributeNode]) -> bool
    ensures { result ≡ list_any is_flags (attributes_of attributes.now) }
{
    for attribute in attributes {
        if is_flags(*attribute) {
            return true;
        }
    }
    false
}

/// Whether `[default_interface]` stands there.
pub(crate) fn has_mark(attributes: &[&AttributeNode]) -> bool
    ensures { result ≡ list_any is_mark (attributes_of attributes.now) }
{
    for attribute in attributes {
        if is_mark(*attribute) {
            return true;
        }
    }
    false
}
