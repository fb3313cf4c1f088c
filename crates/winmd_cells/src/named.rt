//! Full names in two parts: compared with texts, and as one text.

ghost use Rattle.std.specs.Prelude.{◌≡◌, ◌∷◌, ◌++◌, IfOk};
ghost use Rattle.std.specs.Str.{bytes_eq};
ghost use Rattle.winmd_cells.specs.Names.{full_seen};

use crate::names::TypeName;
use ranked::Memory;
use std::alloc::Global;

/// Whether a text is a dot and a name.
fn is_dotted(name: &[u8], text: &[u8]) -> bool
    ensures { result ≡ bytes_eq (46 ∷ name.now) text.now }
{
    match text.split_first() {
        None => false,
        Some((dot, rest)) => *dot == b'.' && name == rest,
    }
}

/// Whether a text is a namespace, a dot and a name.
#[tactic(auto, using(crate::proofs::NamedLaws::joined_apart, crate::proofs::NamedLaws::joined_on))]
fn is_joined(space: &[u8], name: &[u8], text: &[u8]) -> bool
    ensures { result ≡ bytes_eq (space.now ++ 46 ∷ name.now) text.now }
{
    match text.strip_prefix(space) {
        None => false,
        Some(rest) => is_dotted(name, rest),
    }
}

/// Whether a full name is this text.
pub fn is_named(name: &TypeName<'_>, text: &[u8]) -> bool
    ensures { result ≡ bytes_eq (full_seen name.now) text.now }
{
    match name.space {
        [] => name.name == text,
        [_, ..] => is_joined(name.space, name.name, text),
    }
}

/// The bytes of a full name.
pub fn joined(alloc: Global, name: &TypeName<'_>) -> Result<Vec<u8>, Memory>
    ensures { IfOk result (λ x. x.items ≡ full_seen name.now) }
{
    let mut bytes = Vec::new(alloc);
    if !name.space.is_empty() {
        bytes.extend_from_slice(name.space)?;
        bytes.push(b'.')?;
    }
    bytes.extend_from_slice(name.name)?;
    Ok(bytes)
}
