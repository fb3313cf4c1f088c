//! Full names, and dotted names as they are written.

ghost use Rattle.std.specs.Prelude.{◌≡◌, ◌++◌, ◌∷◌, [], ◌<◌, IfOk, OnOk, IsTrue, string_bytes, length};
ghost use Rattle.std.specs.List.{All, flat_map};
ghost use Rattle.wr_base.specs.Paths.{is_identifier, is_path};
ghost use Rattle.midl_tree.specs.Views.{decl_view};
ghost use Rattle.midl_names.specs.Items.{own_name, prefix};
ghost use Rattle.midl_names.specs.Uses.{dotted, first_offset};
ghost use Rattle.midl_names.specs.Views.{parts_of};

use midl_tree::{DeclNode, Ident};
use std::alloc::Global;
use wr_base::{FullName, Memory};

/// The name that a declaration gives to its type.
pub(crate) fn own_name(tree: &DeclNode) -> &Ident
    ensures { result.now ≡ own_name (decl_view tree.now) }
{
    match tree {
        DeclNode::Enum(node) => &node.name,
        DeclNode::Struct(node) => &node.name,
        DeclNode::Delegate(node) => &node.name,
        DeclNode::Interface(node) => &node.name,
        DeclNode::Class(node) => &node.name,
    }
}

/// Puts a part of a namespace and a dot behind the text.
pub(crate) fn push_part(text: &mut String, part: &Ident) -> Result<(), Memory>
    ensures value { OnOk result (string_bytes text.new ≡ string_bytes text.old ++ (part.now.text ++ 46 ∷ [])) }
    ensures identifier { IsTrue (is_identifier part.now.text) }
{
    let identifier = part.as_str();
    text.push_str(identifier)?;
    text.push('.')?;
    Ok(())
}

/// Puts the parts of a namespace behind the text, each with a dot behind it.
pub(crate) fn push_prefix(text: &mut String, space: &[&Ident]) -> Result<(), Memory>
    ensures value { OnOk result (string_bytes text.new ≡ string_bytes text.old ++ prefix (parts_of space.now)) }
    ensures identifiers { OnOk result (All (λ part. IsTrue (is_identifier part)) (parts_of space.now)) }
{
    for part in space {
        push_part(text, *part)?;
    }
    Ok(())
}

/// The full name in a namespace.
pub(crate) fn full_name(alloc: Global, space: &[&Ident], name: &Ident) -> Result<FullName, Memory>
    requires { 0 < length space.now }
    ensures value { IfOk result (λ full. full ≡ prefix (parts_of space.now) ++ name.now.text) }
    ensures path { IfOk result (λ full. IsTrue (is_path full)) }
{
    let mut text = String::new(alloc);
    push_prefix(&mut text, space)?;
    let last = name.as_str();
    text.push_str(last)?;
    match FullName::new(text) {
        Some(full) => Ok(full),
        None => unreachable!(),
    }
}

fn push_dotted(text: &mut String, path: &[Ident]) -> Result<(), Memory>
    ensures { OnOk result (string_bytes text.new ≡ string_bytes text.old ++ flat_map (λ t. 46 ∷ t.text) path.now) }
{
    for part in path {
        text.push('.')?;
        text.push_str(part.as_str())?;
    }
    Ok(())
}

/// A dotted name as it is written, its parts joined by dots alone.
pub(crate) fn dotted(alloc: Global, path: &[Ident]) -> Result<String, Memory>
    ensures { IfOk result (λ text. string_bytes text ≡ dotted path.now) }
{
    match path {
        [] => Ok(String::new(alloc)),
        [first, rest @ ..] => {
            let mut text = String::from_str(alloc, first.as_str())?;
            push_dotted(&mut text, rest)?;
            Ok(text)
        }
    }
}

/// Where a dotted name begins.
pub(crate) fn first_offset(path: &[Ident]) -> u32
    ensures { result ≡ first_offset path.now }
{
    match path {
        [] => 0,
        [first, ..] => first.offset(),
    }
}
