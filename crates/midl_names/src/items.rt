//! The declarations of a set of files with their namespaces and attributes.

ghost use Rattle.std.specs.Prelude.{◌≡◌, ◌++◌, [], IfOk, OnOk, map};
ghost use Rattle.std.specs.List.{flat_map};
ghost use Rattle.midl_tree.specs.Views.{decl_view, item_view, attribute_view};
ghost use Rattle.midl_names.specs.Items.{texts, item_at, items_in, items_of};
ghost use Rattle.midl_names.specs.Views.{sources_of, item_of, parts_of, attributes_of};

use crate::paths::{full_name, own_name};
use crate::scoped::Scoped;
use midl_tree::{AttributeNode, DeclNode, File, Ident, ItemNode};
use std::alloc::Global;
use wr_base::Memory;

fn push_attributes<'a>(
    into: &mut Vec<&'a AttributeNode>,
    group: &'a [AttributeNode],
) -> Result<(), Memory>
    ensures { OnOk result (attributes_of into.new.items ≡ attributes_of into.old.items ++ map attribute_view group.now) }
{
    for attribute in group {
        into.push(attribute)?;
    }
    Ok(())
}

fn attributes_of<'a>(
    alloc: Global,
    groups: &'a [Vec<AttributeNode>],
) -> Result<Vec<&'a AttributeNode>, Memory>
    ensures { IfOk result (λ v. attributes_of v.items ≡ flat_map (λ g. g) (map (λ g. map attribute_view g.items) groups.now)) }
{
    let mut attributes = Vec::new(alloc);
    for group in groups {
        push_attributes(&mut attributes, group)?;
    }
    Ok(attributes)
}

fn parts_around<'a>(alloc: Global, around: &[&'a Ident]) -> Result<Vec<&'a Ident>, Memory>
    ensures { IfOk result (λ v. parts_of v.items ≡ parts_of around.now) }
{
    let mut space = Vec::new(alloc);
    for part in around {
        space.push(*part)?;
    }
    Ok(space)
}

fn parts_within<'a>(
    alloc: Global,
    around: &[&'a Ident],
    name: &'a [Ident],
) -> Result<Vec<&'a Ident>, Memory>
    ensures { IfOk result (λ v. parts_of v.items ≡ parts_of around.now ++ texts name.now) }
{
    let mut space = parts_around(alloc, around)?;
    for part in name {
        space.push(part)?;
    }
    Ok(space)
}

fn push_declared<'a>(
    into: &mut Vec<Scoped<'a>>,
    alloc: Global,
    file: u32,
    around: &[&'a Ident],
    groups: &'a [Vec<AttributeNode>],
    tree: &'a DeclNode,
) -> Result<(), Memory>
    ensures { OnOk result (map item_of into.new.items ≡ map item_of into.old.items ++ item_at file (parts_of around.now) (map (λ g. map attribute_view g.items) groups.now) (decl_view tree.now)) }
{
    if around.is_empty() {
        return Ok(());
    }
    let full = full_name(alloc, around, own_name(tree))?;
    let space = parts_around(alloc, around)?;
    let attributes = attributes_of(alloc, groups)?;
    into.push(Scoped {
        file,
        space,
        full,
        attributes,
        tree,
    })?;
    Ok(())
}

#[cycle(items)]
#[tactic(auto, using(crate::proofs::Nested::items_flat))]
fn push_item<'a>(
    into: &mut Vec<Scoped<'a>>,
    alloc: Global,
    file: u32,
    around: &[&'a Ident],
    node: &'a ItemNode,
) -> Result<(), Memory>
    ensures { OnOk result (map item_of into.new.items ≡ map item_of into.old.items ++ items_in file (parts_of around.now) (item_view node.now)) }
{
    match node {
        ItemNode::Namespace(name, nodes) => {
            let space = parts_within(alloc, around, name)?;
            push_items(into, alloc, file, &space, nodes)
        }
        ItemNode::Declared(groups, tree) => {
            push_declared(into, alloc, file, around, groups, tree)
        }
    }
}

#[cycle(items)]
fn push_items<'a>(
    into: &mut Vec<Scoped<'a>>,
    alloc: Global,
    file: u32,
    around: &[&'a Ident],
    nodes: &'a [ItemNode],
) -> Result<(), Memory>
    ensures { OnOk result (map item_of into.new.items ≡ map item_of into.old.items ++ flat_map (items_in file (parts_of around.now)) (map item_view nodes.now)) }
{
    for node in nodes {
        push_item(into, alloc, file, around, node)?;
    }
    Ok(())
}

/// The declarations of the files, in the order of the source.
pub(crate) fn items_of<'a>(alloc: Global, files: &'a [File]) -> Result<Vec<Scoped<'a>>, Memory>
    ensures { IfOk result (λ v. map item_of v.items ≡ items_of (sources_of files.now)) }
{
    let mut items = Vec::new(alloc);
    for file in files {
        push_items(&mut items, alloc, file.number, &[], &file.items)?;
    }
    Ok(items)
}
