//! The names of a declaration's parts, and their places.

ghost use Rattle.std.specs.Prelude.{◌≡◌, ◌++◌, true, false, IfOk, OnOk, map};
ghost use Rattle.std.specs.List.{flat_map};
ghost use Rattle.midl_tree.specs.Views.{decl_view, fields_view, member_view, class_member_view};
ghost use Rattle.midl_names.specs.Declares.{members_on, names_of, constructor_name, class_names, part_names, place_at, places_of};
ghost use Rattle.midl_names.specs.Views.{item_of, idents_of};

use crate::paths::own_name;
use crate::scoped::Scoped;
use midl_tree::{CaseNode, ClassMemberNode, DeclNode, FieldsNode, Ident, MemberNode};
use std::alloc::Global;
use wr_base::{DeclPlaces, Listed, Memory, Place, PlaceList};

fn push_cases<'a>(into: &mut Vec<&'a Ident>, cases: &'a [CaseNode]) -> Result<(), Memory>
    ensures { OnOk result (idents_of into.new.items ≡ idents_of into.old.items ++ map (λ c. c.name) cases.now) }
{
    for case in cases {
        into.push(&case.name)?;
    }
    Ok(())
}

fn push_names<'a>(into: &mut Vec<&'a Ident>, names: &'a [Ident]) -> Result<(), Memory>
    ensures { OnOk result (idents_of into.new.items ≡ idents_of into.old.items ++ names.now) }
{
    for name in names {
        into.push(name)?;
    }
    Ok(())
}

fn push_fields<'a>(into: &mut Vec<&'a Ident>, fields: &'a [FieldsNode]) -> Result<(), Memory>
    ensures { OnOk result (idents_of into.new.items ≡ idents_of into.old.items ++ flat_map (λ f. f.names) (map fields_view fields.now)) }
{
    for field in fields {
        push_names(into, &field.names)?;
    }
    Ok(())
}

fn push_member<'a>(into: &mut Vec<&'a Ident>, member: &'a MemberNode) -> Result<(), Memory>
    ensures { OnOk result (idents_of into.new.items ≡ idents_of into.old.items ++ names_of (member_view member.now)) }
{
    match member {
        MemberNode::Method(_, name, _) => into.push(name)?,
        MemberNode::Event(_, name) => into.push(name)?,
        MemberNode::Properties(_, names) => push_names(into, names)?,
        MemberNode::Property(_, name, _) => into.push(name)?,
    }
    Ok(())
}

fn push_members<'a>(into: &mut Vec<&'a Ident>, members: &'a [MemberNode]) -> Result<(), Memory>
    ensures { OnOk result (idents_of into.new.items ≡ idents_of into.old.items ++ flat_map names_of (map member_view members.now)) }
{
    for member in members {
        push_member(into, member)?;
    }
    Ok(())
}

fn push_on<'a>(
    into: &mut Vec<&'a Ident>,
    side: bool,
    member: &'a ClassMemberNode,
) -> Result<(), Memory>
    ensures { OnOk result (idents_of into.new.items ≡ idents_of into.old.items ++ flat_map names_of (members_on side (class_member_view member.now))) }
{
    match member {
        ClassMemberNode::Member(fixed, member) => {
            if *fixed == side {
                return push_member(into, member);
            }
            Ok(())
        }
        ClassMemberNode::Constructor(..) => Ok(()),
    }
}

fn push_side<'a>(
    into: &mut Vec<&'a Ident>,
    side: bool,
    members: &'a [ClassMemberNode],
) -> Result<(), Memory>
    ensures { OnOk result (idents_of into.new.items ≡ idents_of into.old.items ++ flat_map names_of (flat_map (members_on side) (map class_member_view members.now))) }
{
    for member in members {
        push_on(into, side, member)?;
    }
    Ok(())
}

fn push_constructor<'a>(
    into: &mut Vec<&'a Ident>,
    member: &'a ClassMemberNode,
) -> Result<(), Memory>
    ensures { OnOk result (idents_of into.new.items ≡ idents_of into.old.items ++ constructor_name (class_member_view member.now)) }
{
    match member {
        ClassMemberNode::Member(..) => Ok(()),
        ClassMemberNode::Constructor(name, _) => {
            into.push(name)?;
            Ok(())
        }
    }
}

fn push_constructors<'a>(
    into: &mut Vec<&'a Ident>,
    members: &'a [ClassMemberNode],
) -> Result<(), Memory>
    ensures { OnOk result (idents_of into.new.items ≡ idents_of into.old.items ++ flat_map constructor_name (map class_member_view members.now)) }
{
    for member in members {
        push_constructor(into, member)?;
    }
    Ok(())
}

fn push_class<'a>(into: &mut Vec<&'a Ident>, members: &'a [ClassMemberNode]) -> Result<(), Memory>
    ensures { OnOk result (idents_of into.new.items ≡ idents_of into.old.items ++ class_names (map class_member_view members.now)) }
{
    push_side(into, false, members)?;
    push_side(into, true, members)?;
    push_constructors(into, members)
}

fn push_parts<'a>(into: &mut Vec<&'a Ident>, tree: &'a DeclNode) -> Result<(), Memory>
    ensures { OnOk result (idents_of into.new.items ≡ idents_of into.old.items ++ part_names (decl_view tree.now)) }
{
    match tree {
        DeclNode::Enum(node) => push_cases(into, &node.cases),
        DeclNode::Struct(node) => push_fields(into, &node.fields),
        DeclNode::Delegate(_) => Ok(()),
        DeclNode::Interface(node) => push_members(into, &node.members),
        DeclNode::Class(node) => push_class(into, &node.members),
    }
}

fn part_names<'a>(alloc: Global, tree: &'a DeclNode) -> Result<Vec<&'a Ident>, Memory>
    ensures { IfOk result (λ names. idents_of names.items ≡ part_names (decl_view tree.now)) }
{
    let mut names = Vec::new(alloc);
    push_parts(&mut names, tree)?;
    Ok(names)
}

fn place_list(alloc: Global, file: u32, names: &[&Ident]) -> Result<PlaceList, Memory>
    ensures { IfOk result (λ places. places ≡ map (place_at file) (idents_of names.now)) }
{
    let mut places = Vec::with_capacity(alloc, names.len())?;
    for name in names {
        places.push(Place {
            file,
            offset: name.offset(),
        })?;
    }
    Ok(Listed::from_vec(places))
}

/// Where an item and its parts stand.
pub(crate) fn places_of(alloc: Global, item: &Scoped) -> Result<DeclPlaces, Memory>
    ensures { IfOk result (λ places. places ≡ places_of (item_of item.now)) }
{
    let names = part_names(alloc, item.tree)?;
    let parts = place_list(alloc, item.file, &names)?;
    let at = Place {
        file: item.file,
        offset: own_name(item.tree).offset(),
    };
    Ok(DeclPlaces { at, parts })
}
