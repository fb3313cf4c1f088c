//! Declarations with their uses resolved.

ghost use Rattle.std.specs.Prelude.{◌≡◌, ◌++◌, true, false, IfOk, OnOk, map, unwrap_or};
ghost use Rattle.std.specs.HashMap.{get_by_text};
ghost use Rattle.std.specs.List.{All, flat_map};
ghost use Rattle.midl_tree.specs.Views.{member_view, class_member_view, struct_view, delegate_view, interface_view, class_view, decl_view, enum_view};
ghost use Rattle.midl_names.specs.Declares.{members_on, members_in, constructors_of, enum_of, struct_of, delegate_of, interface_of, class_of, written_by, placed_of};
ghost use Rattle.midl_names.specs.Members.{members_of};
ghost use Rattle.midl_names.specs.RawMembers.{IsRawMember};
ghost use Rattle.midl_names.specs.Views.{item_of, parts_of};
ghost use Rattle.placed_items.specs.Named.{HasNamedParams, IsNamedMember, IsNamedClass, IsNamedDeclaration, HasNamedParts, AreNamed, ArePathed};

use crate::abi::name_methods;
use crate::cases::cases_of;
use crate::index::Index;
use crate::marks::{has_flags, has_mark, id_of, version_of};
use crate::members::{fields_of, push_members};
use crate::parts::places_of;
use crate::resolved::{resolved_list, signature_of};
use crate::scope::Scope;
use crate::scoped::Scoped;
use midl_tree::{
    ClassMemberNode, ClassNode, DeclNode, DelegateNode, EnumNode, InterfaceNode, MemberNode,
    StructNode,
};
use placed_items::{Placed, PlacedItem, Signatures, Written, WrittenClass};
use std::alloc::Global;
use wr_base::{Declaration, Listed, Member, Members, Memory, Signature};

fn raw_members(scope: &Scope, nodes: &[MemberNode]) -> Result<Vec<Member>, Memory>
    ensures value { IfOk result (λ ms. ms.items ≡ flat_map (members_of (get_by_text scope.now.index.now.sorts) (parts_of scope.now.item.now.space.items)) (map member_view nodes.now)) }
    ensures named { IfOk result (λ ms. All IsRawMember ms.items) }
{
    let mut members = Vec::new(scope.alloc);
    for node in nodes {
        push_members(&mut members, scope, node)?;
    }
    Ok(members)
}

fn interface_members(scope: &Scope, nodes: &[MemberNode]) -> Result<Members, Memory>
    ensures value { IfOk result (λ ms. ms ≡ members_in (get_by_text scope.now.index.now.sorts) (parts_of scope.now.item.now.space.items) (map member_view nodes.now)) }
    ensures named { IfOk result (λ ms. All IsNamedMember ms) }
{
    let mut members = raw_members(scope, nodes)?;
    name_methods(scope.alloc, &mut members)?;
    Ok(Listed::from_vec(members))
}

fn push_on(
    into: &mut Vec<Member>,
    scope: &Scope,
    side: bool,
    node: &ClassMemberNode,
) -> Result<(), Memory>
    ensures value { OnOk result (into.new.items ≡ into.old.items ++ flat_map (members_of (get_by_text scope.now.index.now.sorts) (parts_of scope.now.item.now.space.items)) (members_on side (class_member_view node.now))) }
    ensures named { OnOk result (All IsRawMember into.old.items → All IsRawMember into.new.items) }
{
    match node {
        ClassMemberNode::Member(fixed, member) => {
            if *fixed == side {
                return push_members(into, scope, member);
            }
            Ok(())
        }
        ClassMemberNode::Constructor(..) => Ok(()),
    }
}

fn raw_side(scope: &Scope, side: bool, nodes: &[ClassMemberNode]) -> Result<Vec<Member>, Memory>
    ensures value { IfOk result (λ ms. ms.items ≡ flat_map (members_of (get_by_text scope.now.index.now.sorts) (parts_of scope.now.item.now.space.items)) (flat_map (members_on side) (map class_member_view nodes.now))) }
    ensures named { IfOk result (λ ms. All IsRawMember ms.items) }
{
    let mut members = Vec::new(scope.alloc);
    for node in nodes {
        push_on(&mut members, scope, side, node)?;
    }
    Ok(members)
}

fn side_members(scope: &Scope, side: bool, nodes: &[ClassMemberNode]) -> Result<Members, Memory>
    ensures value { IfOk result (λ ms. ms ≡ members_in (get_by_text scope.now.index.now.sorts) (parts_of scope.now.item.now.space.items) (flat_map (members_on side) (map class_member_view nodes.now))) }
    ensures named { IfOk result (λ ms. All IsNamedMember ms) }
{
    let mut members = raw_side(scope, side, nodes)?;
    name_methods(scope.alloc, &mut members)?;
    Ok(Listed::from_vec(members))
}

fn push_constructor(
    into: &mut Vec<Signature>,
    scope: &Scope,
    node: &ClassMemberNode,
) -> Result<(), Memory>
    ensures value { OnOk result (into.new.items ≡ into.old.items ++ constructors_of (get_by_text scope.now.index.now.sorts) (parts_of scope.now.item.now.space.items) (class_member_view node.now)) }
    ensures named { OnOk result (All HasNamedParams into.old.items → All HasNamedParams into.new.items) }
{
    match node {
        ClassMemberNode::Member(..) => Ok(()),
        ClassMemberNode::Constructor(_, params) => {
            into.push(signature_of(scope, &None, params)?)?;
            Ok(())
        }
    }
}

fn constructors_of(scope: &Scope, nodes: &[ClassMemberNode]) -> Result<Signatures, Memory>
    ensures value { IfOk result (λ ss. ss ≡ flat_map (constructors_of (get_by_text scope.now.index.now.sorts) (parts_of scope.now.item.now.space.items)) (map class_member_view nodes.now)) }
    ensures named { IfOk result (λ ss. All HasNamedParams ss) }
{
    let mut signatures = Vec::new(scope.alloc);
    for node in nodes {
        push_constructor(&mut signatures, scope, node)?;
    }
    Ok(Listed::from_vec(signatures))
}

fn both_sides(scope: &Scope, nodes: &[ClassMemberNode]) -> Result<(Members, Members), Memory>
    ensures own { IfOk result (λ p. p.0 ≡ members_in (get_by_text scope.now.index.now.sorts) (parts_of scope.now.item.now.space.items) (flat_map (members_on false) (map class_member_view nodes.now))) }
    ensures statics { IfOk result (λ p. p.1 ≡ members_in (get_by_text scope.now.index.now.sorts) (parts_of scope.now.item.now.space.items) (flat_map (members_on true) (map class_member_view nodes.now))) }
    ensures own_named { IfOk result (λ p. All IsNamedMember p.0) }
    ensures statics_named { IfOk result (λ p. All IsNamedMember p.1) }
{
    let members = side_members(scope, false, nodes)?;
    let statics = side_members(scope, true, nodes)?;
    Ok((members, statics))
}

fn class_of(scope: &Scope, node: &ClassNode) -> Result<WrittenClass, Memory>
    ensures value { IfOk result (λ w. w ≡ class_of (get_by_text scope.now.index.now.sorts) (item_of scope.now.item.now) (class_view node.now)) }
    ensures named { IfOk result IsNamedClass }
{
    let name = scope.item.full.clone()?;
    let listed = resolved_list(scope, &node.bases)?;
    let constructors = constructors_of(scope, &node.members)?;
    let (members, statics) = both_sides(scope, &node.members)?;
    Ok(WrittenClass {
        name,
        version: version_of(&scope.item.attributes),
        fixed: node.fixed,
        marked: has_mark(&scope.item.attributes),
        listed,
        constructors,
        members,
        statics,
    })
}

fn id_or_zero(id: Option<u128>) -> u128
    ensures { result ≡ unwrap_or id 0 }
{
    match id {
        Some(id) => id,
        None => 0,
    }
}

fn enum_of(scope: &Scope, node: &EnumNode) -> Result<Declaration, Memory>
    ensures value { IfOk result (λ d. d ≡ enum_of (item_of scope.now.item.now) (enum_view node.now)) }
    ensures named { IfOk result IsNamedDeclaration }
{
    let name = scope.item.full.clone()?;
    let cases = cases_of(scope.alloc, &node.cases)?;
    Ok(Declaration::Enum {
        name,
        version: version_of(&scope.item.attributes),
        flags: has_flags(&scope.item.attributes),
        cases,
    })
}

fn struct_of(scope: &Scope, node: &StructNode) -> Result<Declaration, Memory>
    ensures value { IfOk result (λ d. d ≡ struct_of (get_by_text scope.now.index.now.sorts) (item_of scope.now.item.now) (struct_view node.now)) }
    ensures named { IfOk result IsNamedDeclaration }
{
    let name = scope.item.full.clone()?;
    let fields = fields_of(scope, &node.fields)?;
    Ok(Declaration::Struct {
        name,
        version: version_of(&scope.item.attributes),
        fields,
    })
}

fn delegate_of(scope: &Scope, node: &DelegateNode) -> Result<Declaration, Memory>
    ensures value { IfOk result (λ d. d ≡ delegate_of (get_by_text scope.now.index.now.sorts) (item_of scope.now.item.now) (delegate_view node.now)) }
    ensures named { IfOk result IsNamedDeclaration }
{
    let name = scope.item.full.clone()?;
    let invoke = signature_of(scope, &node.outcome, &node.params)?;
    Ok(Declaration::Delegate {
        name,
        version: version_of(&scope.item.attributes),
        id: id_or_zero(id_of(&scope.item.attributes)),
        invoke,
    })
}

fn interface_of(scope: &Scope, node: &InterfaceNode) -> Result<Declaration, Memory>
    ensures value { IfOk result (λ d. d ≡ interface_of (get_by_text scope.now.index.now.sorts) (item_of scope.now.item.now) (interface_view node.now)) }
    ensures named { IfOk result IsNamedDeclaration }
{
    let name = scope.item.full.clone()?;
    let required = resolved_list(scope, &node.required)?;
    let members = interface_members(scope, &node.members)?;
    Ok(Declaration::Interface {
        name,
        version: version_of(&scope.item.attributes),
        id: id_or_zero(id_of(&scope.item.attributes)),
        owner: None,
        requires_: required,
        members,
    })
}

fn written_of(scope: &Scope) -> Result<Written, Memory>
    ensures value { IfOk result (λ w. w ≡ written_by (get_by_text scope.now.index.now.sorts) (item_of scope.now.item.now) (decl_view scope.now.item.now.tree.now)) }
    ensures named { IfOk result HasNamedParts }
{
    match scope.item.tree {
        DeclNode::Enum(node) => Ok(Written::Done(enum_of(scope, node)?)),
        DeclNode::Struct(node) => Ok(Written::Done(struct_of(scope, node)?)),
        DeclNode::Delegate(node) => Ok(Written::Done(delegate_of(scope, node)?)),
        DeclNode::Interface(node) => Ok(Written::Done(interface_of(scope, node)?)),
        DeclNode::Class(node) => Ok(Written::Class(class_of(scope, node)?)),
    }
}

fn placed_of(alloc: Global, index: &Index, item: &Scoped) -> Result<PlacedItem, Memory>
    ensures value { IfOk result (λ p. p ≡ placed_of (get_by_text index.now.sorts) (item_of item.now)) }
    ensures named { IfOk result (λ p. HasNamedParts p.item) }
{
    let scope = Scope { alloc, index, item };
    let places = places_of(alloc, item)?;
    let written = written_of(&scope)?;
    Ok(PlacedItem {
        item: written,
        id: id_of(&item.attributes),
        places,
    })
}

/// The items with their uses resolved.
pub(crate) fn placed(alloc: Global, index: &Index, items: &[Scoped]) -> Result<Placed, Memory>
    ensures value { IfOk result (λ ps. ps ≡ map (placed_of (get_by_text index.now.sorts)) (map item_of items.now)) }
    ensures named { IfOk result AreNamed }
    ensures pathed { IfOk result ArePathed }
{
    let mut placed = Vec::with_capacity(alloc, items.len())?;
    for item in items {
        placed.push(placed_of(alloc, index, item)?)?;
    }
    Ok(Listed::from_vec(placed))
}
