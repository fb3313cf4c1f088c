//! The uses of types in a declaration, at any depth of arguments.

ghost use Rattle.std.specs.Prelude.{◌≡◌, ◌++◌, IfOk, OnOk, map, option_map};
ghost use Rattle.std.specs.List.{flat_map};
ghost use Rattle.midl_tree.specs.Views.{type_view, param_view, fields_view, member_view, class_member_view, delegate_view, interface_view, class_view, decl_view};
ghost use Rattle.midl_tree.specs.Trees.{delegate, interface, class};
ghost use Rattle.midl_names.specs.Uses.{uses_in, result_uses, param_uses, member_uses, class_member_uses, uses_of};
ghost use Rattle.midl_names.specs.Views.{types_of};

use midl_tree::{
    ClassMemberNode, ClassNode, DeclNode, DelegateNode, FieldsNode, InterfaceNode, MemberNode,
    ParamNode, TypeNode,
};
use std::alloc::Global;
use wr_base::Memory;

#[tactic(auto, using(crate::proofs::Nested::uses_flat))]
fn push_uses<'a>(into: &mut Vec<&'a TypeNode>, node: &'a TypeNode) -> Result<(), Memory>
    ensures { OnOk result (types_of into.new.items ≡ types_of into.old.items ++ uses_in (type_view node.now)) }
{
    match node {
        TypeNode::Base(_) => Ok(()),
        TypeNode::Named(_, arguments) => {
            into.push(node)?;
            for argument in arguments {
                push_uses(into, argument)?;
            }
            Ok(())
        }
    }
}

fn push_types<'a>(into: &mut Vec<&'a TypeNode>, types: &'a [TypeNode]) -> Result<(), Memory>
    ensures { OnOk result (types_of into.new.items ≡ types_of into.old.items ++ flat_map uses_in (map type_view types.now)) }
{
    for node in types {
        push_uses(into, node)?;
    }
    Ok(())
}

fn push_result<'a>(
    into: &mut Vec<&'a TypeNode>,
    outcome: &'a Option<TypeNode>,
) -> Result<(), Memory>
    ensures { OnOk result (types_of into.new.items ≡ types_of into.old.items ++ result_uses (option_map type_view outcome.now)) }
{
    match outcome {
        None => Ok(()),
        Some(node) => push_uses(into, node),
    }
}

fn push_params<'a>(into: &mut Vec<&'a TypeNode>, params: &'a [ParamNode]) -> Result<(), Memory>
    ensures { OnOk result (types_of into.new.items ≡ types_of into.old.items ++ param_uses (map param_view params.now)) }
{
    for param in params {
        push_uses(into, &param.kind)?;
    }
    Ok(())
}

fn push_fields<'a>(into: &mut Vec<&'a TypeNode>, fields: &'a [FieldsNode]) -> Result<(), Memory>
    ensures { OnOk result (types_of into.new.items ≡ types_of into.old.items ++ flat_map (λ f. uses_in f.kind) (map fields_view fields.now)) }
{
    for field in fields {
        push_uses(into, &field.kind)?;
    }
    Ok(())
}

fn push_member<'a>(into: &mut Vec<&'a TypeNode>, member: &'a MemberNode) -> Result<(), Memory>
    ensures { OnOk result (types_of into.new.items ≡ types_of into.old.items ++ member_uses (member_view member.now)) }
{
    match member {
        MemberNode::Method(outcome, _, params) => {
            push_result(into, outcome)?;
            push_params(into, params)
        }
        MemberNode::Event(kind, _) => push_uses(into, kind),
        MemberNode::Properties(kind, _) => push_uses(into, kind),
        MemberNode::Property(kind, _, _) => push_uses(into, kind),
    }
}

fn push_members<'a>(into: &mut Vec<&'a TypeNode>, members: &'a [MemberNode]) -> Result<(), Memory>
    ensures { OnOk result (types_of into.new.items ≡ types_of into.old.items ++ flat_map member_uses (map member_view members.now)) }
{
    for member in members {
        push_member(into, member)?;
    }
    Ok(())
}

fn push_class_member<'a>(
    into: &mut Vec<&'a TypeNode>,
    member: &'a ClassMemberNode,
) -> Result<(), Memory>
    ensures { OnOk result (types_of into.new.items ≡ types_of into.old.items ++ class_member_uses (class_member_view member.now)) }
{
    match member {
        ClassMemberNode::Member(_, member) => push_member(into, member),
        ClassMemberNode::Constructor(_, params) => push_params(into, params),
    }
}

fn push_class_members<'a>(
    into: &mut Vec<&'a TypeNode>,
    members: &'a [ClassMemberNode],
) -> Result<(), Memory>
    ensures { OnOk result (types_of into.new.items ≡ types_of into.old.items ++ flat_map class_member_uses (map class_member_view members.now)) }
{
    for member in members {
        push_class_member(into, member)?;
    }
    Ok(())
}

fn push_delegate<'a>(into: &mut Vec<&'a TypeNode>, node: &'a DelegateNode) -> Result<(), Memory>
    ensures { OnOk result (types_of into.new.items ≡ types_of into.old.items ++ uses_of (delegate (delegate_view node.now))) }
{
    push_result(into, &node.outcome)?;
    push_params(into, &node.params)
}

fn push_interface<'a>(into: &mut Vec<&'a TypeNode>, node: &'a InterfaceNode) -> Result<(), Memory>
    ensures { OnOk result (types_of into.new.items ≡ types_of into.old.items ++ uses_of (interface (interface_view node.now))) }
{
    push_types(into, &node.required)?;
    push_members(into, &node.members)
}

fn push_class<'a>(into: &mut Vec<&'a TypeNode>, node: &'a ClassNode) -> Result<(), Memory>
    ensures { OnOk result (types_of into.new.items ≡ types_of into.old.items ++ uses_of (class (class_view node.now))) }
{
    push_types(into, &node.bases)?;
    push_class_members(into, &node.members)
}

fn push_all<'a>(into: &mut Vec<&'a TypeNode>, tree: &'a DeclNode) -> Result<(), Memory>
    ensures { OnOk result (types_of into.new.items ≡ types_of into.old.items ++ uses_of (decl_view tree.now)) }
{
    match tree {
        DeclNode::Enum(_) => Ok(()),
        DeclNode::Struct(node) => push_fields(into, &node.fields),
        DeclNode::Delegate(node) => push_delegate(into, node),
        DeclNode::Interface(node) => push_interface(into, node),
        DeclNode::Class(node) => push_class(into, node),
    }
}

/// The named types in all uses of a declaration, each before its arguments.
pub(crate) fn uses_of<'a>(alloc: Global, tree: &'a DeclNode) -> Result<Vec<&'a TypeNode>, Memory>
    ensures { IfOk result (λ uses. types_of uses.items ≡ uses_of (decl_view tree.now)) }
{
    let mut uses = Vec::new(alloc);
    push_all(&mut uses, tree)?;
    Ok(uses)
}
