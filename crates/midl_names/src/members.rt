//! Fields and members, one for each name.

ghost use Rattle.std.specs.Prelude.{◌≡◌, ◌++◌, ◌∷◌, [], true, IfOk, OnOk, map, option_map};
ghost use Rattle.std.specs.HashMap.{get_by_text};
ghost use Rattle.std.specs.List.{All, flat_map};
ghost use Rattle.midl_tree.specs.Views.{type_view, fields_view, param_view, member_view};
ghost use Rattle.midl_names.specs.Members.{fields_of, members_of};
ghost use Rattle.wr_base.specs.declared.declaration.Member.TheVariants.{Method, Property, Event};
ghost use Rattle.midl_names.specs.Resolved.{resolved, signature_of};
ghost use Rattle.midl_names.specs.RawMembers.{IsRawMember};
ghost use Rattle.midl_names.specs.Views.{parts_of};
ghost use Rattle.placed_items.specs.Named.{IsName};
ghost use Rattle.wr_base.specs.declared.declaration.Field.{Field};

use crate::resolved::{name_of, resolved, signature_of};
use crate::scope::Scope;
use midl_tree::{FieldsNode, Ident, MemberNode, ParamNode, TypeNode};
use wr_base::{Field, Fields, Listed, Member, Memory, Name};

fn push_field(
    into: &mut Vec<Field>,
    scope: &Scope,
    kind: &TypeNode,
    name: &Ident,
) -> Result<(), Memory>
    ensures value { OnOk result (into.new.items ≡ into.old.items ++ record { name = name.now.text; ty = resolved (get_by_text scope.now.index.now.sorts) (parts_of scope.now.item.now.space.items) (type_view kind.now) } ∷ []) }
    ensures named { OnOk result (All (λ (f : Field). IsName f.name) into.old.items → All (λ (f : Field). IsName f.name) into.new.items) }
{
    let name = name_of(scope.alloc, name)?;
    let ty = resolved(scope, kind)?;
    into.push(Field { name, ty })?;
    Ok(())
}

fn push_fields(into: &mut Vec<Field>, scope: &Scope, node: &FieldsNode) -> Result<(), Memory>
    ensures value { OnOk result (into.new.items ≡ into.old.items ++ fields_of (get_by_text scope.now.index.now.sorts) (parts_of scope.now.item.now.space.items) (fields_view node.now)) }
    ensures named { OnOk result (All (λ (f : Field). IsName f.name) into.old.items → All (λ (f : Field). IsName f.name) into.new.items) }
{
    for name in &node.names {
        push_field(into, scope, &node.kind, name)?;
    }
    Ok(())
}

/// A field for each name.
pub(crate) fn fields_of(scope: &Scope, nodes: &[FieldsNode]) -> Result<Fields, Memory>
    ensures value { IfOk result (λ fs. fs ≡ flat_map (fields_of (get_by_text scope.now.index.now.sorts) (parts_of scope.now.item.now.space.items)) (map fields_view nodes.now)) }
    ensures named { IfOk result (λ fs. All (λ (f : Field). IsName f.name) fs) }
{
    let mut fields = Vec::new(scope.alloc);
    for node in nodes {
        push_fields(&mut fields, scope, node)?;
    }
    Ok(Listed::from_vec(fields))
}

fn push_property(
    into: &mut Vec<Member>,
    scope: &Scope,
    kind: &TypeNode,
    name: &Ident,
    put: bool,
) -> Result<(), Memory>
    ensures value { OnOk result (into.new.items ≡ into.old.items ++ Property name.now.text (resolved (get_by_text scope.now.index.now.sorts) (parts_of scope.now.item.now.space.items) (type_view kind.now)) put ∷ []) }
    ensures named { OnOk result (All IsRawMember into.old.items → All IsRawMember into.new.items) }
{
    let name = name_of(scope.alloc, name)?;
    let ty = resolved(scope, kind)?;
    into.push(Member::Property { name, ty, put })?;
    Ok(())
}

fn push_properties(
    into: &mut Vec<Member>,
    scope: &Scope,
    kind: &TypeNode,
    names: &[Ident],
) -> Result<(), Memory>
    ensures value { OnOk result (into.new.items ≡ into.old.items ++ map (λ n. Property n.text (resolved (get_by_text scope.now.index.now.sorts) (parts_of scope.now.item.now.space.items) (type_view kind.now)) true) names.now) }
    ensures named { OnOk result (All IsRawMember into.old.items → All IsRawMember into.new.items) }
{
    for name in names {
        push_property(into, scope, kind, name, true)?;
    }
    Ok(())
}

fn event_of(scope: &Scope, kind: &TypeNode, name: &Ident) -> Result<Member, Memory>
    ensures value { IfOk result (λ m. m ≡ Event name.now.text (resolved (get_by_text scope.now.index.now.sorts) (parts_of scope.now.item.now.space.items) (type_view kind.now))) }
    ensures named { IfOk result IsRawMember }
{
    let name = name_of(scope.alloc, name)?;
    let ty = resolved(scope, kind)?;
    Ok(Member::Event { name, ty })
}

fn method_of(
    scope: &Scope,
    outcome: &Option<TypeNode>,
    name: &Ident,
    params: &[ParamNode],
) -> Result<Member, Memory>
    ensures value { IfOk result (λ m. m ≡ Method name.now.text [] (signature_of (get_by_text scope.now.index.now.sorts) (parts_of scope.now.item.now.space.items) (option_map type_view outcome.now) (map param_view params.now))) }
    ensures named { IfOk result IsRawMember }
{
    let name = name_of(scope.alloc, name)?;
    let sig = signature_of(scope, outcome, params)?;
    let abi = Name::empty(scope.alloc);
    Ok(Member::Method { name, abi, sig })
}

/// Puts the members of a node behind those that are there, without ABI names.
pub(crate) fn push_members(
    into: &mut Vec<Member>,
    scope: &Scope,
    node: &MemberNode,
) -> Result<(), Memory>
    ensures value { OnOk result (into.new.items ≡ into.old.items ++ members_of (get_by_text scope.now.index.now.sorts) (parts_of scope.now.item.now.space.items) (member_view node.now)) }
    ensures named { OnOk result (All IsRawMember into.old.items → All IsRawMember into.new.items) }
{
    match node {
        MemberNode::Method(outcome, name, params) => {
            into.push(method_of(scope, outcome, name, params)?)?;
            Ok(())
        }
        MemberNode::Event(kind, name) => {
            into.push(event_of(scope, kind, name)?)?;
            Ok(())
        }
        MemberNode::Properties(kind, names) => push_properties(into, scope, kind, names),
        MemberNode::Property(kind, name, put) => push_property(into, scope, kind, name, *put),
    }
}
