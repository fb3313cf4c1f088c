//! The ids that a set uses, by text.

ghost use Rattle.std.specs.Prelude.{◌≡◌, ◌∷◌, [], Some, IfOk, OnOk, IsTrue, map};
ghost use Rattle.std.specs.List.{flat_map, filter_map};
ghost use Rattle.wr_rules.specs.Kinds.{option_list, declared};
ghost use Rattle.wr_rules.specs.Signatures as rules;
ghost use Rattle.wr_base.specs.Trees.{tree_of, reference};
ghost use Rattle.wr_base.specs.Declarations.{name_of};
ghost use Rattle.pinterface_id.specs.Gathering.{Gathers};
ghost use Rattle.pinterface_id.specs.Listing.{signature_trees, member_trees, trees_in, declared_id, used_id, ids_within, ids_in, all_ids, listing};

use crate::gathered::Gathered;
use crate::ids::{declared_own_id, find_id, name_id};
use std::alloc::{AllocError, Global};
use wr_base::{Declaration, Field, FullName, Ids, Member, Param, Signature, TypeUse, Types};

fn gather_name(
    alloc: Global,
    gathered: &mut Gathered,
    types: &Types,
    name: &FullName,
) -> Result<(), AllocError>
    ensures { OnOk result (Gathers (ids_within types.now (reference name.now)) gathered.old gathered.new) }
{
    match name_id(types, name) {
        None => Ok(()),
        Some(id) => {
            if gathered.knows(name.as_str()) {
                return Ok(());
            }
            gathered.put(alloc, name.as_str(), id)
        }
    }
}

// The id of an instance, without those within it.
fn gather_instance(
    alloc: Global,
    gathered: &mut Gathered,
    types: &Types,
    ty: &TypeUse,
) -> Result<(), AllocError>
    ensures { OnOk result (Gathers (option_list (used_id types.now (tree_of ty.now))) gathered.old gathered.new) }
{
    let text = ty.text(alloc)?;
    if gathered.knows(text.as_str()) {
        return Ok(());
    }
    match find_id(alloc, types, ty)? {
        None => Ok(()),
        Some(id) => gathered.put(alloc, text.as_str(), id),
    }
}

fn gather_use(
    alloc: Global,
    gathered: &mut Gathered,
    types: &Types,
    ty: &TypeUse,
) -> Result<(), AllocError>
    ensures { OnOk result (Gathers (ids_within types.now (tree_of ty.now)) gathered.old gathered.new) }
{
    match ty {
        TypeUse::Plain(_) => Ok(()),
        TypeUse::Value(name) => gather_name(alloc, gathered, types, name),
        TypeUse::Reference(name) => gather_name(alloc, gathered, types, name),
        TypeUse::Inst(_, arguments) => {
            gather_instance(alloc, gathered, types, ty)?;
            for argument in arguments.as_slice() {
                gather_use(alloc, gathered, types, argument)?;
            }
            Ok(())
        }
    }
}

fn gather_uses(
    alloc: Global,
    gathered: &mut Gathered,
    types: &Types,
    uses: &[TypeUse],
) -> Result<(), AllocError>
    ensures { OnOk result (Gathers (flat_map (ids_within types.now) (map tree_of uses.now)) gathered.old gathered.new) }
{
    for ty in uses {
        gather_use(alloc, gathered, types, ty)?;
    }
    Ok(())
}

fn gather_names(
    alloc: Global,
    gathered: &mut Gathered,
    types: &Types,
    names: &[FullName],
) -> Result<(), AllocError>
    ensures { OnOk result (Gathers (flat_map (ids_within types.now) (map reference names.now)) gathered.old gathered.new) }
{
    for name in names {
        gather_name(alloc, gathered, types, name)?;
    }
    Ok(())
}

fn gather_fields(
    alloc: Global,
    gathered: &mut Gathered,
    types: &Types,
    fields: &[Field],
) -> Result<(), AllocError>
    ensures { OnOk result (Gathers (flat_map (ids_within types.now) (map (λ f. tree_of f.ty) fields.now)) gathered.old gathered.new) }
{
    for field in fields {
        gather_use(alloc, gathered, types, &field.ty)?;
    }
    Ok(())
}

fn gather_params(
    alloc: Global,
    gathered: &mut Gathered,
    types: &Types,
    params: &[Param],
) -> Result<(), AllocError>
    ensures { OnOk result (Gathers (flat_map (ids_within types.now) (map (λ p. tree_of p.ty) params.now)) gathered.old gathered.new) }
{
    for param in params {
        gather_use(alloc, gathered, types, &param.ty)?;
    }
    Ok(())
}

fn gather_optional(
    alloc: Global,
    gathered: &mut Gathered,
    types: &Types,
    ty: &Option<TypeUse>,
) -> Result<(), AllocError>
    ensures { OnOk result (Gathers (flat_map (ids_within types.now) (map tree_of (option_list ty.now))) gathered.old gathered.new) }
{
    match ty {
        None => Ok(()),
        Some(ty) => gather_use(alloc, gathered, types, ty),
    }
}

fn gather_signature(
    alloc: Global,
    gathered: &mut Gathered,
    types: &Types,
    sig: &Signature,
) -> Result<(), AllocError>
    ensures { OnOk result (Gathers (flat_map (ids_within types.now) (signature_trees sig.now)) gathered.old gathered.new) }
{
    gather_params(alloc, gathered, types, sig.params.as_slice())?;
    gather_optional(alloc, gathered, types, &sig.result)
}

fn gather_member(
    alloc: Global,
    gathered: &mut Gathered,
    types: &Types,
    member: &Member,
) -> Result<(), AllocError>
    ensures { OnOk result (Gathers (flat_map (ids_within types.now) (member_trees member.now)) gathered.old gathered.new) }
{
    match member {
        Member::Method { sig, .. } => gather_signature(alloc, gathered, types, sig),
        Member::Property { ty, .. } => gather_use(alloc, gathered, types, ty),
        Member::Event { ty, .. } => gather_use(alloc, gathered, types, ty),
    }
}

fn gather_members(
    alloc: Global,
    gathered: &mut Gathered,
    types: &Types,
    members: &[Member],
) -> Result<(), AllocError>
    ensures { OnOk result (Gathers (flat_map (ids_within types.now) (flat_map member_trees members.now)) gathered.old gathered.new) }
{
    for member in members {
        gather_member(alloc, gathered, types, member)?;
    }
    Ok(())
}

fn gather_declaration(
    alloc: Global,
    gathered: &mut Gathered,
    types: &Types,
    declaration: &Declaration,
) -> Result<(), AllocError>
    ensures { OnOk result (Gathers (ids_in types.now declaration.now) gathered.old gathered.new) }
{
    match declaration {
        Declaration::Enum { .. } => Ok(()),
        Declaration::Struct { fields, .. } => {
            gather_fields(alloc, gathered, types, fields.as_slice())
        }
        Declaration::Delegate { invoke, .. } => gather_signature(alloc, gathered, types, invoke),
        Declaration::Interface {
            requires_,
            members,
            ..
        } => {
            gather_uses(alloc, gathered, types, requires_.as_slice())?;
            gather_members(alloc, gathered, types, members.as_slice())
        }
        Declaration::Class {
            default,
            has,
            factories,
            statics,
            ..
        } => {
            gather_optional(alloc, gathered, types, default)?;
            gather_uses(alloc, gathered, types, has.as_slice())?;
            gather_names(alloc, gathered, types, factories.as_slice())?;
            gather_names(alloc, gathered, types, statics.as_slice())
        }
    }
}

// The own id of a declared interface or delegate.
fn gather_own(
    alloc: Global,
    gathered: &mut Gathered,
    declaration: &Declaration,
) -> Result<(), AllocError>
    ensures { OnOk result (Gathers (option_list (declared_id declaration.now)) gathered.old gathered.new) }
{
    match declared_own_id(declaration) {
        None => Ok(()),
        Some(id) => gathered.put(alloc, declaration.name().as_str(), id),
    }
}

fn gather_owns(alloc: Global, gathered: &mut Gathered, types: &Types) -> Result<(), AllocError>
    ensures { OnOk result (Gathers (filter_map declared_id types.now) gathered.old gathered.new) }
{
    for i in 0..types.len() {
        gather_own(alloc, gathered, types.at(i))?;
    }
    Ok(())
}

fn gather_declarations(
    alloc: Global,
    gathered: &mut Gathered,
    types: &Types,
) -> Result<(), AllocError>
    ensures { OnOk result (Gathers (flat_map (ids_in types.now) types.now) gathered.old gathered.new) }
{
    for i in 0..types.len() {
        gather_declaration(alloc, gathered, types, types.at(i))?;
    }
    Ok(())
}

/// The id of each declared interface and delegate, and of each found interface and delegate and each instance that the set uses at any
/// depth, by text. An instance without a signature isn't listed. Of two uses of one text the first stands.
pub fn ids_of(alloc: Global, types: &Types) -> Result<Ids, AllocError>
    ensures { IfOk result (λ ids. ids ≡ listing types.now) }
{
    let mut gathered = Gathered::new(alloc);
    gather_owns(alloc, &mut gathered, types)?;
    gather_declarations(alloc, &mut gathered, types)?;
    Ids::from_list(alloc, gathered.list)
}
