//! What the fields of a declaration hold, as places in the set.

ghost use Rattle.std.specs.Prelude.{◌≡◌, ◌++◌, ◌<◌, ◌^◌, IfOk, OnOk, length};
ghost use Rattle.std.specs.Option.{option_copied, option_and_then};
ghost use Rattle.std.specs.List.{flat_map};
ghost use Rattle.wr_base.specs.Trees.{tree_of};
ghost use Rattle.wr_base.specs.Declarations.{IsInOrder};
ghost use Rattle.struct_cycles.specs.Places.{place_in, direct_name, step_of, held_by};

use std::alloc::{AllocError, Global};
use wr_base::{Declaration, Field, FullName, TypeUse, Types};

fn direct_name(ty: &TypeUse) -> Option<&FullName>
    ensures { option_copied result ≡ direct_name (tree_of ty.now) }
{
    match ty {
        TypeUse::Plain(_) => None,
        TypeUse::Value(name) => Some(name),
        TypeUse::Reference(name) => Some(name),
        TypeUse::Inst(_, _) => None,
    }
}

fn place_in(types: &Types, name: &FullName) -> Option<u32>
    ensures { result ≡ place_in types.now name.now }
{
    types.find(name)
}

fn put_field(types: &Types, list: &mut Vec<u32>, field: &Field) -> Result<(), AllocError>
    ensures { OnOk result (list.new.items ≡ list.old.items ++ step_of types.now field.now) }
{
    match direct_name(&field.ty) {
        None => Ok(()),
        Some(name) => match place_in(types, name) {
            None => Ok(()),
            Some(place) => {
                list.push(place)?;
                Ok(())
            }
        },
    }
}

fn put_fields(types: &Types, list: &mut Vec<u32>, fields: &[Field]) -> Result<(), AllocError>
    ensures { OnOk result (list.new.items ≡ list.old.items ++ flat_map (step_of types.now) fields.now) }
{
    for field in fields {
        put_field(types, list, field)?;
    }
    Ok(())
}

fn put_held(types: &Types, list: &mut Vec<u32>, declaration: &Declaration) -> Result<(), AllocError>
    ensures { OnOk result (list.new.items ≡ list.old.items ++ held_by types.now declaration.now) }
{
    match declaration {
        Declaration::Struct { fields, .. } => put_fields(types, list, fields.as_slice()),
        _ => Ok(()),
    }
}

/// The places of what a declaration's fields hold.
pub(crate) fn held_by(
    alloc: Global,
    types: &Types,
    declaration: &Declaration,
) -> Result<Vec<u32>, AllocError>
    ensures { IfOk result (λ list. list.items ≡ held_by types.now declaration.now) }
{
    let mut list = Vec::new(alloc);
    put_held(types, &mut list, declaration)?;
    Ok(list)
}
