//! The instances of a set, use by use.

ghost use Rattle.std.specs.Prelude.{◌≡◌, ◌≤◌, ℕ, List, map, length, IfOk, OnOk};
ghost use Rattle.std.specs.List.{flat_map};
ghost use Rattle.std.specs.HashMap.{get_by_text};
ghost use Rattle.wr_base.specs.Trees.{tree_of, instance, uses_of};
ghost use Rattle.wr_rules.specs.Sites.{sites_of};
ghost use Rattle.wr_rules.specs.Uses as uses;
ghost use Rattle.wr_rules.specs.NameRules.{instances_at, instances_in};
ghost use Rattle.placed_sites.specs.Views.{site_view};
ghost use Rattle.site_uses.specs.Views.{shape_view, used_view};
ghost use Rattle.id_rules.specs.Table.{Adds, first_id, instances_within};

use crate::table::{add_instance, no_ids};
use placed_sites::Site;
use site_uses::{Shape, Used, uses_at};
use sqlite_items::Items;
use std::alloc::{AllocError, Global};
use std::collections::HashMap;
use wr_base::{FullName, PlacedTypes, TypeUse, Types, Uses};

fn add_use(
    alloc: Global,
    types: &Types,
    table: &mut HashMap<String, Option<u128>>,
    ty: &TypeUse,
) -> Result<(), AllocError>
    ensures { OnOk result (Adds types.now (instances_within (tree_of ty.now)) (get_by_text table.old) (get_by_text table.new)) }
{
    match ty {
        TypeUse::Inst(_, arguments) => {
            add_instance(alloc, types, table, ty)?;
            for argument in arguments.as_slice() {
                add_use(alloc, types, table, argument)?;
            }
            Ok(())
        }
        TypeUse::Plain(_) => Ok(()),
        TypeUse::Value(_) => Ok(()),
        TypeUse::Reference(_) => Ok(()),
    }
}

fn copied(alloc: Global, uses: &[TypeUse]) -> Result<Uses, AllocError>
    ensures { IfOk result (λ copied. copied ≡ uses.now) }
{
    let mut copied = Items::new(alloc);
    for one in uses {
        copied.push(one.clone()?)?;
    }
    Ok(copied)
}

/// An instance as a use of its own, with the name and the arguments copied.
pub fn instance_of(
    alloc: Global,
    name: &FullName,
    arguments: &[TypeUse],
) -> Result<TypeUse, AllocError>
    ensures { IfOk result (λ ty. tree_of ty ≡ instance name.now (uses_of (map tree_of arguments.now))) }
{
    let name = name.clone()?;
    let arguments = copied(alloc, arguments)?;
    Ok(TypeUse::Inst(name, arguments))
}

fn add_shape(
    alloc: Global,
    types: &Types,
    table: &mut HashMap<String, Option<u128>>,
    shape: &Shape,
) -> Result<(), AllocError>
    ensures { OnOk result (Adds types.now (instances_within (shape_view shape.now)) (get_by_text table.old) (get_by_text table.new)) }
{
    match shape {
        Shape::Instance(name, arguments) => {
            let ty = instance_of(alloc, name, arguments)?;
            add_use(alloc, types, table, &ty)
        }
        Shape::Plain(_) => Ok(()),
        Shape::Value(_) => Ok(()),
        Shape::Reference(_) => Ok(()),
    }
}

fn add_used<'a>(
    alloc: Global,
    types: &Types,
    table: &mut HashMap<String, Option<u128>>,
    used: &[Used<'a>],
) -> Result<(), AllocError>
    ensures { OnOk result (Adds types.now (flat_map (λ (u : uses.Used). instances_within u.use_) (map used_view used.now)) (get_by_text table.old) (get_by_text table.new)) }
{
    for one in used {
        add_shape(alloc, types, table, &one.shape)?;
    }
    Ok(())
}

fn add_site(
    alloc: Global,
    types: &Types,
    table: &mut HashMap<String, Option<u128>>,
    site: &Site,
) -> Result<(), AllocError>
    ensures { OnOk result (Adds types.now (instances_at (site_view site.now)) (get_by_text table.old) (get_by_text table.new)) }
{
    let used = uses_at(alloc, site)?;
    add_used(alloc, types, table, used.as_slice())
}

// How many declarations have places.
fn site_count(types: &PlacedTypes) -> u32
    ensures declared { result ≤ length types.now.types }
    ensures placed { result ≤ length types.now.places }
    ensures count { result ≡ length (sites_of types.now.types types.now.places) }
{
    let declared = types.types.len();
    let placed = types.places.len();
    if placed < declared as usize {
        placed as u32
    } else {
        declared
    }
}

/// The texts of all instances that the declarations of a set use, at any depth, each with the id of its first use, where
/// that has one.
pub fn instance_ids(
    alloc: Global,
    types: &PlacedTypes,
) -> Result<HashMap<String, Option<u128>>, AllocError>
    ensures { IfOk result (λ table. (text : List ℕ) → get_by_text table text ≡ first_id types.now.types (instances_in (sites_of types.now.types types.now.places)) text) }
{
    let mut table = no_ids(alloc);
    for i in 0..site_count(types) {
        let site = Site::at(types, i);
        add_site(alloc, &types.types, &mut table, &site)?;
    }
    Ok(table)
}
