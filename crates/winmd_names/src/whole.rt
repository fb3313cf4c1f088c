//! The names of a set, from its declarations.

ghost use Rattle.std.specs.Prelude.{◌≡◌, ◌≤◌, IfOk, OnOk, length, map, string_bytes};
ghost use Rattle.std.specs.List.{filter};
ghost use Rattle.wr_base.specs.Declarations.{name_of};
ghost use Rattle.wr_base.specs.Trees.{decl_tree, tree_of};
ghost use Rattle.winmd_sets.specs.Rows as rows;
ghost use Rattle.winmd_lines.specs.Makers.{all_makers};
ghost use Rattle.winmd_uses.specs.Makers.{maker_of};
ghost use Rattle.winmd_uses.specs.Orders.{Rises};
ghost use Rattle.winmd_uses.specs.Takes.{all_names, has_maker, instances_of};
ghost use Rattle.winmd_uses.specs.Uses.{IsUsed};
ghost use Rattle.winmd_names.specs.Seen.{seen};

use crate::instance_rows::{in_order, rows_of};
use crate::makers::used_makers;
use crate::numbers::{MOST_ROWS, numbers};
use crate::references::references;
use crate::set_names::{InstanceRows, SetNames, TypeNames};
use ranked::Memory;
use std::alloc::{AllocError, Global};
use winmd_uses::{Maker, Used, uses_of};
use wr_base::{FullName, TypeUse, Types};

fn type_names(alloc: Global, types: &Types) -> Result<Vec<FullName>, Memory>
    ensures { IfOk result (λ names. names.items ≡ map name_of types.now) }
{
    let mut names = Vec::new(alloc);
    for i in 0..types.len() {
        names.push(types.at(i).name().clone()?)?;
    }
    Ok(names)
}

fn named(alloc: Global, types: &Types, used: &Used<'_>) -> Result<TypeNames, Memory>
    ensures types { IfOk result (λ names. names.types.items ≡ map name_of types.now) }
    ensures refs { IfOk result (λ names. map string_bytes names.refs.items ≡ all_names used.now) }
    ensures ordered { OnOk result (Rises (all_names used.now)) }
{
    let types = type_names(alloc, types)?;
    let refs = references(alloc, used.names())?;
    Ok(TypeNames { types, refs })
}

fn instance_rows(alloc: Global, uses: &[TypeUse]) -> Result<InstanceRows, Memory>
    ensures { IfOk result (λ instances. map tree_of instances.list.items ≡ rows.by_text (map tree_of uses.now)) }
{
    let list = in_order(alloc, uses)?;
    if list.len() > MOST_ROWS {
        return Err(AllocError);
    }
    let rows = rows_of(alloc, list.as_slice())?;
    Ok(InstanceRows { list, rows })
}

fn with_numbers(
    alloc: Global,
    types: TypeNames,
    instances: InstanceRows,
    makers: Vec<Maker>,
) -> Result<SetNames, Memory>
    requires few { length makers.items ≤ 9 }
    ensures { IfOk result (λ names. (names.types ≡ types) × (names.instances ≡ instances) × (names.makers ≡ makers)) }
{
    let tokens = numbers(alloc, types.types.as_slice(), types.refs.as_slice())?;
    Ok(SetNames {
        types,
        instances,
        makers,
        tokens,
        alloc,
    })
}

fn with_makers(
    alloc: Global,
    used: &Used<'_>,
    types: TypeNames,
    instances: InstanceRows,
) -> Result<SetNames, Memory>
    ensures { IfOk result (λ names. (names.types ≡ types) × (names.instances ≡ instances) × (map maker_of names.makers.items ≡ filter (has_maker used.now) all_makers)) }
{
    let makers = used_makers(alloc, used)?;
    with_numbers(alloc, types, instances, makers)
}

fn with_instances(alloc: Global, used: &Used<'_>, types: TypeNames) -> Result<SetNames, Memory>
    ensures { IfOk result (λ names. (names.types ≡ types) × (map tree_of names.instances.list.items ≡ rows.by_text (instances_of used.now)) × (map maker_of names.makers.items ≡ filter (has_maker used.now) all_makers)) }
{
    let instances = instance_rows(alloc, used.instances())?;
    with_makers(alloc, used, types, instances)
}

fn names_for(alloc: Global, types: &Types, used: &Used<'_>) -> Result<SetNames, Memory>
    requires { IsUsed (map decl_tree types.now) used.now }
    ensures { IfOk result (λ names. seen names ≡ rows.names_of (map decl_tree types.now)) }
{
    let names = named(alloc, types, used)?;
    with_instances(alloc, used, names)
}

/// The names of a set: its types as they stand, TypeRefs by full name, TypeSpecs by text, MemberRefs by TypeRef and signature; each that
/// the rows of the set use, once. Err is want of memory, also past the rows that a table has.
pub fn names_of(alloc: Global, types: &Types) -> Result<SetNames, Memory>
    ensures { IfOk result (λ names. seen names ≡ rows.names_of (map decl_tree types.now)) }
{
    let used = uses_of(alloc, types)?;
    names_for(alloc, types, &used)
}
