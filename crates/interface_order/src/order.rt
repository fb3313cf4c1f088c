//! The order of interfaces.

ghost use Rattle.std.specs.Prelude.{◌≡◌, IfOk, OnOk, map};
ghost use Rattle.interface_order.specs.Order.{number_of, placed_of};
ghost use Rattle.md_schema.specs.declared.column.CodedIndex.TheVariants.{TypeDefOrRef};
ghost use Rattle.md_schema.specs.declared.column.Column.TheVariants.{Coded};
ghost use Rattle.winmd_lines.specs.Orders.{sort_by};
ghost use Rattle.winmd_rows.specs.Indices.{index_of};
ghost use Rattle.winmd_sets.specs.Rows.{interfaces_in_order};
ghost use Rattle.wr_base.specs.Trees.{tree_of};

use kind_rows::Referred;
use md_schema::{CodedIndex, encode};
use part_rows::Target;
use ranked::Memory;
use std::alloc::{AllocError, Global};
use wr_base::TypeUse;

/// The most rows that a table has.
const MOST_ROWS: u32 = 0x100_0000;

// An interface, and the number by which it stands.
#[derive(Drop)]
struct Placed {
    number: u32,
    ty: TypeUse,
}

fn code_of(target: Target) -> Result<u32, Memory>
    ensures { IfOk result (λ code. code ≡ index_of (Coded TypeDefOrRef) target.table target.row) }
{
    if target.row > MOST_ROWS {
        return Err(AllocError);
    }
    match encode(CodedIndex::TypeDefOrRef, target.table, target.row) {
        Some(code) => Ok(code),
        None => Ok(0),
    }
}

fn number<N: Referred>(names: &N, ty: &TypeUse) -> Result<u32, Memory>
    ensures { IfOk result (λ number. number ≡ number_of (N.names names.now) ty.now) }
{
    let target = names.led_to(ty)?;
    code_of(target)
}

fn with_number<N: Referred>(names: &N, ty: &TypeUse) -> Result<Placed, Memory>
    ensures { IfOk result (λ placed. placed ≡ placed_of (N.names names.now) ty.now) }
{
    let number = number(names, ty)?;
    Ok(Placed {
        number,
        ty: ty.clone()?,
    })
}

fn all_placed<N: Referred>(
    names: &N,
    uses: &[TypeUse],
    alloc: Global,
) -> Result<Vec<Placed>, Memory>
    ensures { IfOk result (λ all. all.items ≡ map (placed_of (N.names names.now)) uses.now) }
{
    let mut all = Vec::new(alloc);
    for ty in uses {
        all.push(with_number(names, ty)?)?;
    }
    Ok(all)
}

fn sort(all: &mut Vec<Placed>) -> Result<(), Memory>
    ensures { OnOk result (all.new.items ≡ sort_by (λ (placed : Placed). placed.number) all.old.items) }
{
    all.sort_by_key(|placed| placed.number)?;
    Ok(())
}

fn uses_of(all: Vec<Placed>, alloc: Global) -> Result<Vec<TypeUse>, Memory>
    ensures { IfOk result (λ uses. uses.items ≡ map (λ (placed : Placed). placed.ty) all.items) }
{
    let mut uses = Vec::new(alloc);
    for placed in all {
        uses.push(placed.ty)?;
    }
    Ok(uses)
}

/// The interfaces of a type, in the order of the rows that they lead to. A row beyond 2^24 is want of memory.
pub fn in_order<N: Referred>(
    names: &N,
    uses: &[TypeUse],
    alloc: Global,
) -> Result<Vec<TypeUse>, Memory>
    ensures { IfOk result (λ all. map tree_of all.items ≡ interfaces_in_order (N.names names.now) (map tree_of uses.now)) }
{
    let mut all = all_placed(names, uses, alloc)?;
    sort(&mut all)?;
    uses_of(all, alloc)
}
