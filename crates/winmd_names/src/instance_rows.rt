//! Instances in the order of their texts, and the row of each.

ghost use Rattle.std.specs.Prelude.{◌≡◌, ◌<◌, ◌^◌, ℕ, List, Some, None, OnOk, IfOk, bytes_eq, if◌then◌else◌, length, map, string_bytes};
ghost use Rattle.std.specs.List.Sorted.{IsSortedByKey, IsStableByKey};
ghost use Rattle.std.specs.Ordering.{nat_cmp};
ghost use Rattle.std.specs.Cmp.Lexicographic.{slice_cmp};
ghost use Rattle.wr_base.specs.Trees.{UseTree, same_use, tree_of};
ghost use Rattle.winmd_sets.specs.Rows.{by_text};
ghost use Rattle.std.specs.HashMap.{Updates};
ghost use Rattle.winmd_uses.specs.Known.{key_eq};
ghost use Rattle.winmd_uses.specs.Keys.{key_of};
ghost use Rattle.winmd_names.specs.InstanceRows.{row_among, row_under};
ghost use Rattle.winmd_names.specs.Texted.{text_key, tree_in, trees_in};

use crate::texted::Texted;
use ranked::Memory;
use std::alloc::{AllocError, Global};
use std::collections::HashMap;
use winmd_uses::put_key;
use wr_base::TypeUse;

fn texted(alloc: Global, ty: &TypeUse) -> Result<Texted, Memory>
    ensures { IfOk result (λ t. tree_in t ≡ tree_of ty.now) }
{
    let text = ty.text(alloc)?;
    Ok(Texted {
        text,
        ty: ty.clone()?,
    })
}

fn with_texts(alloc: Global, uses: &[TypeUse]) -> Result<Vec<Texted>, Memory>
    ensures { IfOk result (λ list. trees_in list.items ≡ map tree_of uses.now) }
{
    let mut list = Vec::new(alloc);
    for ty in uses {
        list.push(texted(alloc, ty)?)?;
    }
    Ok(list)
}

fn sort_by_text(list: &mut Vec<Texted>) -> Result<(), Memory>
    ensures sorted { OnOk result (IsSortedByKey text_key (slice_cmp nat_cmp) list.new.items) }
    ensures stable { OnOk result (IsStableByKey text_key (slice_cmp nat_cmp) list.old.items list.new.items) }
{
    list.sort_by(|a, b| a.text.as_str().cmp(b.text.as_str()))?;
    Ok(())
}

fn without_texts(alloc: Global, list: Vec<Texted>) -> Result<Vec<TypeUse>, Memory>
    ensures { IfOk result (λ uses. map tree_of uses.items ≡ trees_in list.items) }
{
    let mut uses = Vec::new(alloc);
    for entry in list {
        let Texted { ty, .. } = entry;
        uses.push(ty)?;
    }
    Ok(uses)
}

/// Copies of uses in the order of their texts; those of one text stay as they stand.
pub(crate) fn in_order(alloc: Global, uses: &[TypeUse]) -> Result<Vec<TypeUse>, Memory>
    ensures { IfOk result (λ sorted. map tree_of sorted.items ≡ by_text (map tree_of uses.now)) }
{
    let mut list = with_texts(alloc, uses)?;
    sort_by_text(&mut list)?;
    without_texts(alloc, list)
}

fn put(rows: &mut HashMap<Vec<u8>, u32>, key: Vec<u8>, row: u32) -> Result<(), Memory>
    ensures { OnOk result (Updates key_eq rows.old rows.new key (Some row)) }
{
    match rows.insert(key, row) {
        Ok(_) => Ok(()),
        Err(_) => Err(AllocError),
    }
}

fn put_row(
    alloc: Global,
    rows: &mut HashMap<Vec<u8>, u32>,
    ty: &TypeUse,
    row: u32,
) -> Result<(), Memory>
    ensures { OnOk result ((u : UseTree) → row_under rows.new (key_of u) ≡ (if same_use u (tree_of ty.now) then Some row else row_under rows.old (key_of u))) }
{
    let mut key = Vec::new(alloc);
    put_key(&mut key, ty)?;
    put(rows, key, row)
}

/// The row of each instance, from 1 on, under its key.
pub(crate) fn rows_of(alloc: Global, uses: &[TypeUse]) -> Result<HashMap<Vec<u8>, u32>, Memory>
    requires { length uses.now < 2 ^ 32 }
    ensures { IfOk result (λ rows. (u : UseTree) → row_under rows (key_of u) ≡ row_among 1 (map tree_of uses.now) u) }
{
    let mut rows = HashMap::new(alloc);
    let mut left = uses.len();
    while left > 0 {
        left -= 1;
        put_row(alloc, &mut rows, &uses[left], left as u32 + 1)?;
    }
    Ok(rows)
}
