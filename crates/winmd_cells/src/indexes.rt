//! Rows by the row to which a column leads, found once for all rows. No fault is met here: a cell that leads nowhere is passed over.

ghost use Rattle.std.specs.Prelude.{◌≡◌, ◌<◌, ◌≤◌, ◌-◌, ◌+◌, ◌^◌, ◌++◌, ◌∷◌, [], ℕ, OnOk, IfOk, map, suc, length, get_or, Some, slice_set};
ghost use Rattle.winmd_cells.specs.Indexed.{numbers_in};
ghost use Rattle.winmd_lines.specs.Cells as cells_as;
ghost use Rattle.winmd_cells.specs.Indexed.{IsIndex, is_row, leads_by, only};
ghost use Rattle.winmd_cells.specs.Seen.{seen, tables_in, heaps_in, followed_cell, row_seen, value_seen};

use crate::cells::{Value, column_of};
use crate::image::Image;
use md_schema::{Column, Table};
use md_tables::place;
use ranked::Memory;
use std::alloc::Global;

/// The row of a table that a value leads to.
fn row_in(value: Value<'_>, owner: Table) -> Option<u32>
    ensures { (m : ℕ) → cells_as.leads owner m (value_seen value.entry) ≡ is_row m result }
{
    match value {
        Value::To(table, n) if place(table) == place(owner) => Some(n),
        _ => None,
    }
}

impl<'a> Image<'a> {
    fn led(&self, kind: Option<Column>, raw: Option<u32>, owner: Table) -> Option<u32>
        ensures { (offset m : ℕ) → cells_as.passes (cells_as.leads owner m) (followed_cell (heaps_in self.now) offset kind raw) ≡ is_row m result }
    {
        let (Some(kind), Some(raw)) = (kind, raw) else {
            return None;
        };
        match self.follow(kind, raw) {
            Ok(value) => row_in(value, owner),
            Err(_) => None,
        }
    }

    /// The row of a table that a cell leads to.
    fn owner(&self, keyed: Table, n: u32, column: usize, owner: Table) -> Option<u32>
        ensures { (m : ℕ) → leads_by self.now keyed column owner m n ≡ is_row m result }
    {
        self.led(column_of(keyed, column), self.raw(keyed, n, column), owner)
    }
}

fn add(lists: &mut Vec<Vec<u32>>, m: usize, n: u32) -> Result<(), Memory>
    requires { m < length lists.old.items }
    ensures { OnOk result (numbers_in lists.new.items ≡ slice_set (numbers_in lists.old.items) m (get_or (numbers_in lists.old.items) m [] ++ n ∷ [])) }
{
    lists[m].push(n)?;
    Ok(())
}

fn put(lists: &mut Vec<Vec<u32>>, owner: Option<u32>, n: u32) -> Result<(), Memory>
    ensures same { OnOk result (length lists.new.items ≡ length lists.old.items) }
    ensures put { OnOk result ((m : ℕ) → m < length lists.old.items → get_or (numbers_in lists.new.items) m [] ≡ get_or (numbers_in lists.old.items) m [] ++ only (is_row m owner) n) }
{
    match owner {
        Some(m) if (m as usize) < lists.len() => add(lists, m as usize, n),
        _ => Ok(()),
    }
}

fn empty_lists(alloc: Global, count: usize) -> Result<Vec<Vec<u32>>, Memory>
    ensures length { IfOk result (λ lists. length lists.items ≡ count) }
    ensures empty { IfOk result (λ lists. (m : ℕ) → get_or (numbers_in lists.items) m [] ≡ []) }
{
    let mut lists = Vec::new(alloc);
    for made in 0..count {
        lists.push(Vec::new(alloc))?;
    }
    Ok(lists)
}

/// The rows of a table by the row of another, from 0 on, to which a column leads; one pass over the rows. An error is want of memory.
pub fn index(
    alloc: Global,
    image: &Image<'_>,
    keyed: Table,
    column: usize,
    owner: Table,
) -> Result<Vec<Vec<u32>>, Memory>
    ensures { IfOk result (λ lists. IsIndex image.now keyed column owner lists.items) }
{
    let mut lists = empty_lists(alloc, image.count(owner) as usize + 1)?;
    for i in 0..image.count(keyed) {
        put(&mut lists, image.owner(keyed, i + 1, column, owner), i + 1)?;
    }
    Ok(lists)
}

/// The rows that belong to the row of a number, by an index.
pub fn owned(index: &[Vec<u32>], n: u32) -> &[u32]
    ensures { result.now ≡ get_or (numbers_in index.now) n [] }
{
    match index.get(n as usize) {
        Some(rows) => rows.as_slice(),
        None => &[],
    }
}
