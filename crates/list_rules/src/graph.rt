//! What each numbered text requires, as numbers.

ghost use Rattle.std.specs.Prelude.{◌≡◌, ◌<◌, ◌≤◌, ℕ, IfOk, OnOk, length};
ghost use Rattle.chains.specs.Graphs.{steps_of};
ghost use Rattle.chains.specs.Groups.{graph_of};
ghost use Rattle.list_rules.specs.Texts.{SetsNumbered};
ghost use Rattle.list_rules.specs.Rows.{row_of, AreRows, IsGraph};

use crate::texts::ListedNumbers;
use std::alloc::{AllocError, Global};
use wr_base::{Declaration, Types};

/// The numbers in a row.
pub(crate) fn row_at(rows: &[Vec<u32>], i: usize) -> &[u32]
    requires { i < length rows.now }
    ensures { result.now ≡ steps_of (graph_of rows.now) i }
{
    rows[i].as_slice()
}

fn row_of(alloc: Global, declaration: &Declaration, set: &[u32]) -> Result<Vec<u32>, AllocError>
    ensures { IfOk result (λ row. row.items ≡ row_of declaration.now set.now) }
{
    let mut row = Vec::new(alloc);
    if let Declaration::Interface { .. } = declaration {
        row.extend_from_slice(set)?;
    }
    Ok(row)
}

fn rows_of(alloc: Global, types: &Types, sets: &[Vec<u32>]) -> Result<Vec<Vec<u32>>, AllocError>
    requires { length sets.now ≡ length types.now }
    ensures { IfOk result (λ rows. AreRows types.now (graph_of sets.now) (length types.now) (graph_of rows.items)) }
{
    let mut rows = Vec::new(alloc);
    for i in 0..types.len() {
        let row = row_of(alloc, types.at(i), row_at(sets, i as usize))?;
        rows.push(row)?;
    }
    Ok(rows)
}

// Puts empty rows behind the others, up to so many.
fn widen(alloc: Global, rows: &mut Vec<Vec<u32>>, count: usize) -> Result<(), AllocError>
    requires { length rows.old.items ≤ count }
    ensures size { OnOk result (length rows.new.items ≡ count) }
    ensures rows { OnOk result ((a : ℕ) → steps_of (graph_of rows.new.items) a ≡ steps_of (graph_of rows.old.items) a) }
{
    for _next in rows.len()..count {
        rows.push(Vec::new(alloc))?;
    }
    Ok(())
}

/// What each numbered text requires: a declared interface what it lists, and others nothing.
pub(crate) fn required_graph(
    alloc: Global,
    types: &Types,
    listed: &ListedNumbers,
) -> Result<Vec<Vec<u32>>, AllocError>
    requires { SetsNumbered types.now listed.now.count (graph_of listed.now.sets.items) }
    ensures { IfOk result (λ graph. IsGraph types.now (graph_of listed.now.sets.items) listed.now.count (graph_of graph.items)) }
{
    let _count = types.len();
    let mut rows = rows_of(alloc, types, listed.sets.as_slice())?;
    widen(alloc, &mut rows, listed.count as usize)?;
    Ok(rows)
}
