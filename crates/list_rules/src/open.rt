//! Lists that lack what their interfaces require, and interfaces that list themselves.

ghost use Rattle.std.specs.Prelude.{◌≡◌, ◌<◌, ◌≤◌, ◌^◌, ◌↔◌, ℕ, IsTrue, IfOk, length};
ghost use Rattle.chains.specs.Graphs.{In, steps_of};
ghost use Rattle.chains.specs.Groups.{graph_of};
ghost use Rattle.stamps.specs.Shared.{stamp_in};
ghost use Rattle.stamps.specs.Within.{AreClosed};
ghost use Rattle.wr_rules.specs.ListRules.{lacks, listed_in};
ghost use Rattle.wr_base.specs.declared.declaration.Declaration.{Declaration};
ghost use Rattle.list_rules.specs.Open.{TellOpen, TellCyclic, FlagsAre, lists_itself};

use crate::closed::closed_rows;
use crate::graph::{required_graph, row_at};
use crate::texts::listed_numbers;
use stamps::leads_out;
use std::alloc::{AllocError, Global};
use wr_base::Types;

/// For each declaration, whether its list lacks what one of its interfaces requires, and whether it is an interface that
/// lists itself.
#[derive(Debug, Drop)]
pub(crate) struct ListFlags {
    pub(crate) open: Vec<bool>,
    pub(crate) cyclic: Vec<bool>,
}

fn tell_open(
    alloc: Global,
    stamps: &mut [u64],
    graph: &[Vec<u32>],
    closed: &[bool],
    sets: &[Vec<u32>],
) -> Result<Vec<bool>, AllocError>
    requires short { length sets.now < 2 ^ 32 }
    requires size { length stamps.old ≡ length graph.now }
    requires marks { length closed.now ≡ length graph.now }
    requires clear { (x : ℕ) → stamp_in stamps.old x ≤ 0 }
    requires steps { (a x : ℕ) → In x (steps_of (graph_of graph.now) a) → x < length graph.now }
    requires closed { AreClosed (graph_of graph.now) closed.now }
    requires within { (k x : ℕ) → In x (steps_of (graph_of sets.now) k) → x < length graph.now }
    ensures { IfOk result (λ on. TellOpen (graph_of graph.now) (graph_of sets.now) (length sets.now) on.items) }
{
    let mut on = Vec::new(alloc);
    for i in 0..sets.len() {
        let told = leads_out(stamps, i as u64 * 2 + 1, graph, closed, row_at(sets, i));
        on.push(told)?;
    }
    Ok(on)
}

fn open_lists(alloc: Global, graph: &[Vec<u32>], sets: &[Vec<u32>]) -> Result<Vec<bool>, AllocError>
    requires short { length sets.now < 2 ^ 32 }
    requires few { length graph.now < 2 ^ 32 }
    requires steps { (a x : ℕ) → In x (steps_of (graph_of graph.now) a) → x < length graph.now }
    requires within { (k x : ℕ) → In x (steps_of (graph_of sets.now) k) → x < length graph.now }
    ensures { IfOk result (λ on. TellOpen (graph_of graph.now) (graph_of sets.now) (length sets.now) on.items) }
{
    let closed = closed_rows(alloc, graph)?;
    let mut stamps = vec![in alloc; 0u64; graph.len()]?;
    tell_open(alloc, &mut stamps, graph, closed.as_slice(), sets)
}

fn has(list: &[u32], x: u32) -> bool
    ensures { IsTrue result ↔ In x list.now }
{
    for y in list {
        if *y == x {
            return true;
        }
    }
    false
}

fn tell_cyclic(alloc: Global, graph: &[Vec<u32>], count: u32) -> Result<Vec<bool>, AllocError>
    requires { count ≤ length graph.now }
    ensures { IfOk result (λ on. TellCyclic (graph_of graph.now) count on.items) }
{
    let mut on = Vec::new(alloc);
    for i in 0..count {
        let told = has(row_at(graph, i as usize), i);
        on.push(told)?;
    }
    Ok(on)
}

fn tell(alloc: Global, graph: &[Vec<u32>], sets: &[Vec<u32>]) -> Result<ListFlags, AllocError>
    requires short { length sets.now < 2 ^ 32 }
    requires few { length graph.now < 2 ^ 32 }
    requires size { length sets.now ≤ length graph.now }
    requires steps { (a x : ℕ) → In x (steps_of (graph_of graph.now) a) → x < length graph.now }
    requires within { (k x : ℕ) → In x (steps_of (graph_of sets.now) k) → x < length graph.now }
    ensures open { IfOk result (λ flags. TellOpen (graph_of graph.now) (graph_of sets.now) (length sets.now) flags.open.items) }
    ensures cyclic { IfOk result (λ flags. TellCyclic (graph_of graph.now) (length sets.now) flags.cyclic.items) }
{
    let open = open_lists(alloc, graph, sets)?;
    let cyclic = tell_cyclic(alloc, graph, sets.len() as u32)?;
    Ok(ListFlags { open, cyclic })
}

/// Asks the list of each declaration.
pub(crate) fn list_flags(alloc: Global, types: &Types) -> Result<ListFlags, AllocError>
    ensures open { IfOk result (λ flags. FlagsAre (λ d. lacks types.now (listed_in d)) types.now flags.open.items) }
    ensures cyclic { IfOk result (λ flags. FlagsAre lists_itself types.now flags.cyclic.items) }
{
    let _count = types.len();
    let listed = listed_numbers(alloc, types)?;
    let graph = required_graph(alloc, types, &listed)?;
    tell(alloc, graph.as_slice(), listed.sets.as_slice())
}
