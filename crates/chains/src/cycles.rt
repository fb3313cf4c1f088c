//! The numbers of a graph that come back to themselves, found by one search in depth.

ghost use Rattle.std.specs.Prelude.{◌≡◌, ◌<◌, ◌≤◌, ◌+◌, ◌^◌, ◌↔◌, ℕ, IsTrue, IfOk, OnOk, length, map, slice_index_or, false};
ghost use Rattle.chains.specs.Graphs.{In, Chain, IsClosed, steps_of};
ghost use Rattle.chains.specs.Groups.{view_of, views_of, graph_of};
ghost use Rattle.chains.specs.Marks.{mark_in, news, Idle, Explored};
ghost use Rattle.chains.specs.Merging.{Merged};
ghost use Rattle.chains.specs.Search.{IsDone};
ghost use Rattle.chains.specs.declared.group.Mark.TheVariants.{New, Open, Done};
ghost use Rattle.std.specs.Prelude.{◌∷◌, [], slice_set};
ghost use Rattle.chains.specs.Marks.{State, Taken, Stepped, weight, told};

use crate::group::{Group, Mark, alone, join};
use std::alloc::{AllocError, Global};

// The numbers of a group that nothing waits for are left.
fn leave(marks: &mut [Mark], group: &Group)
    requires { (a : ℕ) → In a group.now.nodes.items → a < length marks.old }
    ensures here { (a : ℕ) → In a group.now.nodes.items → mark_in marks.new a ≡ Done group.now.cyclic }
    ensures there { (a : ℕ) → ¬ (In a group.now.nodes.items) → mark_in marks.new a ≡ mark_in marks.old a }
    ensures news { news marks.new ≤ news marks.old }
{
    for node in &group.nodes {
        marks[*node as usize] = Mark::Done(group.cyclic);
    }
}

// Joins the last groups down to the one of this visit.
fn merge(groups: &mut Vec<Group>, top: Group, number: u32) -> Result<Group, AllocError>
    ensures { IfOk result (λ g. Merged number (view_of top) (views_of groups.old.items) (view_of g) (views_of groups.new.items)) }
{
    let mut top = top;
    'more: while top.first > number {
        match groups.pop() {
            None => return Ok(top),
            Some(lower) => top = join(lower, top)?,
        }
    }
    top.cyclic = true;
    Ok(top)
}

// A number is met for the first time.
fn enter(
    alloc: Global,
    graph: &[Vec<u32>],
    marks: &mut [Mark],
    node: u32,
    number: u32,
) -> Result<Group, AllocError>
    requires graph { node < length graph.now }
    requires marks { node < length marks.old }
    ensures group { IfOk result (λ g. view_of g ≡ record { nodes = node ∷ []; pending = steps_of (graph_of graph.now) node; first = number; cyclic = false }) }
    ensures marks { marks.new ≡ slice_set marks.old node (Open number) }
{
    marks[node as usize] = Mark::Open(number);
    alone(alloc, node, number, graph[node as usize].as_slice())
}

// Goes on along a step that was taken from the last group.
fn follow(
    alloc: Global,
    graph: &[Vec<u32>],
    marks: &mut [Mark],
    groups: &mut Vec<Group>,
    top: Group,
    next: u32,
    number: u32,
) -> Result<u32, AllocError>
    requires bounded { length graph.now < 2 ^ 32 }
    requires next { next < length graph.now }
    requires taken { Taken (graph_of graph.now) marks.old (view_of top) (views_of groups.old.items) next number }
    ensures { IfOk result (λ n. Stepped (graph_of graph.now) marks.old (weight (graph_of graph.now) marks.old (view_of top ∷ views_of groups.old.items) + 1) marks.new (views_of groups.new.items) n) }
{
    match marks[next as usize] {
        Mark::New => {
            groups.push(top)?;
            let group = enter(alloc, graph, marks, next, number)?;
            groups.push(group)?;
            Ok(number + 1)
        }
        Mark::Open(visit) => {
            let joined = merge(groups, top, visit)?;
            groups.push(joined)?;
            Ok(number)
        }
        Mark::Done(_) => {
            groups.push(top)?;
            Ok(number)
        }
    }
}

// One step from the last group, which was taken off.
fn step(
    alloc: Global,
    graph: &[Vec<u32>],
    marks: &mut [Mark],
    groups: &mut Vec<Group>,
    top: Group,
    number: u32,
) -> Result<u32, AllocError>
    requires bounded { length graph.now < 2 ^ 32 }
    requires closed { IsClosed (graph_of graph.now) (length graph.now) }
    requires state { State (graph_of graph.now) marks.old (view_of top ∷ views_of groups.old.items) number }
    ensures { IfOk result (λ n. Stepped (graph_of graph.now) marks.old (weight (graph_of graph.now) marks.old (view_of top ∷ views_of groups.old.items)) marks.new (views_of groups.new.items) n) }
{
    let mut top = top;
    match top.pending.pop() {
        None => {
            leave(marks, &top);
            Ok(number)
        }
        Some(next) => follow(alloc, graph, marks, groups, top, next, number),
    }
}

// All that a new number leads to is left.
fn explore(
    alloc: Global,
    graph: &[Vec<u32>],
    marks: &mut [Mark],
    root: u32,
    number: u32,
) -> Result<u32, AllocError>
    requires bounded { length graph.now < 2 ^ 32 }
    requires closed { IsClosed (graph_of graph.now) (length graph.now) }
    requires root { root < length graph.now }
    requires new { mark_in marks.old root ≡ New }
    requires idle { Idle (graph_of graph.now) marks.old number }
    ensures { IfOk result (λ n. Explored (graph_of graph.now) root marks.old marks.new n) }
{
    let mut groups = Vec::new(alloc);
    let group = enter(alloc, graph, marks, root, number)?;
    groups.push(group)?;
    let mut number = number + 1;
    'more: while let Some(top) = groups.pop() {
        number = step(alloc, graph, marks, &mut groups, top, number)?;
    }
    Ok(number)
}

fn cover(
    alloc: Global,
    graph: &[Vec<u32>],
    marks: &mut [Mark],
    root: u32,
    number: u32,
) -> Result<u32, AllocError>
    requires bounded { length graph.now < 2 ^ 32 }
    requires closed { IsClosed (graph_of graph.now) (length graph.now) }
    requires root { root < length graph.now }
    requires idle { Idle (graph_of graph.now) marks.old number }
    ensures { IfOk result (λ n. Explored (graph_of graph.now) root marks.old marks.new n) }
{
    match marks[root as usize] {
        Mark::New => explore(alloc, graph, marks, root, number),
        Mark::Open(_) => Ok(number),
        Mark::Done(_) => Ok(number),
    }
}

fn comes_back(mark: &Mark) -> bool
    ensures { result ≡ told mark.now }
{
    match mark {
        Mark::New => false,
        Mark::Open(_) => false,
        Mark::Done(back) => *back,
    }
}

fn all_told(alloc: Global, marks: &[Mark]) -> Result<Vec<bool>, AllocError>
    ensures { IfOk result (λ on. on.items ≡ map told marks.now) }
{
    let mut on = Vec::new(alloc);
    for mark in marks {
        on.push(comes_back(mark))?;
    }
    Ok(on)
}

/// Whether each number of the graph comes back to itself. It takes time that is linear in the numbers and steps, but for a logarithm.
pub fn on_cycles(alloc: Global, graph: &[Vec<u32>]) -> Result<Vec<bool>, AllocError>
    requires bounded { length graph.now < 2 ^ 32 }
    requires closed { IsClosed (graph_of graph.now) (length graph.now) }
    ensures length { IfOk result (λ on. length on.items ≡ length graph.now) }
    ensures cycles { IfOk result (λ on. (a : ℕ) → a < length graph.now → (IsTrue (slice_index_or on.items a false) ↔ Chain (graph_of graph.now) a a)) }
{
    let mut marks = vec![in alloc; Mark::New; graph.len()]?;
    let mut number = 0u32;
    for root in 0..graph.len() {
        number = cover(alloc, graph, &mut marks, root as u32, number)?;
    }
    all_told(alloc, &marks)
}
