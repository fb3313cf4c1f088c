//! Rows that lead to nothing that they lack.

ghost use Rattle.std.specs.Prelude.{◌≡◌, ◌<◌, ◌≤◌, ◌+◌, ◌*◌, ◌^◌, ℕ, IfOk, length};
ghost use Rattle.chains.specs.Graphs.{In, steps_of};
ghost use Rattle.chains.specs.Groups.{graph_of};
ghost use Rattle.stamps.specs.Shared.{stamp_in};
ghost use Rattle.stamps.specs.Within.{AreClosed};

use crate::graph::row_at;
use stamps::leads_out;
use std::alloc::{AllocError, Global};

// The length of a row in the upper half, and its number in the lower one.
fn key_of(row: &[u32], i: usize) -> u64 {
    (row.len() as u64 % 4294967296) * 4294967296 + i as u64 % 4294967296
}

// The numbers of rows, from the shortest row up, so that a row comes behind what it has. Only the time depends on the order.
fn by_length(alloc: Global, graph: &[Vec<u32>]) -> Result<Vec<u64>, AllocError>
    ensures { IfOk result (λ keys. length keys.items ≡ length graph.now) }
{
    let mut keys = Vec::new(alloc);
    for i in 0..graph.len() {
        keys.push(key_of(row_at(graph, i), i))?;
    }
    keys.sort_unstable();
    Ok(keys)
}

fn close_one(stamps: &mut [u64], mine: u64, graph: &[Vec<u32>], closed: &mut [bool], a: usize)
    requires room { mine + 1 < 2 ^ 64 }
    requires size { length stamps.old ≡ length graph.now }
    requires marks { length closed.old ≡ length graph.now }
    requires steps { (a x : ℕ) → In x (steps_of (graph_of graph.now) a) → x < length graph.now }
    requires closed { AreClosed (graph_of graph.now) closed.old }
    requires lower { (x : ℕ) → stamp_in stamps.old x < mine }
    ensures closed { AreClosed (graph_of graph.now) closed.new }
    ensures upto { (x : ℕ) → stamp_in stamps.new x ≤ mine + 1 }
{
    if a >= graph.len() {
        return;
    }
    if leads_out(stamps, mine, graph, closed, row_at(graph, a)) {
        return;
    }
    closed[a] = true;
}

fn close_each(stamps: &mut [u64], graph: &[Vec<u32>], closed: &mut [bool], order: &[u64])
    requires few { length order.now < 2 ^ 32 }
    requires size { length stamps.old ≡ length graph.now }
    requires marks { length closed.old ≡ length graph.now }
    requires steps { (a x : ℕ) → In x (steps_of (graph_of graph.now) a) → x < length graph.now }
    requires closed { AreClosed (graph_of graph.now) closed.old }
    requires clear { (x : ℕ) → stamp_in stamps.old x ≤ 0 }
    ensures { AreClosed (graph_of graph.now) closed.new }
{
    for i in 0..order.len() {
        let a = order[i] % 4294967296;
        close_one(stamps, i as u64 * 2 + 1, graph, closed, a as usize);
    }
}

/// Marks the rows that lead to nothing that they lack.
pub(crate) fn closed_rows(alloc: Global, graph: &[Vec<u32>]) -> Result<Vec<bool>, AllocError>
    requires few { length graph.now < 2 ^ 32 }
    requires steps { (a x : ℕ) → In x (steps_of (graph_of graph.now) a) → x < length graph.now }
    ensures size { IfOk result (λ closed. length closed.items ≡ length graph.now) }
    ensures closed { IfOk result (λ closed. AreClosed (graph_of graph.now) closed.items) }
{
    let order = by_length(alloc, graph)?;
    let mut stamps = vec![in alloc; 0u64; graph.len()]?;
    let mut closed = vec![in alloc; false; graph.len()]?;
    close_each(&mut stamps, graph, &mut closed, order.as_slice());
    Ok(closed)
}
