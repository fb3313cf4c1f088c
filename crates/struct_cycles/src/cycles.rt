//! The structs on cycles of the graph of what holds what.

ghost use Rattle.std.specs.Prelude.{◌≡◌, ◌↔◌, ℕ, Some, false, IfOk, IsTrue, map, length, slice_get, slice_index_or};
ghost use Rattle.chains.specs.Groups.{graph_of};
ghost use Rattle.wr_base.specs.Declarations.{name_of};
ghost use Rattle.wr_base.specs.declared.declaration.Declaration.{Declaration};
ghost use Rattle.wr_rules.specs.Closures.{Chain, Holds};
ghost use Rattle.struct_cycles.specs.Places.{held_by};

use crate::held::held_by;
use chains::on_cycles;
use std::alloc::{AllocError, Global};
use wr_base::Types;

fn graph(alloc: Global, types: &Types) -> Result<Vec<Vec<u32>>, AllocError>
    ensures { IfOk result (λ graph. graph_of graph.items ≡ map (held_by types.now) types.now) }
{
    let mut graph = Vec::new(alloc);
    for i in 0..types.len() {
        let list = held_by(alloc, types, types.at(i))?;
        graph.push(list)?;
    }
    Ok(graph)
}

/// Whether each declaration is a struct that holds itself, at any depth.
pub fn struct_cycles(alloc: Global, types: &Types) -> Result<Vec<bool>, AllocError>
    ensures length { IfOk result (λ on. length on.items ≡ length types.now) }
    ensures cycles { IfOk result (λ on. (k : ℕ) (d : Declaration) → slice_get types.now k ≡ Some d → (IsTrue (slice_index_or on.items k false) ↔ Chain (Holds types.now) (name_of d) (name_of d))) }
{
    let _count = types.len();
    let graph = graph(alloc, types)?;
    on_cycles(alloc, graph.as_slice())
}
