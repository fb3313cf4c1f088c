//! Declarations in the order of their full names.

ghost use Rattle.std.specs.Prelude.{◌≡◌, ◌<◌, ◌^◌, IfOk, length, map};
ghost use Rattle.winmd_lines.specs.Orders.{set_by};
ghost use Rattle.winmd_set.specs.Order.{AllOnce};
ghost use Rattle.winmd_set.specs.Stated.{stated_seen, set_tree};
ghost use Rattle.wr_base.specs.Trees.{decl_tree, name_of};

use crate::stated::Stated;
use ranked::{Memory, Stop};
use std::alloc::{AllocError, Global};
use wr_base::{Declaration, Types};

fn declarations(alloc: Global, list: Vec<Stated>) -> Result<Vec<Declaration>, Memory>
    ensures { IfOk result (λ done. done.items ≡ map (λ s. s.declaration) list.items) }
{
    let mut done = Vec::new(alloc);
    for stated in list {
        done.push(stated.declaration)?;
    }
    Ok(done)
}

/// Declarations of which each has a full name of its own, in the order of these.
pub(crate) fn put_in_order(alloc: Global, list: Vec<Stated>) -> Result<Types, Memory>
    requires short { length list.items < 2 ^ 32 }
    requires once { AllOnce (map stated_seen list.items) }
    ensures { IfOk result (λ types. map decl_tree types ≡ set_by name_of (map (λ e. e.1) (map stated_seen list.items))) }
{
    let list = declarations(alloc, list)?;
    match Types::from_list(alloc, list) {
        Ok(types) => Ok(types),
        Err(Stop::Memory) => Err(AllocError),
        Err(Stop::Refused(_)) => unreachable!(),
    }
}
