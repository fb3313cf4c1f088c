//! Uses that look-up doesn't find, and uses with another number of arguments than the type takes.

ghost use Rattle.std.specs.Prelude.{◌≡◌, IfOk};
ghost use Rattle.std.specs.HashMap.{get_by_text};
ghost use Rattle.ranked.specs.First.{IsFirst, Among};
ghost use Rattle.midl_tree.specs.Views.{type_view};
ghost use Rattle.midl_names.specs.Faults.{Gives};
ghost use Rattle.midl_names.specs.Lookup.{look_up};
ghost use Rattle.midl_names.specs.Uses.{dotted, uses_of, path_fault, use_fault};
ghost use Rattle.midl_names.specs.Views.{item_of};

use crate::index::Index;
use crate::lookup::{arity, look_up};
use crate::paths::{dotted, first_offset};
use crate::refuse::refuse;
use crate::scoped::Scoped;
use crate::uses::uses_of;
use midl_tree::{Ident, TypeNode};
use ranked::earlier;
use std::alloc::Global;
use wr_base::{Code, Memory, Refusal};

fn path_fault(
    alloc: Global,
    index: &Index,
    item: &Scoped,
    path: &[Ident],
    count: usize,
) -> Result<Option<Refusal>, Memory>
    ensures { IfOk result (λ r. r ≡ path_fault (item_of item.now) path.now count (look_up (get_by_text index.now.sorts) (item_of item.now).space (dotted path.now))) }
{
    let text = dotted(alloc, path)?;
    match look_up(alloc, index, &item.space, text.as_str())? {
        None => {
            let refusal = refuse(
                alloc,
                item,
                first_offset(path),
                Code::UnknownType,
                text.as_str(),
            )?;
            Ok(Some(refusal))
        }
        Some(hit) => {
            if count == arity(hit.sort) {
                return Ok(None);
            }
            let refusal = refuse(
                alloc,
                item,
                first_offset(path),
                Code::WrongArity,
                hit.name.as_str(),
            )?;
            Ok(Some(refusal))
        }
    }
}

fn use_fault(
    alloc: Global,
    index: &Index,
    item: &Scoped,
    node: &TypeNode,
) -> Result<Option<Refusal>, Memory>
    ensures { IfOk result (λ r. r ≡ use_fault (get_by_text index.now.sorts) (item_of item.now) (type_view node.now)) }
{
    match node {
        TypeNode::Base(_) => Ok(None),
        TypeNode::Named(path, arguments) => path_fault(alloc, index, item, path, arguments.len()),
    }
}

/// The first of the item's uses that is broken.
pub(crate) fn use_faults(
    alloc: Global,
    index: &Index,
    item: &Scoped,
) -> Result<Option<Refusal>, Memory>
    ensures { IfOk result (IsFirst (Among (uses_of (item_of item.now).tree) (λ u. Gives (use_fault (get_by_text index.now.sorts) (item_of item.now) u)))) }
{
    let uses = uses_of(alloc, item.tree)?;
    let mut first = None;
    for node in &uses {
        first = earlier(first, use_fault(alloc, index, item, *node)?);
    }
    Ok(first)
}
