//! The look-up of names.

ghost use Rattle.std.specs.Prelude.{◌≡◌, ◌++◌, ◌∷◌, ◌+◌, ◌<◌, ◌≤◌, ℕ, List, Some, None, IfOk, OnOk, length, take, string_bytes, option_map, if◌then◌else◌};
ghost use Rattle.std.specs.HashMap.{get_by_text};
ghost use Rattle.wr_base.specs.Parts.{behind_last};
ghost use Rattle.wr_base.specs.Paths.{is_path};
ghost use Rattle.found_table.specs.Table.{builtin};
ghost use Rattle.found_table.specs.Views.{found_view};
ghost use Rattle.midl_names.specs.declared.sort.Sort.{Sort};
ghost use Rattle.midl_names.specs.Items.{prefix};
ghost use Rattle.midl_names.specs.Lookup.{taking, found_sort, arity, named, hit, look_up};
ghost use Rattle.midl_names.specs.Views.{parts_of};

use crate::hit::Hit;
use crate::index::{Index, longest_of};
use crate::paths::push_part;
use crate::sort::Sort;
use found_table::{Found, builtin};
use midl_tree::Ident;
use std::alloc::Global;
use wr_base::{FullName, Memory};

fn taking(count: u32) -> Sort
    ensures { result ≡ taking count }
{
    if count == 0 {
        Sort::Reference
    } else {
        Sort::Template(count)
    }
}

fn sort_of_found(found: &Found) -> Sort
    ensures { result ≡ found_sort (found_view found.now) }
{
    match found {
        Found::Struct { .. } => Sort::Value,
        Found::Interface { arguments, .. } => taking(*arguments),
        Found::Delegate { arguments, .. } => taking(*arguments),
    }
}

fn found_sort(name: &str) -> Option<Sort>
    ensures { result ≡ option_map found_sort (builtin name.now) }
{
    match builtin(name) {
        None => None,
        Some(found) => Some(sort_of_found(&found)),
    }
}

/// How many arguments a type takes.
pub(crate) fn arity(sort: Sort) -> usize
    ensures { result ≡ arity sort }
{
    match sort {
        Sort::Value => 0,
        Sort::Reference => 0,
        Sort::Template(count) => count as usize,
    }
}

#[tactic(auto, unfolding(crate::specs::Lookup::named))]
fn named(index: &Index, name: &str) -> Option<Sort>
    ensures { result ≡ named (get_by_text index.now.sorts) name.now }
{
    match index.sorts.get(name) {
        Some(sort) => Some(*sort),
        None => found_sort(name),
    }
}

fn hit_by(alloc: Global, text: &str, sort: Sort) -> Result<Option<Hit>, Memory>
    ensures { IfOk result (λ r. r ≡ (if is_path text.now then Some (record { name = text.now; sort = sort }) else None)) }
{
    let text = String::from_str(alloc, text)?;
    match FullName::new(text) {
        None => Ok(None),
        Some(name) => Ok(Some(Hit { name, sort })),
    }
}

#[tactic(auto, unfolding(crate::specs::Lookup::hit))]
fn hit(alloc: Global, index: &Index, text: &str) -> Result<Option<Hit>, Memory>
    ensures { IfOk result (λ r. r ≡ hit (get_by_text index.now.sorts) text.now) }
{
    match named(index, text) {
        None => Ok(None),
        Some(sort) => hit_by(alloc, text, sort),
    }
}

// The most bytes of the full name of a found type.
const LONGEST_FOUND: usize = 41;

/// The most bytes that a full name has which means a type and ends with the path's last name.
fn limit_of(index: &Index, path: &str) -> usize
    ensures { (name : List ℕ) (sort : Sort) → named (get_by_text index.now.sorts) name ≡ Some sort → behind_last 46 name ≡ behind_last 46 path.now → length name ≤ result }
{
    let declared = longest_of(index, path);
    if declared < LONGEST_FOUND {
        LONGEST_FOUND
    } else {
        declared
    }
}

/// The bytes that are left of a limit.
fn room_in(limit: usize, length: usize) -> usize
    ensures { limit ≤ result + length }
{
    if limit <= length { 0 } else { limit - length }
}

/// Puts as many of a namespace's parts behind the text as there is room for, and says how many.
fn push_parts(text: &mut String, space: &[&Ident], room: usize) -> Result<usize, Memory>
    ensures short { IfOk result (λ left. left ≤ length space.now) }
    ensures value { IfOk result (λ left. string_bytes text.new ≡ string_bytes text.old ++ prefix (parts_of (take left space.now))) }
    ensures full { IfOk result (λ left. left < length space.now → room < length (prefix (parts_of (take (left + 1) space.now)))) }
{
    let mut room = room;
    let mut left = 0;
    'more: while left < space.len() {
        let part = space[left];
        let cost = part.as_str().len() + 1;
        if room < cost {
            return Ok(left);
        }
        push_part(text, part)?;
        room -= cost;
        left += 1;
    }
    Ok(left)
}

/// Takes the last part of the namespace out of a text that is a namespace and a path behind it.
fn cut_part(text: &mut String, part: &Ident, path: &str) -> Result<(), Memory>
    requires { (front : List ℕ) × (string_bytes text.old ≡ front ++ (part.now.text ++ 46 ∷ path.now)) }
    ensures { OnOk result ((front : List ℕ) → string_bytes text.old ≡ front ++ (part.now.text ++ 46 ∷ path.now) → string_bytes text.new ≡ front ++ path.now) }
{
    let identifier = part.as_str();
    text.truncate(text.len() - path.len() - 1 - identifier.len());
    text.push_str(path)?;
    Ok(())
}

/// The type that a path means in a namespace: the declared or found one with the most of the namespace's parts in front.
pub(crate) fn look_up(
    alloc: Global,
    index: &Index,
    space: &[&Ident],
    path: &str,
) -> Result<Option<Hit>, Memory>
    ensures { IfOk result (λ r. r ≡ look_up (get_by_text index.now.sorts) (parts_of space.now) path.now) }
{
    let room = room_in(limit_of(index, path), path.len());
    let mut text = String::new(alloc);
    let mut left = push_parts(&mut text, space, room)?;
    text.push_str(path)?;
    'more: while left > 0 {
        if let Some(found) = hit(alloc, index, text.as_str())? {
            return Ok(Some(found));
        }
        left -= 1;
        cut_part(&mut text, space[left], path)?;
    }
    hit(alloc, index, path)
}
