//! The members of an interface, in order.

ghost use Rattle.std.specs.Prelude.{◌≡◌, ◌||◌, [], ℕ, List, OnOk, bytes_eq, map, true};
ghost use Rattle.std.specs.BTreeSet.{Updates, contains_text};
ghost use Rattle.std.specs.List.{list_any};
ghost use Rattle.std.specs.String.{string_cmp};
ghost use Rattle.kind_rows.specs.Said.{said};
ghost use Rattle.part_rows.specs.Grown.{with_lines};
ghost use Rattle.winmd_sets.specs.Members.{member_lines, members_lines, method_names};
ghost use Rattle.winmd_uses.specs.Earlier.{texts_in};
ghost use Rattle.wr_base.specs.Trees.{member_tree};

use crate::events::put_event;
use crate::methods::put_method;
use crate::properties::put_property;
use kind_rows::{Out, Referred};
use ranked::Memory;
use std::alloc::{AllocError, Global};
use std::collections::BTreeSet;
use wr_base::Member;

fn mark(names: &mut BTreeSet<String>, name: String) -> Result<(), Memory>
    ensures { OnOk result (Updates string_cmp names.old names.new name true) }
{
    match names.insert(name) {
        Ok(_) => Ok(()),
        Err(_) => Err(AllocError),
    }
}

// The name of a method is among the earlier ones from now on.
fn note(alloc: Global, earlier: &mut BTreeSet<String>, member: &Member) -> Result<(), Memory>
    ensures { OnOk result ((other : List ℕ) → contains_text earlier.new other ≡ (list_any (bytes_eq other) (method_names (member_tree member.now)) || contains_text earlier.old other)) }
{
    match member {
        Member::Method { name, .. } => { mark(earlier, String::from_str(alloc, name.as_str())?) }
        _ => Ok(()),
    }
}

/// A member of the last type, behind methods of these names.
pub fn put_member<N: Referred>(
    out: &mut Out,
    names: &N,
    earlier: &BTreeSet<String>,
    member: &Member,
) -> Result<(), Memory>
    ensures { OnOk result (said out.new ≡ with_lines (N.names names.now) (member_lines (texts_in earlier.now) (member_tree member.now)) (said out.old)) }
{
    match member {
        Member::Method { name, abi, sig } => {
            put_method(out, names, name, abi, sig, earlier.contains(name.as_str()))
        }
        Member::Property { name, ty, put } => put_property(out, names, name, ty, *put),
        Member::Event { name, ty } => put_event(out, names, name, ty),
    }
}

/// The members of the last type, in this order.
pub fn put_members<N: Referred>(out: &mut Out, names: &N, members: &[Member]) -> Result<(), Memory>
    ensures { OnOk result (said out.new ≡ with_lines (N.names names.now) (members_lines [] (map member_tree members.now)) (said out.old)) }
{
    let mut earlier = BTreeSet::new(out.alloc);
    for member in members {
        put_member(out, names, &earlier, member)?;
        note(out.alloc, &mut earlier, member)?;
    }
    Ok(())
}
