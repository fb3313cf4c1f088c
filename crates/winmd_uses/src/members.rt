//! Members of interfaces.

ghost use Rattle.std.specs.Prelude.{◌≡◌, ◌||◌, [], ℕ, List, OnOk, bytes_eq, map, not, true};
ghost use Rattle.std.specs.List.{list_any};
ghost use Rattle.std.specs.BTreeSet.{Updates, contains_text};
ghost use Rattle.std.specs.String.{string_cmp};
ghost use Rattle.wr_base.specs.Trees.{member_tree, signature_tree, tree_of};
ghost use Rattle.winmd_sets.specs.Members.{members_lines, method_names};
ghost use Rattle.winmd_uses.specs.Earlier.{event_says, member_lines_if, method_lines_if};
ghost use Rattle.winmd_uses.specs.Takes.{Takes, lines_say};

use crate::makers::Maker;
use crate::repeats::{FEW, is_noted, repeats};
use crate::used::Used;
use ranked::{Memory, Name};
use std::alloc::{AllocError, Global};
use std::collections::BTreeSet;
use wr_base::{Member, Signature, TypeUse};

fn mark(names: &mut BTreeSet<String>, name: String) -> Result<(), Memory>
    ensures { OnOk result (Updates string_cmp names.old names.new name true) }
{
    match names.insert(name) {
        Ok(_) => Ok(()),
        Err(_) => Err(AllocError),
    }
}

// The name of a method is among the earlier ones from now on.
fn note(alloc: Global, earlier: &mut BTreeSet<String>, member: &Member) -> Result<(), Memory>
    ensures { OnOk result ((other : List ℕ) → contains_text earlier.new other ≡ (list_any (bytes_eq other) (method_names (member_tree member.now)) || contains_text earlier.old other)) }
{
    match member {
        Member::Method { name, .. } => { mark(earlier, String::from_str(alloc, name.as_str())?) }
        _ => Ok(()),
    }
}

// Whether a method has an Overload attribute: its name isn't that of its slot, or was there before.
fn has_overload(name: &Name, abi: &Name, repeated: bool) -> bool
    ensures { result ≡ (not (bytes_eq abi.now name.now) || repeated) }
{
    *abi != *name || repeated
}

impl Used<'_> {
    fn take_method(
        &mut self,
        name: &Name,
        abi: &Name,
        sig: &Signature,
        repeated: bool,
    ) -> Result<(), Memory>
        ensures { OnOk result (Takes (lines_say (method_lines_if repeated name.now abi.now (signature_tree sig.now))) self.old self.new) }
    {
        self.take_signature(sig)?;
        self.take_maker_if(has_overload(name, abi, repeated), Maker::Overload)
    }

    fn take_event(&mut self, ty: &TypeUse) -> Result<(), Memory>
        ensures { OnOk result (Takes (event_says (tree_of ty.now)) self.old self.new) }
    {
        self.take_cell(ty)?;
        self.take_use(ty)?;
        self.take_name("Windows.Foundation.EventRegistrationToken")
    }

    fn take_member(&mut self, member: &Member, repeated: bool) -> Result<(), Memory>
        ensures { OnOk result (Takes (lines_say (member_lines_if repeated (member_tree member.now))) self.old self.new) }
    {
        match member {
            Member::Method { name, abi, sig } => self.take_method(name, abi, sig, repeated),
            Member::Property { ty, .. } => self.take_use(ty),
            Member::Event { ty, .. } => self.take_event(ty),
        }
    }

    fn take_few(&mut self, members: &[Member]) -> Result<(), Memory>
        ensures { OnOk result (Takes (lines_say (members_lines [] (map member_tree members.now))) self.old self.new) }
    {
        for i in 0..members.len() {
            let member = &members[i];
            self.take_member(member, repeats(&members[..i], member))?;
        }
        Ok(())
    }

    fn take_many(&mut self, members: &[Member]) -> Result<(), Memory>
        ensures { OnOk result (Takes (lines_say (members_lines [] (map member_tree members.now))) self.old self.new) }
    {
        let mut earlier = BTreeSet::new(self.alloc);
        for member in members {
            self.take_member(member, is_noted(&earlier, member))?;
            note(self.alloc, &mut earlier, member)?;
        }
        Ok(())
    }

    pub(crate) fn take_members(&mut self, members: &[Member]) -> Result<(), Memory>
        ensures { OnOk result (Takes (lines_say (members_lines [] (map member_tree members.now))) self.old self.new) }
    {
        if members.len() <= FEW {
            self.take_few(members)
        } else {
            self.take_many(members)
        }
    }
}
