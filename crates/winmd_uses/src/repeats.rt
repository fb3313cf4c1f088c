//! Methods whose name was there before.

ghost use Rattle.std.specs.Prelude.{◌≡◌, [], bytes_eq, map};
ghost use Rattle.std.specs.List.{list_any};
ghost use Rattle.wr_base.specs.Trees.{member_tree};
ghost use Rattle.winmd_sets.specs.Members.{method_names};
ghost use Rattle.winmd_uses.specs.Earlier.{is_repeat, names_after, texts_in};

use ranked::Name;
use std::collections::BTreeSet;
use wr_base::Member;

/// So many members are compared in pairs, and more of them by a set of names.
pub(crate) const FEW: usize = 16;

fn is_method(member: &Member, name: &Name) -> bool
    ensures { result ≡ list_any (bytes_eq name.now) (method_names (member_tree member.now)) }
{
    match member {
        Member::Method { name: other, .. } => *name == *other,
        _ => false,
    }
}

fn any_method(members: &[Member], name: &Name) -> bool
    ensures { result ≡ list_any (λ m. list_any (bytes_eq name.now) (method_names (member_tree m))) members.now }
{
    members.iter().any(|member| is_method(member, name))
}

/// Whether a member is a method of the name of one of these.
pub(crate) fn repeats(earlier: &[Member], member: &Member) -> bool
    ensures { result ≡ is_repeat (names_after [] (map member_tree earlier.now)) (member_tree member.now) }
{
    match member {
        Member::Method { name, .. } => any_method(earlier, name),
        _ => false,
    }
}

/// Whether a member is a method of one of these names.
pub(crate) fn is_noted(earlier: &BTreeSet<String>, member: &Member) -> bool
    ensures { result ≡ is_repeat (texts_in earlier.now) (member_tree member.now) }
{
    match member {
        Member::Method { name, .. } => earlier.contains(name.as_str()),
        _ => false,
    }
}
