//! Two members that clash, by their ABI names and names.

ghost use Rattle.std.specs.Prelude.{◌≡◌};
ghost use Rattle.wr_rules.specs.Members.{abi_names};
ghost use Rattle.wr_rules.specs.MemberRules.{has_name, shares_abi, takes_abi};
ghost use Rattle.accessor_clash.specs.AbiCounts.{first_abi, second_abi};

use crate::joined::{Joined, is_same};
use member_counts::{Relation, same_but_for_case};
use site_parts::Titled;
use wr_base::Member;

// The first ABI name of a member.
fn first_of<'a>(member: &'a Member) -> Joined<'a>
    ensures { result ≡ first_abi member.now }
{
    match member {
        Member::Method { abi, .. } => Joined::whole(abi.as_str()),
        Member::Property { name, .. } => Joined::new("get_", name.as_str()),
        Member::Event { name, .. } => Joined::new("add_", name.as_str()),
    }
}

// The second one, where it has two.
fn second_of<'a>(member: &'a Member) -> Option<Joined<'a>>
    ensures { result ≡ second_abi member.now }
{
    match member {
        Member::Method { .. } => None,
        Member::Property { put: false, .. } => None,
        Member::Property {
            name,
            put: true,
            ..
        } => Some(Joined::new("put_", name.as_str())),
        Member::Event { name, .. } => Some(Joined::new("remove_", name.as_str())),
    }
}

// Whether an ABI name of the member is this text but for case.
fn has_name(member: &Member, text: &Joined) -> bool
    ensures { result ≡ has_name (abi_names member.now) text.now }
{
    if is_same(&first_of(member), text) {
        return true;
    }
    match second_of(member) {
        None => false,
        Some(second) => is_same(&second, text),
    }
}

// Whether two members share an ABI name.
fn shares_abi(one: &Member, other: &Member) -> bool
    ensures { result ≡ shares_abi one.now other.now }
{
    if has_name(other, &first_of(one)) {
        return true;
    }
    match second_of(one) {
        None => false,
        Some(second) => has_name(other, &second),
    }
}

// Whether the name of one of two members that are named apart is an ABI name of the other.
fn takes_abi(one: &Member, other: &Member) -> bool
    ensures { result ≡ takes_abi one.now other.now }
{
    let name = one.title().as_str();
    let another = other.title().as_str();
    !same_but_for_case(name, another)
        && (has_name(other, &Joined::whole(name)) || has_name(one, &Joined::whole(another)))
}

/// Members that share an ABI name, or of which one's name is an ABI name of the other.
pub(crate) struct Clashes;

impl Relation for Clashes {
    ghost use Rattle.std.specs.Prelude.{◌||◌};
    ghost use Rattle.wr_rules.specs.MemberRules.{shares_abi, takes_abi};

    ghost holds = { λ _ a b. shares_abi a b || takes_abi a b };

    fn relates(&self, one: &Member, other: &Member) -> bool {
        shares_abi(one, other) || takes_abi(one, other)
    }
}
