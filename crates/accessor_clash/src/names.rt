//! The ABI names of members, in lower case, as names that are counted.

ghost use Rattle.std.specs.Prelude.{◌≡◌, ◌&&◌, ◌++◌, ℕ, List, IfOk, IsSomeAnd, string_bytes};
ghost use Rattle.std.specs.Option.{option_map};
ghost use Rattle.std.specs.Str.{bytes_eq};
ghost use Rattle.wr_base.specs.Lower.{lower};
ghost use Rattle.member_counts.specs.Tallies.{has_text};
ghost use Rattle.accessor_clash.specs.AbiCounts.{first_abi, second_abi};

use member_counts::Counted;
use site_parts::Standing;
use std::alloc::{AllocError, Global};
use wr_base::{Member, lowered};

// The accessor of this kind.
fn accessor(alloc: Global, kind: &str, name: &str) -> Result<String, AllocError>
    ensures { IfOk result (λ text. string_bytes text ≡ lower (kind.now ++ name.now)) }
{
    let mut text = String::from_str(alloc, kind)?;
    text.push_str(name)?;
    text.make_ascii_lowercase();
    Ok(text)
}

/// The first ABI name of a member.
pub(crate) fn first_abi(alloc: Global, member: &Member) -> Result<String, AllocError>
    ensures { IfOk result (λ text. string_bytes text ≡ lower (first_abi member.now)) }
{
    match member {
        Member::Method { abi, .. } => lowered(alloc, abi.as_str()),
        Member::Property { name, .. } => accessor(alloc, "get_", name.as_str()),
        Member::Event { name, .. } => accessor(alloc, "add_", name.as_str()),
    }
}

fn some_accessor(alloc: Global, kind: &str, name: &str) -> Result<Option<String>, AllocError>
    ensures { IfOk result (λ r. IsSomeAnd r (λ text. string_bytes text ≡ lower (kind.now ++ name.now))) }
{
    let text = accessor(alloc, kind, name)?;
    Ok(Some(text))
}

/// The second one, where it has two.
pub(crate) fn second_abi(alloc: Global, member: &Member) -> Result<Option<String>, AllocError>
    ensures { IfOk result (λ r. option_map string_bytes r ≡ option_map lower (second_abi member.now)) }
{
    match member {
        Member::Method { .. } => Ok(None),
        Member::Property { put: false, .. } => Ok(None),
        Member::Property {
            name,
            put: true,
            ..
        } => some_accessor(alloc, "put_", name.as_str()),
        Member::Event { name, .. } => some_accessor(alloc, "remove_", name.as_str()),
    }
}

/// Each member by its first ABI name.
pub(crate) struct First;

impl Counted for First {
    ghost use Rattle.std.specs.Str.{bytes_eq};
    ghost use Rattle.wr_base.specs.Lower.{lower};
    ghost use Rattle.accessor_clash.specs.AbiCounts.{first_abi};

    ghost has = { λ _ m text. bytes_eq (lower (first_abi m.part)) text };

    fn name(&self, alloc: Global, member: &Standing<Member>) -> Result<Option<String>, AllocError> {
        let text = first_abi(alloc, member.part())?;
        Ok(Some(text))
    }
}

/// Members that have two ABI names by the second.
pub(crate) struct Second;

impl Counted for Second {
    ghost use Rattle.accessor_clash.specs.AbiCounts.{second_abi, is_lower};

    ghost has = { λ _ m text. is_lower (second_abi m.part) text };

    fn name(&self, alloc: Global, member: &Standing<Member>) -> Result<Option<String>, AllocError> {
        second_abi(alloc, member.part())
    }
}

// The name, where it is the ABI name too.
fn own_name(alloc: Global, name: &str, abi: &str) -> Result<Option<String>, AllocError>
    ensures { IfOk result (λ r. (text : List ℕ) → has_text r text ≡ (bytes_eq (lower abi.now) (lower name.now) && bytes_eq (lower name.now) text)) }
{
    let text = lowered(alloc, name)?;
    let abi = lowered(alloc, abi)?;
    if abi.as_str() == text.as_str() {
        Ok(Some(text))
    } else {
        Ok(None)
    }
}

/// Methods whose ABI name is their name, by that.
pub(crate) struct Own;

impl Counted for Own {
    ghost use Rattle.std.specs.Prelude.{◌&&◌};
    ghost use Rattle.std.specs.Str.{bytes_eq};
    ghost use Rattle.wr_rules.specs.Members.{member_name};
    ghost use Rattle.wr_base.specs.Lower.{lower};
    ghost use Rattle.accessor_clash.specs.AbiCounts.{is_own};

    ghost has = { λ _ m text. is_own m.part && bytes_eq (lower (member_name m.part)) text };

    fn name(&self, alloc: Global, member: &Standing<Member>) -> Result<Option<String>, AllocError> {
        match member.part() {
            Member::Method { name, abi, .. } => own_name(alloc, name.as_str(), abi.as_str()),
            Member::Property { .. } => Ok(None),
            Member::Event { .. } => Ok(None),
        }
    }
}
