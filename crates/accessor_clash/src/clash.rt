//! Members that share an ABI name, or of which one's name is an ABI name of the other.

ghost use Rattle.std.specs.Prelude.{◌≡◌, ◌||◌, IfOk, string_bytes};
ghost use Rattle.std.specs.List.{list_any};
ghost use Rattle.std.specs.Option.{option_map};
ghost use Rattle.ranked.specs.First.{IsFirst};
ghost use Rattle.wr_base.specs.declared.code.Code.TheVariants.{AccessorClash as clash_code};
ghost use Rattle.wr_rules.specs.Members.{abi_names};
ghost use Rattle.wr_base.specs.Lower.{lower};
ghost use Rattle.wr_rules.specs.MemberRules.{EachPaired, shares_abi, takes_abi};
ghost use Rattle.member_counts.specs.Tallies.{count_at};
ghost use Rattle.accessor_clash.specs.AbiCounts.{abi_count, first_abi, second_abi, is_shared, some_passes, clash_by};

use crate::names::{first_abi, second_abi};
use crate::pairs::Clashes;
use crate::tallies::{AbiTallies, is_shared, is_taken, tallies_of};
use member_counts::{FEW, first_paired};
use placed_sites::{Site, SiteRule, refuse_if};
use site_parts::{ItemRule, Standing, Titled, first_among, members_at};
use std::alloc::{AllocError, Global};
use wr_base::{Code, Member, Refusal, lowered};

fn first_shared(
    alloc: Global,
    tallies: &AbiTallies,
    member: &Member,
    own: &str,
) -> Result<bool, AllocError>
    ensures { IfOk result (λ b. b ≡ is_shared (abi_count tallies.now.abis) (count_at tallies.now.names.named) own.now (lower (first_abi member.now))) }
{
    let text = first_abi(alloc, member)?;
    Ok(is_shared(tallies, own, text.as_str()))
}

fn some_shared(tallies: &AbiTallies, own: &str, text: &Option<String>) -> bool
    ensures { result ≡ some_passes (is_shared (abi_count tallies.now.abis) (count_at tallies.now.names.named) own.now) (option_map string_bytes text.now) }
{
    match text {
        None => false,
        Some(text) => is_shared(tallies, own, text.as_str()),
    }
}

fn second_shared(
    alloc: Global,
    tallies: &AbiTallies,
    member: &Member,
    own: &str,
) -> Result<bool, AllocError>
    ensures { IfOk result (λ b. b ≡ some_passes (is_shared (abi_count tallies.now.abis) (count_at tallies.now.names.named) own.now) (option_map lower (second_abi member.now))) }
{
    let text = second_abi(alloc, member)?;
    Ok(some_shared(tallies, own, &text))
}

// Whether an ABI name of the member is shared.
#[tactic(auto, using(crate::proofs::Pieces::each_shared))]
fn abi_shared(
    alloc: Global,
    tallies: &AbiTallies,
    member: &Member,
    own: &str,
) -> Result<bool, AllocError>
    ensures { IfOk result (λ b. b ≡ list_any (λ n. is_shared (abi_count tallies.now.abis) (count_at tallies.now.names.named) own.now (lower n)) (abi_names member.now)) }
{
    let first = first_shared(alloc, tallies, member, own)?;
    let second = second_shared(alloc, tallies, member, own)?;
    Ok(first || second)
}

fn is_clash(alloc: Global, tallies: &AbiTallies, member: &Member) -> Result<bool, AllocError>
    ensures { IfOk result (λ b. b ≡ clash_by (abi_count tallies.now.abis) (count_at tallies.now.names.named) (count_at tallies.now.names.owns) member.now) }
{
    let own = lowered(alloc, member.title().as_str())?;
    let shared = abi_shared(alloc, tallies, member, own.as_str())?;
    Ok(shared || is_taken(tallies, own.as_str()))
}

impl<'a> ItemRule<Standing<'a, Member>> for AbiTallies {
    ghost use Rattle.std.specs.Prelude.{IsTrue};
    ghost use Rattle.ranked.specs.First.{Only};
    ghost use Rattle.wr_base.specs.declared.code.Code.TheVariants.{AccessorClash as clash_code};
    ghost use Rattle.wr_rules.specs.Sites.{broken_at};
    ghost use Rattle.member_counts.specs.Tallies.{count_at};
    ghost use Rattle.accessor_clash.specs.AbiCounts.{abi_count, clash_by};

    ghost broken = { λ t m. Only (IsTrue (clash_by (abi_count t.abis) (count_at t.names.named) (count_at t.names.owns) m.part)) (broken_at clash_code m.spot) };

    fn first_at(
        &self,
        alloc: Global,
        item: &Standing<'a, Member>,
    ) -> Result<Option<Refusal>, AllocError> {
        let broken = is_clash(alloc, self, item.part())?;
        refuse_if(alloc, &item.spot(), broken, Code::AccessorClash)
    }
}

fn first_counted(alloc: Global, members: &[Standing<Member>]) -> Result<Option<Refusal>, AllocError>
    ensures { IfOk result (IsFirst (EachPaired clash_code (λ a b. shares_abi a b || takes_abi a b) members.now)) }
{
    let tallies = tallies_of(alloc, members)?;
    first_among(alloc, &tallies, members)
}

fn first_clash(alloc: Global, members: &[Standing<Member>]) -> Result<Option<Refusal>, AllocError>
    ensures { IfOk result (IsFirst (EachPaired clash_code (λ a b. shares_abi a b || takes_abi a b) members.now)) }
{
    if members.len() <= FEW {
        first_paired(alloc, &Clashes, Code::AccessorClash, members)
    } else {
        first_counted(alloc, members)
    }
}

/// Refuses each member that has an ABI name that another member has too, or that is the name of a member of another
/// name, and each whose name is an ABI name of a member of another name; all but for ASCII case. ABI names are a
/// method's own, and the accessors `get_` and `put_` of a property and `add_` and `remove_` of an event.
#[derive(Clone, Copy, Debug)]
pub struct AccessorClash;

impl SiteRule for AccessorClash {
    ghost use Rattle.wr_rules.specs.MemberRules.{IsAccessorClash};

    ghost broken = { λ _. IsAccessorClash };

    fn first_at(&self, alloc: Global, site: &Site) -> Result<Option<Refusal>, AllocError> {
        let members = members_at(alloc, site)?;
        first_clash(alloc, members.as_slice())
    }
}
