//! Methods by name and number of parameters.

ghost use Rattle.std.specs.Prelude.{◌≡◌, ◌++◌, ◌∷◌, [], IfOk, OnOk, map, string_bytes};
ghost use Rattle.std.specs.List.{filter_map};
ghost use Rattle.wr_rules.specs.Members.{members_at};
ghost use Rattle.wr_base.specs.Lower.{lower};
ghost use Rattle.wr_rules.specs.MemberRules.{overload_of};
ghost use Rattle.placed_sites.specs.Views.{site_view};
ghost use Rattle.member_rules.specs.Overloads.{ones, key_of, overload_view};

use placed_sites::{Site, Spot};
use site_parts::{Standing, members_at};
use std::alloc::{AllocError, Global};
use wr_base::{Member, Name, lowered};

/// A method's name, with how many parameters it has.
#[derive(Clone, Copy, Debug)]
pub(crate) struct Overload<'a> {
    pub(crate) count: usize,
    pub(crate) name: &'a Name,
    pub(crate) spot: Spot<'a>,
}

#[tactic(auto, using(crate::proofs::Keys::one_more))]
fn ones(alloc: Global, count: usize) -> Result<String, AllocError>
    ensures { IfOk result (λ text. string_bytes text ≡ ones count) }
{
    let mut text = String::new(alloc);
    for _i in 0..count {
        text.push_str("1")?;
    }
    Ok(text)
}

/// A text that only overloads of one number of parameters and of one name, but for ASCII case, have: a digit for each
/// parameter, another one, and the name in lower case.
pub(crate) fn key_of(alloc: Global, overload: &Overload) -> Result<String, AllocError>
    ensures { IfOk result (λ text. string_bytes text ≡ key_of overload.now.count (lower overload.now.name.now)) }
{
    let mut text = ones(alloc, overload.count)?;
    let name = lowered(alloc, overload.name.as_str())?;
    text.push_str("0")?;
    text.push_str(name.as_str())?;
    Ok(text)
}

fn push<'a>(list: &mut Vec<Overload<'a>>, overload: Overload<'a>) -> Result<(), AllocError>
    ensures { OnOk result (map overload_view list.new.items ≡ map overload_view list.old.items ++ overload_view overload.entry ∷ []) }
{
    list.push(overload)?;
    Ok(())
}

fn push_member<'a>(
    list: &mut Vec<Overload<'a>>,
    member: &Standing<'a, Member>,
) -> Result<(), AllocError>
    ensures { OnOk result (map overload_view list.new.items ≡ map overload_view list.old.items ++ filter_map overload_of (member.now ∷ [])) }
{
    match member.part() {
        Member::Method { name, sig, .. } => {
            let overload = Overload {
                count: sig.params.len(),
                name,
                spot: member.spot(),
            };
            push(list, overload)
        }
        Member::Property { .. } => Ok(()),
        Member::Event { .. } => Ok(()),
    }
}

fn overloads_of<'a>(
    alloc: Global,
    members: &[Standing<'a, Member>],
) -> Result<Vec<Overload<'a>>, AllocError>
    ensures { IfOk result (λ list. map overload_view list.items ≡ filter_map overload_of members.now) }
{
    let mut list = Vec::new(alloc);
    for member in members {
        push_member(&mut list, member)?;
    }
    Ok(list)
}

/// The methods of an interface.
pub(crate) fn overloads_at<'a>(
    alloc: Global,
    site: &Site<'a>,
) -> Result<Vec<Overload<'a>>, AllocError>
    ensures { IfOk result (λ list. map overload_view list.items ≡ filter_map overload_of (members_at (site_view site.now))) }
{
    let members = members_at(alloc, site)?;
    overloads_of(alloc, members.as_slice())
}
