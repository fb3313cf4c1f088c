//! Constructors that aren't named as their class, and a class's later constructors without parameters.

ghost use Rattle.std.specs.Prelude.{◌≡◌, IfOk, map, drop};
ghost use Rattle.std.specs.List.{filter};
ghost use Rattle.ranked.specs.First.{IsFirst, Among};
ghost use Rattle.midl_tree.specs.Views.{class_member_view};
ghost use Rattle.midl_names.specs.Constructors.{class_members, is_plain, misnamed, doubled};
ghost use Rattle.midl_names.specs.Faults.{Gives};
ghost use Rattle.midl_names.specs.Views.{item_of};

use crate::paths::own_name;
use crate::refuse::refuse;
use crate::scoped::Scoped;
use midl_tree::{ClassMemberNode, DeclNode};
use ranked::earlier;
use std::alloc::Global;
use wr_base::{Code, Memory, Refusal};

fn misnamed(
    alloc: Global,
    item: &Scoped,
    member: &ClassMemberNode,
) -> Result<Option<Refusal>, Memory>
    ensures { IfOk result (λ r. r ≡ misnamed (item_of item.now) (class_member_view member.now)) }
{
    match member {
        ClassMemberNode::Member(..) => Ok(None),
        ClassMemberNode::Constructor(name, _) => {
            if name.as_str() == own_name(item.tree).as_str() {
                return Ok(None);
            }
            let refusal = refuse(
                alloc,
                item,
                name.offset(),
                Code::ConstructorName,
                name.as_str(),
            )?;
            Ok(Some(refusal))
        }
    }
}

fn misnamed_among(
    alloc: Global,
    item: &Scoped,
    members: &[ClassMemberNode],
) -> Result<Option<Refusal>, Memory>
    ensures { IfOk result (IsFirst (Among (map class_member_view members.now) (λ m. Gives (misnamed (item_of item.now) m)))) }
{
    let mut first = None;
    for member in members {
        first = earlier(first, misnamed(alloc, item, member)?);
    }
    Ok(first)
}

/// The first constructor of the item that isn't named as it.
#[tactic(auto, using(ranked::proofs::FirstLaws::none_in))]
pub(crate) fn misnamed_in(alloc: Global, item: &Scoped) -> Result<Option<Refusal>, Memory>
    ensures { IfOk result (IsFirst (Among (class_members (item_of item.now).tree) (λ m. Gives (misnamed (item_of item.now) m)))) }
{
    match item.tree {
        DeclNode::Class(node) => misnamed_among(alloc, item, &node.members),
        DeclNode::Enum(_) => Ok(None),
        DeclNode::Struct(_) => Ok(None),
        DeclNode::Delegate(_) => Ok(None),
        DeclNode::Interface(_) => Ok(None),
    }
}

fn doubled(
    alloc: Global,
    item: &Scoped,
    member: &ClassMemberNode,
) -> Result<Option<Refusal>, Memory>
    ensures { IfOk result (λ r. r ≡ doubled (item_of item.now) (class_member_view member.now)) }
{
    match member {
        ClassMemberNode::Member(..) => Ok(None),
        ClassMemberNode::Constructor(name, _) => {
            let refusal = refuse(
                alloc,
                item,
                name.offset(),
                Code::DoubleConstructor,
                name.as_str(),
            )?;
            Ok(Some(refusal))
        }
    }
}

fn is_plain(member: &ClassMemberNode) -> bool
    ensures { result ≡ is_plain (class_member_view member.now) }
{
    match member {
        ClassMemberNode::Member(..) => false,
        ClassMemberNode::Constructor(_, params) => params.is_empty(),
    }
}

fn plain_of<'a>(
    alloc: Global,
    members: &'a [ClassMemberNode],
) -> Result<Vec<&'a ClassMemberNode>, Memory>
    ensures { IfOk result (λ v. map (λ m. class_member_view m.now) v.items ≡ filter is_plain (map class_member_view members.now)) }
{
    let mut plain = Vec::new(alloc);
    for member in members {
        if is_plain(member) {
            plain.push(member)?;
        }
    }
    Ok(plain)
}

fn doubled_among(
    alloc: Global,
    item: &Scoped,
    members: &[&ClassMemberNode],
) -> Result<Option<Refusal>, Memory>
    ensures { IfOk result (IsFirst (Among (map (λ m. class_member_view m.now) members.now) (λ m. Gives (doubled (item_of item.now) m)))) }
{
    let mut first = None;
    for member in members {
        first = earlier(first, doubled(alloc, item, *member)?);
    }
    Ok(first)
}

fn doubled_behind(
    alloc: Global,
    item: &Scoped,
    members: &[ClassMemberNode],
) -> Result<Option<Refusal>, Memory>
    ensures { IfOk result (IsFirst (Among (drop 1 (filter is_plain (map class_member_view members.now))) (λ m. Gives (doubled (item_of item.now) m)))) }
{
    let plain = plain_of(alloc, members)?;
    match plain.as_slice() {
        [] => Ok(None),
        [_, later @ ..] => doubled_among(alloc, item, later),
    }
}

/// The first of the item's constructors without parameters behind another one.
#[tactic(auto, using(ranked::proofs::FirstLaws::none_in))]
pub(crate) fn doubled_in(alloc: Global, item: &Scoped) -> Result<Option<Refusal>, Memory>
    ensures { IfOk result (IsFirst (Among (drop 1 (filter is_plain (class_members (item_of item.now).tree))) (λ m. Gives (doubled (item_of item.now) m)))) }
{
    match item.tree {
        DeclNode::Class(node) => doubled_behind(alloc, item, &node.members),
        DeclNode::Enum(_) => Ok(None),
        DeclNode::Struct(_) => Ok(None),
        DeclNode::Delegate(_) => Ok(None),
        DeclNode::Interface(_) => Ok(None),
    }
}
