//! Attributes that a declaration doesn't take, that stand a second time, or whose argument is wrong.

ghost use Rattle.std.specs.Prelude.{◌≡◌, ℕ, List, true, IfOk, OnOk, Some, None, if◌then◌else◌};
ghost use Rattle.std.specs.BTreeSet.{contains_text};
ghost use Rattle.std.specs.Str.{bytes_eq};
ghost use Rattle.std.specs.Option.{is_some};
ghost use Rattle.ranked.specs.First.{IsFirst, Among};
ghost use Rattle.ranked.specs.Repeats.{Repeated};
ghost use Rattle.midl_tree.specs.Views.{attribute_view, decl_view};
ghost use Rattle.midl_names.specs.Attributes.{word_of, called, hyphenated, id_bytes, takes, holds, attribute_entry, unfit};
ghost use Rattle.midl_names.specs.Faults.{Gives};
ghost use Rattle.midl_names.specs.Views.{item_of};

use crate::refuse::refuse;
use crate::scoped::Scoped;
use midl_tree::{AttributeNode, DeclNode, Terminal};
use ranked::earlier;
use std::alloc::Global;
use std::collections::BTreeSet;
use uuid::Uuid;
use wr_base::{Code, Memory, Refusal};

fn word_of(attribute: &AttributeNode) -> &Terminal
    ensures { result.now ≡ word_of (attribute_view attribute.now) }
{
    match attribute {
        AttributeNode::Uuid(word, _) => word,
        AttributeNode::Version(word, _) => word,
        AttributeNode::Flags(word) => word,
        AttributeNode::DefaultInterface(word) => word,
    }
}

fn called(attribute: &AttributeNode) -> &'static str
    ensures { result.now ≡ called (attribute_view attribute.now) }
{
    match attribute {
        AttributeNode::Uuid(..) => "uuid",
        AttributeNode::Version(..) => "version",
        AttributeNode::Flags(_) => "flags",
        AttributeNode::DefaultInterface(_) => "default_interface",
    }
}

#[tactic(auto, unfolding(crate::specs::Attributes::hyphenated))]
fn hyphenated(text: &[u8]) -> Option<Uuid>
    ensures { result ≡ hyphenated text.now }
{
    if text.len() != 36 {
        return None;
    }
    match Uuid::try_parse_ascii(text) {
        Ok(id) => Some(id),
        Err(_) => None,
    }
}

/// The id that a text stands for, bare or in quotes.
pub(crate) fn id_of(text: &[u8]) -> Option<Uuid>
    ensures { result ≡ id_bytes text.now }
{
    if text.len() == 38 {
        hyphenated(&text[1..37])
    } else {
        hyphenated(text)
    }
}

fn takes(tree: &DeclNode, attribute: &AttributeNode) -> bool
    ensures { result ≡ takes (decl_view tree.now) (attribute_view attribute.now) }
{
    match attribute {
        AttributeNode::Version(..) => true,
        AttributeNode::Uuid(..) => matches!(tree, DeclNode::Interface(_) | DeclNode::Delegate(_)),
        AttributeNode::Flags(_) => matches!(tree, DeclNode::Enum(_)),
        AttributeNode::DefaultInterface(_) => matches!(tree, DeclNode::Class(_)),
    }
}

fn holds(attribute: &AttributeNode) -> bool
    ensures { result ≡ holds (attribute_view attribute.now) }
{
    match attribute {
        AttributeNode::Uuid(_, id) => id_of(id.as_str().as_bytes()).is_some(),
        AttributeNode::Version(_, number) => {
            let value = number.value();
            0 < value && value < 4294967296
        }
        AttributeNode::Flags(_) => true,
        AttributeNode::DefaultInterface(_) => true,
    }
}

fn refuse_if(
    alloc: Global,
    item: &Scoped,
    attribute: &AttributeNode,
    broken: bool,
) -> Result<Option<Refusal>, Memory>
    ensures { IfOk result (λ r. r ≡ (if broken then Some (attribute_entry (item_of item.now) (attribute_view attribute.now)) else None)) }
{
    if !broken {
        return Ok(None);
    }
    let word = word_of(attribute);
    let refusal = refuse(
        alloc,
        item,
        word.offset(),
        Code::BadAttribute,
        word.as_str(),
    )?;
    Ok(Some(refusal))
}

fn unfit(alloc: Global, item: &Scoped, attribute: &AttributeNode) -> Result<Option<Refusal>, Memory>
    ensures { IfOk result (λ r. r ≡ unfit (item_of item.now) (attribute_view attribute.now)) }
{
    let broken = !(takes(item.tree, attribute) && holds(attribute));
    refuse_if(alloc, item, attribute, broken)
}

/// The first of the item's attributes that it doesn't take, or whose argument is wrong.
pub(crate) fn unfits(alloc: Global, item: &Scoped) -> Result<Option<Refusal>, Memory>
    ensures { IfOk result (IsFirst (Among (item_of item.now).attributes (λ a. Gives (unfit (item_of item.now) a)))) }
{
    let mut first = None;
    for attribute in &item.attributes {
        first = earlier(first, unfit(alloc, item, *attribute)?);
    }
    Ok(first)
}

/// The attribute, where one of its name was seen; its name is then seen.
fn seen_again(
    alloc: Global,
    seen: &mut BTreeSet<String>,
    item: &Scoped,
    attribute: &AttributeNode,
) -> Result<Option<Refusal>, Memory>
    ensures again { IfOk result (λ r. r ≡ (if contains_text seen.old (called (attribute_view attribute.now)) then Some (attribute_entry (item_of item.now) (attribute_view attribute.now)) else None)) }
    ensures seen { OnOk result ((name : List ℕ) → contains_text seen.new name ≡ (if bytes_eq (called (attribute_view attribute.now)) name then true else contains_text seen.old name)) }
{
    let name = String::from_str(alloc, called(attribute))?;
    let added = seen.insert(name)?;
    let broken = refuse_if(alloc, item, attribute, !added)?;
    Ok(broken)
}

/// The first of the item's attributes that stand a second time.
#[tactic(auto, using(ranked::proofs::FirstLaws::none_below, ranked::proofs::RepeatLaws::none_seen))]
pub(crate) fn repeated(alloc: Global, item: &Scoped) -> Result<Option<Refusal>, Memory>
    ensures { IfOk result (IsFirst (Repeated called (attribute_entry (item_of item.now)) (item_of item.now).attributes)) }
{
    let mut seen = BTreeSet::new(alloc);
    let mut first = None;
    for attribute in &item.attributes {
        let again = seen_again(alloc, &mut seen, item, *attribute)?;
        first = earlier(first, again);
    }
    Ok(first)
}
