//! Members of interfaces and classes.

ghost use Rattle.std.specs.Prelude.{◌≡◌, ◌∷◌, [], map, option_map, Some, None, false, true};
ghost use Rattle.grammar.specs.Readers.{starts, many_at, after_front, either_at, optional_at, bar_at};
ghost use Rattle.midl_tree.specs.declared.kind.Kind.TheVariants.{Requires, Namespace, Get, Comma, Dot, Out, Void, Event, Static, Text, Base, Float, OpenBracket, Import, Guid};
ghost use Rattle.midl_tree.specs.Kinds.{number_of, names, no_attributes};
ghost use Rattle.midl_tree.specs.Symbols.{kind_of};
ghost use Rattle.midl_words.specs.Reading.{Gives};
ghost use Rattle.midl_parse.specs.ReadTypes.{base_at, args_at};
ghost use Rattle.midl_parse.specs.ReadMembers.{set_end_at, get_first_at, set_first_at, accessors_at, method_at, property_at, properties_at, typed_at, void_member_at, event_at, typed_member_at, member_at, required_at, body_at, interface_at};
ghost use Rattle.midl_tree.specs.Views.{type_view, types_view, member_view, interface_view};

use crate::lists::more_names;
use crate::signatures::params_of;
use crate::types::{or_none, type_of, types_of};
use midl_tree::{Ident, InterfaceNode, Kind, MemberNode, Terminal, TypeNode};
use midl_words::{Stop, begins, take, take_if, take_name, take_own_name};
use std::alloc::Global;

fn begins_member(tokens: &[Terminal]) -> bool
    ensures { result ≡ starts kind_of (number_of Void ∷ number_of Event ∷ names) tokens.now }
{
    match tokens {
        [] => false,
        [token, ..] => token.kind().begins_member(),
    }
}

#[tactic(auto, unfolding(crate::specs::ReadMembers::get_first_at, crate::specs::ReadMembers::set_end_at))]
fn get_first(_depth: u32, tokens: &[Terminal]) -> Result<(bool, &[Terminal]), Stop>
    ensures { Gives (λ x. (x.0, x.1.now)) result (get_first_at base_at (args_at _depth) tokens.now) }
{
    let (_, rest) = take(tokens, Kind::Get)?;
    let (_, rest) = take(rest, Kind::Semicolon)?;
    if begins(rest, Kind::Set) {
        let (_, rest) = take(rest, Kind::Set)?;
        let (_, rest) = take(rest, Kind::Semicolon)?;
        return Ok((true, rest));
    }
    Ok((false, rest))
}

#[tactic(auto, unfolding(crate::specs::ReadMembers::set_first_at))]
fn set_first(_depth: u32, tokens: &[Terminal]) -> Result<(bool, &[Terminal]), Stop>
    ensures { Gives (λ x. (x.0, x.1.now)) result (set_first_at base_at (args_at _depth) tokens.now) }
{
    let (_, rest) = take(tokens, Kind::Set)?;
    let (_, rest) = take(rest, Kind::Semicolon)?;
    let (_, rest) = take(rest, Kind::Get)?;
    let (_, rest) = take(rest, Kind::Semicolon)?;
    Ok((true, rest))
}

fn get_or_set(depth: u32, tokens: &[Terminal]) -> Result<(bool, &[Terminal]), Stop>
    ensures { Gives (λ x. (x.0, x.1.now)) result (either_at kind_of (number_of Get ∷ []) (get_first_at base_at (args_at depth)) (set_first_at base_at (args_at depth)) tokens.now) }
{
    if begins(tokens, Kind::Get) {
        return get_first(depth, tokens);
    }
    set_first(depth, tokens)
}

#[tactic(auto, unfolding(crate::specs::ReadMembers::accessors_at))]
fn accessors_of(depth: u32, tokens: &[Terminal]) -> Result<(bool, &[Terminal]), Stop>
    ensures { Gives (λ x. (x.0, x.1.now)) result (accessors_at base_at (args_at depth) tokens.now) }
{
    let (_, rest) = take(tokens, Kind::OpenBrace)?;
    let (put, rest) = get_or_set(depth, rest)?;
    let (_, rest) = take(rest, Kind::CloseBrace)?;
    let (_, rest) = take_if(rest, Kind::Semicolon);
    Ok((put, rest))
}

#[tactic(auto, unfolding(crate::specs::ReadMembers::method_at))]
fn method_of(
    alloc: Global,
    depth: u32,
    outcome: Option<TypeNode>,
    name: Ident,
    tokens: &[Terminal],
) -> Result<(MemberNode, &[Terminal]), Stop>
    ensures { Gives (λ x. (member_view x.0, x.1.now)) result (method_at base_at (args_at depth) (option_map type_view outcome) name tokens.entry.now) }
{
    let (params, rest) = params_of(alloc, depth, tokens)?;
    Ok((MemberNode::Method(outcome, name, params), rest))
}

#[tactic(auto, unfolding(crate::specs::ReadMembers::property_at))]
fn property_of(
    depth: u32,
    kind: TypeNode,
    name: Ident,
    tokens: &[Terminal],
) -> Result<(MemberNode, &[Terminal]), Stop>
    ensures { Gives (λ x. (member_view x.0, x.1.now)) result (property_at base_at (args_at depth) (type_view kind) name tokens.entry.now) }
{
    let (put, rest) = accessors_of(depth, tokens)?;
    Ok((MemberNode::Property(kind, name, put), rest))
}

#[tactic(auto, unfolding(crate::specs::ReadMembers::properties_at))]
fn properties_of(
    alloc: Global,
    _depth: u32,
    kind: TypeNode,
    name: Ident,
    tokens: &[Terminal],
) -> Result<(MemberNode, &[Terminal]), Stop>
    ensures { Gives (λ x. (member_view x.0, x.1.now)) result (properties_at base_at (args_at _depth) (type_view kind) name tokens.entry.now) }
{
    let mut names = Vec::new(alloc);
    names.push(name)?;
    let (names, rest) = more_names(names, tokens)?;
    let (_, rest) = take(rest, Kind::Semicolon)?;
    Ok((MemberNode::Properties(kind, names), rest))
}

#[tactic(auto, unfolding(crate::specs::ReadMembers::typed_at))]
pub(crate) fn typed_of(
    alloc: Global,
    depth: u32,
    kind: TypeNode,
    tokens: &[Terminal],
) -> Result<(MemberNode, &[Terminal]), Stop>
    ensures { Gives (λ x. (member_view x.0, x.1.now)) result (typed_at base_at (args_at depth) (type_view kind) tokens.entry.now) }
{
    let (name, rest) = take_name(tokens)?;
    if begins(rest, Kind::OpenParen) {
        return method_of(alloc, depth, Some(kind), name, rest);
    }
    if begins(rest, Kind::OpenBrace) {
        return property_of(depth, kind, name, rest);
    }
    properties_of(alloc, depth, kind, name, rest)
}

#[tactic(auto, unfolding(crate::specs::ReadMembers::void_member_at))]
pub(crate) fn void_member_of(
    alloc: Global,
    depth: u32,
    tokens: &[Terminal],
) -> Result<(MemberNode, &[Terminal]), Stop>
    ensures { Gives (λ x. (member_view x.0, x.1.now)) result (void_member_at base_at (args_at depth) tokens.now) }
{
    let (_, rest) = take(tokens, Kind::Void)?;
    let (name, rest) = take_name(rest)?;
    method_of(alloc, depth, None, name, rest)
}

#[tactic(auto, unfolding(crate::specs::ReadMembers::event_at))]
pub(crate) fn event_of(
    alloc: Global,
    depth: u32,
    tokens: &[Terminal],
) -> Result<(MemberNode, &[Terminal]), Stop>
    ensures { Gives (λ x. (member_view x.0, x.1.now)) result (event_at base_at (args_at depth) tokens.now) }
{
    let (_, rest) = take(tokens, Kind::Event)?;
    let (kind, rest) = type_of(alloc, depth, rest)?;
    let (name, rest) = take_name(rest)?;
    let (_, rest) = take(rest, Kind::Semicolon)?;
    Ok((MemberNode::Event(kind, name), rest))
}

#[tactic(auto, unfolding(crate::specs::ReadMembers::member_at, crate::specs::ReadMembers::typed_member_at))]
pub(crate) fn member_of(
    alloc: Global,
    depth: u32,
    tokens: &[Terminal],
) -> Result<(MemberNode, &[Terminal]), Stop>
    ensures { Gives (λ x. (member_view x.0, x.1.now)) result (member_at base_at (args_at depth) tokens.now) }
{
    if begins(tokens, Kind::Void) {
        return void_member_of(alloc, depth, tokens);
    }
    if begins(tokens, Kind::Event) {
        return event_of(alloc, depth, tokens);
    }
    let (kind, rest) = type_of(alloc, depth, tokens)?;
    typed_of(alloc, depth, kind, rest)
}

fn members_of(
    alloc: Global,
    depth: u32,
    tokens: &[Terminal],
) -> Result<(Vec<MemberNode>, &[Terminal]), Stop>
    ensures { Gives (λ x. (map member_view x.0.items, x.1.now)) result (many_at kind_of (number_of Void ∷ number_of Event ∷ names) (member_at base_at (args_at depth)) tokens.entry.now) }
{
    let mut members = Vec::new(alloc);
    let mut rest = tokens;
    'more: while begins_member(rest) {
        let (item, after) = member_of(alloc, depth, rest)?;
        members.push(item)?;
        rest = after;
    }
    Ok((members, rest))
}

#[tactic(auto, unfolding(crate::specs::ReadMembers::body_at))]
fn body_of(
    alloc: Global,
    depth: u32,
    tokens: &[Terminal],
) -> Result<(Vec<MemberNode>, &[Terminal]), Stop>
    ensures { Gives (λ x. (map member_view x.0.items, x.1.now)) result (body_at base_at (args_at depth) tokens.now) }
{
    let (_, rest) = take(tokens, Kind::OpenBrace)?;
    let (members, rest) = members_of(alloc, depth, rest)?;
    let (_, rest) = take(rest, Kind::CloseBrace)?;
    let (_, rest) = take_if(rest, Kind::Semicolon);
    Ok((members, rest))
}

#[tactic(auto, unfolding(crate::specs::ReadMembers::required_at, midl_words::specs::Reading::behind_at))]
fn required_of(
    alloc: Global,
    depth: u32,
    tokens: &[Terminal],
) -> Result<(Option<Vec<TypeNode>>, &[Terminal]), Stop>
    ensures { Gives (λ x. (option_map (λ v. types_view v.items) x.0, x.1.now)) result (optional_at kind_of (number_of Requires ∷ []) (required_at base_at (args_at depth)) tokens.now) }
{
    if !begins(tokens, Kind::Requires) {
        return Ok((None, tokens));
    }
    let (_, rest) = take(tokens, Kind::Requires)?;
    let (required, rest) = types_of(alloc, depth, rest)?;
    Ok((Some(required), rest))
}

#[tactic(auto, unfolding(crate::specs::ReadMembers::interface_at))]
pub(crate) fn interface_of(
    alloc: Global,
    depth: u32,
    tokens: &[Terminal],
) -> Result<(InterfaceNode, &[Terminal]), Stop>
    ensures { Gives (λ x. (interface_view x.0, x.1.now)) result (interface_at base_at (args_at depth) tokens.now) }
{
    let (_, rest) = take(tokens, Kind::Interface)?;
    let (name, rest) = take_own_name(rest)?;
    let (required, rest) = required_of(alloc, depth, rest)?;
    let (members, rest) = body_of(alloc, depth, rest)?;
    let required = or_none(alloc, required);
    Ok((
        InterfaceNode {
            name,
            required,
            members,
        },
        rest,
    ))
}
