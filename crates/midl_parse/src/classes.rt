//! Classes.

ghost use Rattle.std.specs.Prelude.{◌≡◌, ◌∷◌, [], map, option_map, Some, None, false, true};
ghost use Rattle.grammar.specs.Readers.{starts, many_at, after_front, either_at, optional_at, bar_at};
ghost use Rattle.midl_tree.specs.declared.kind.Kind.TheVariants.{Colon, Namespace, Comma, Dot, Out, Void, Event, Static, Text, Base, Float, OpenBracket, Import, Guid};
ghost use Rattle.midl_tree.specs.Kinds.{number_of, names, no_attributes};
ghost use Rattle.midl_tree.specs.Symbols.{kind_of};
ghost use Rattle.midl_words.specs.Reading.{Gives, more_dots_at};
ghost use Rattle.midl_parse.specs.ReadTypes.{base_at, args_at};
ghost use Rattle.midl_parse.specs.ReadClasses.{own_at, static_at, based_at, constructor_at, rest_at, from_name_at, class_member_at, bases_at, class_body_at, class_at};
ghost use Rattle.midl_parse.specs.ReadMembers.{typed_at};
ghost use Rattle.midl_tree.specs.Views.{types_view, class_member_view, class_view};

use crate::members::{event_of, member_of, typed_of, void_member_of};
use crate::signatures::params_of;
use crate::types::{arguments_of, base_of, begins_base, or_none, types_of};
use midl_tree::{ClassMemberNode, ClassNode, Ident, Kind, Terminal, TypeNode};
use midl_words::{Stop, begins, more_dots, take, take_if, take_own_name};
use std::alloc::Global;

fn begins_class_member(tokens: &[Terminal]) -> bool
    ensures { result ≡ starts kind_of (number_of Static ∷ number_of Void ∷ number_of Event ∷ names) tokens.now }
{
    match tokens {
        [] => false,
        [token, ..] => token.kind().begins_class_member(),
    }
}

#[tactic(auto, unfolding(crate::specs::ReadClasses::static_at, crate::specs::ReadClasses::own_at))]
fn static_of(
    alloc: Global,
    depth: u32,
    tokens: &[Terminal],
) -> Result<(ClassMemberNode, &[Terminal]), Stop>
    ensures { Gives (λ x. (class_member_view x.0, x.1.now)) result (static_at base_at (args_at depth) tokens.now) }
{
    let (_, rest) = take(tokens, Kind::Static)?;
    let (part, rest) = member_of(alloc, depth, rest)?;
    Ok((ClassMemberNode::Member(true, part), rest))
}

#[tactic(auto, unfolding(crate::specs::ReadClasses::based_at, crate::specs::ReadClasses::own_at))]
fn based_of(
    alloc: Global,
    depth: u32,
    tokens: &[Terminal],
) -> Result<(ClassMemberNode, &[Terminal]), Stop>
    ensures { Gives (λ x. (class_member_view x.0, x.1.now)) result (based_at base_at (args_at depth) tokens.now) }
{
    let (kind, rest) = base_of(tokens)?;
    let (part, rest) = typed_of(alloc, depth, kind, rest)?;
    Ok((ClassMemberNode::Member(false, part), rest))
}

#[tactic(auto, unfolding(crate::specs::ReadClasses::constructor_at))]
fn constructor_of(
    alloc: Global,
    depth: u32,
    name: Ident,
    tokens: &[Terminal],
) -> Result<(ClassMemberNode, &[Terminal]), Stop>
    ensures { Gives (λ x. (class_member_view x.0, x.1.now)) result (constructor_at base_at (args_at depth) name tokens.entry.now) }
{
    let (params, rest) = params_of(alloc, depth, tokens)?;
    Ok((ClassMemberNode::Constructor(name, params), rest))
}

#[tactic(auto, unfolding(crate::specs::ReadClasses::rest_at, crate::specs::ReadClasses::own_at))]
fn rest_of(
    alloc: Global,
    depth: u32,
    name: Ident,
    tokens: &[Terminal],
) -> Result<(ClassMemberNode, &[Terminal]), Stop>
    ensures { Gives (λ x. (class_member_view x.0, x.1.now)) result (rest_at base_at (args_at depth) name tokens.entry.now) }
{
    let mut names = Vec::new(alloc);
    names.push(name)?;
    let (path, rest) = more_dots(names, tokens)?;
    let (types, rest) = arguments_of(alloc, depth, rest)?;
    let (part, rest) = typed_of(alloc, depth, TypeNode::Named(path, types), rest)?;
    Ok((ClassMemberNode::Member(false, part), rest))
}

#[tactic(auto, unfolding(crate::specs::ReadClasses::from_name_at))]
fn from_name(
    alloc: Global,
    depth: u32,
    tokens: &[Terminal],
) -> Result<(ClassMemberNode, &[Terminal]), Stop>
    ensures { Gives (λ x. (class_member_view x.0, x.1.now)) result (from_name_at base_at (args_at depth) tokens.now) }
{
    let (name, rest) = take_own_name(tokens)?;
    if begins(rest, Kind::OpenParen) {
        return constructor_of(alloc, depth, name, rest);
    }
    rest_of(alloc, depth, name, rest)
}

#[tactic(auto, unfolding(crate::specs::ReadClasses::class_member_at, crate::specs::ReadClasses::own_at))]
fn class_member_of(
    alloc: Global,
    depth: u32,
    tokens: &[Terminal],
) -> Result<(ClassMemberNode, &[Terminal]), Stop>
    ensures { Gives (λ x. (class_member_view x.0, x.1.now)) result (class_member_at base_at (args_at depth) tokens.now) }
{
    if begins(tokens, Kind::Static) {
        return static_of(alloc, depth, tokens);
    }
    if begins(tokens, Kind::Void) {
        let (part, rest) = void_member_of(alloc, depth, tokens)?;
        return Ok((ClassMemberNode::Member(false, part), rest));
    }
    if begins(tokens, Kind::Event) {
        let (part, rest) = event_of(alloc, depth, tokens)?;
        return Ok((ClassMemberNode::Member(false, part), rest));
    }
    if begins_base(tokens) {
        return based_of(alloc, depth, tokens);
    }
    from_name(alloc, depth, tokens)
}

fn class_members_of(
    alloc: Global,
    depth: u32,
    tokens: &[Terminal],
) -> Result<(Vec<ClassMemberNode>, &[Terminal]), Stop>
    ensures { Gives (λ x. (map class_member_view x.0.items, x.1.now)) result (many_at kind_of (number_of Static ∷ number_of Void ∷ number_of Event ∷ names) (class_member_at base_at (args_at depth)) tokens.entry.now) }
{
    let mut members = Vec::new(alloc);
    let mut rest = tokens;
    'more: while begins_class_member(rest) {
        let (item, after) = class_member_of(alloc, depth, rest)?;
        members.push(item)?;
        rest = after;
    }
    Ok((members, rest))
}

#[tactic(auto, unfolding(crate::specs::ReadClasses::class_body_at))]
fn class_body_of(
    alloc: Global,
    depth: u32,
    tokens: &[Terminal],
) -> Result<(Vec<ClassMemberNode>, &[Terminal]), Stop>
    ensures { Gives (λ x. (map class_member_view x.0.items, x.1.now)) result (class_body_at base_at (args_at depth) tokens.now) }
{
    let (_, rest) = take(tokens, Kind::OpenBrace)?;
    let (members, rest) = class_members_of(alloc, depth, rest)?;
    let (_, rest) = take(rest, Kind::CloseBrace)?;
    let (_, rest) = take_if(rest, Kind::Semicolon);
    Ok((members, rest))
}

#[tactic(auto, unfolding(crate::specs::ReadClasses::bases_at, midl_words::specs::Reading::behind_at))]
fn bases_of(
    alloc: Global,
    depth: u32,
    tokens: &[Terminal],
) -> Result<(Option<Vec<TypeNode>>, &[Terminal]), Stop>
    ensures { Gives (λ x. (option_map (λ v. types_view v.items) x.0, x.1.now)) result (optional_at kind_of (number_of Colon ∷ []) (bases_at base_at (args_at depth)) tokens.now) }
{
    if !begins(tokens, Kind::Colon) {
        return Ok((None, tokens));
    }
    let (_, rest) = take(tokens, Kind::Colon)?;
    let (bases, rest) = types_of(alloc, depth, rest)?;
    Ok((Some(bases), rest))
}

#[tactic(auto, unfolding(crate::specs::ReadClasses::class_at))]
pub(crate) fn class_of(
    alloc: Global,
    depth: u32,
    tokens: &[Terminal],
) -> Result<(ClassNode, &[Terminal]), Stop>
    ensures { Gives (λ x. (class_view x.0, x.1.now)) result (class_at base_at (args_at depth) tokens.now) }
{
    let (fixed, rest) = take_if(tokens, Kind::Static);
    let (_, rest) = take(rest, Kind::Runtimeclass)?;
    let (name, rest) = take_own_name(rest)?;
    let (bases, rest) = bases_of(alloc, depth, rest)?;
    let (members, rest) = class_body_of(alloc, depth, rest)?;
    let bases = or_none(alloc, bases);
    Ok((
        ClassNode {
            fixed,
            name,
            bases,
            members,
        },
        rest,
    ))
}
