//! Declarations and namespaces.

ghost use Rattle.std.specs.Prelude.{◌≡◌, ◌∷◌, [], map, option_map, Some, None, false, true};
ghost use Rattle.grammar.specs.Readers.{starts, many_at, after_front, either_at, optional_at, bar_at};
ghost use Rattle.midl_tree.specs.declared.kind.Kind.TheVariants.{Namespace, Comma, Dot, Out, Void, Event, Static, Text, Base, Float, OpenBracket, Import, Guid};
ghost use Rattle.midl_tree.specs.Kinds.{number_of, names, no_attributes, declared_first};
ghost use Rattle.midl_tree.specs.Symbols.{kind_of};
ghost use Rattle.midl_words.specs.Reading.{Gives};
ghost use Rattle.midl_parse.specs.ReadAttributes.{attribute_at};
ghost use Rattle.midl_parse.specs.ReadTypes.{base_at, args_at};
ghost use Rattle.midl_parse.specs.ReadItems.{decl_at, enumeration_at, structure_at, delegated_at, interfaced_at, classed_at, declared_at, space_with, items_at};
ghost use Rattle.midl_parse.specs.ReadImports.{import_at};
ghost use Rattle.midl_tree.specs.Views.{decl_view, item_view};

use crate::attributes::groups_of;
use crate::classes::class_of;
use crate::enums::enum_of;
use crate::members::interface_of;
use crate::signatures::delegate_of;
use crate::structs::struct_of;
use midl_tree::{DeclNode, ItemNode, Kind, Terminal};
use midl_words::{Code, Stop, begins, dotted_of, take, take_if};
use std::alloc::Global;

fn begins_declared(tokens: &[Terminal]) -> bool
    ensures { result ≡ starts kind_of declared_first tokens.now }
{
    match tokens {
        [] => false,
        [token, ..] => token.kind().begins_declared(),
    }
}

fn begins_item(tokens: &[Terminal]) -> bool
    ensures { result ≡ starts kind_of (number_of Namespace ∷ declared_first) tokens.now }
{
    match tokens {
        [] => false,
        [token, ..] => token.kind().begins_item(),
    }
}

#[tactic(auto, unfolding(crate::specs::ReadItems::decl_at, crate::specs::ReadItems::enumeration_at, crate::specs::ReadItems::structure_at, crate::specs::ReadItems::delegated_at, crate::specs::ReadItems::interfaced_at, crate::specs::ReadItems::classed_at))]
fn decl_of(alloc: Global, types: u32, tokens: &[Terminal]) -> Result<(DeclNode, &[Terminal]), Stop>
    ensures { Gives (λ x. (decl_view x.0, x.1.now)) result (decl_at base_at (args_at types) tokens.now) }
{
    if begins(tokens, Kind::Enum) {
        let (tree, rest) = enum_of(alloc, tokens)?;
        return Ok((DeclNode::Enum(tree), rest));
    }
    if begins(tokens, Kind::Struct) {
        let (tree, rest) = struct_of(alloc, types, tokens)?;
        return Ok((DeclNode::Struct(tree), rest));
    }
    if begins(tokens, Kind::Delegate) {
        let (tree, rest) = delegate_of(alloc, types, tokens)?;
        return Ok((DeclNode::Delegate(tree), rest));
    }
    if begins(tokens, Kind::Interface) {
        let (tree, rest) = interface_of(alloc, types, tokens)?;
        return Ok((DeclNode::Interface(tree), rest));
    }
    let (tree, rest) = class_of(alloc, types, tokens)?;
    Ok((DeclNode::Class(tree), rest))
}

#[tactic(auto, unfolding(crate::specs::ReadItems::declared_at))]
fn declared_of(
    alloc: Global,
    types: u32,
    tokens: &[Terminal],
) -> Result<(ItemNode, &[Terminal]), Stop>
    ensures { Gives (λ x. (item_view x.0, x.1.now)) result (declared_at attribute_at base_at (args_at types) tokens.now) }
{
    let (groups, rest) = groups_of(alloc, tokens)?;
    let (tree, rest) = decl_of(alloc, types, rest)?;
    Ok((ItemNode::Declared(groups, tree), rest))
}

fn all_declared(
    alloc: Global,
    types: u32,
    tokens: &[Terminal],
) -> Result<(Vec<ItemNode>, &[Terminal]), Stop>
    ensures { Gives (λ x. (map item_view x.0.items, x.1.now)) result (many_at kind_of declared_first (declared_at attribute_at base_at (args_at types)) tokens.entry.now) }
{
    let mut items = Vec::new(alloc);
    let mut rest = tokens;
    'more: while begins_declared(rest) {
        let (item, after) = declared_of(alloc, types, rest)?;
        items.push(item)?;
        rest = after;
    }
    Ok((items, rest))
}

#[cycle(items)]
#[tactic(auto, unfolding(crate::specs::ReadItems::items_at))]
fn items_of(
    alloc: Global,
    depth: u32,
    types: u32,
    tokens: &[Terminal],
) -> Result<(Vec<ItemNode>, &[Terminal]), Stop>
    ensures { Gives (λ x. (map item_view x.0.items, x.1.now)) result (items_at (declared_at attribute_at base_at (args_at types)) depth tokens.now) }
{
    if depth == 0 {
        let (items, rest) = all_declared(alloc, types, tokens)?;
        if begins(rest, Kind::Namespace) {
            return Err(Stop::Fault(Code::TooDeep, rest.len()));
        }
        return Ok((items, rest));
    }
    nested_of(alloc, depth - 1, types, tokens)
}

#[cycle(items)]
fn nested_of(
    alloc: Global,
    depth: u32,
    types: u32,
    tokens: &[Terminal],
) -> Result<(Vec<ItemNode>, &[Terminal]), Stop>
    ensures { Gives (λ x. (map item_view x.0.items, x.1.now)) result (many_at kind_of (number_of Namespace ∷ declared_first) (either_at kind_of (number_of Namespace ∷ []) (space_with (items_at (declared_at attribute_at base_at (args_at types)) depth)) (declared_at attribute_at base_at (args_at types))) tokens.now) }
{
    let mut items = Vec::new(alloc);
    let mut rest = tokens;
    'more: while begins_item(rest) {
        let (item, after) = item_of(alloc, depth, types, rest)?;
        items.push(item)?;
        rest = after;
    }
    Ok((items, rest))
}

#[cycle(items)]
fn item_of(
    alloc: Global,
    depth: u32,
    types: u32,
    tokens: &[Terminal],
) -> Result<(ItemNode, &[Terminal]), Stop>
    ensures { Gives (λ x. (item_view x.0, x.1.now)) result (either_at kind_of (number_of Namespace ∷ []) (space_with (items_at (declared_at attribute_at base_at (args_at types)) depth)) (declared_at attribute_at base_at (args_at types)) tokens.now) }
{
    if begins(tokens, Kind::Namespace) {
        return namespace_of(alloc, depth, types, tokens);
    }
    declared_of(alloc, types, tokens)
}

#[cycle(items)]
#[tactic(auto, unfolding(crate::specs::ReadItems::space_with))]
fn namespace_of(
    alloc: Global,
    depth: u32,
    types: u32,
    tokens: &[Terminal],
) -> Result<(ItemNode, &[Terminal]), Stop>
    ensures { Gives (λ x. (item_view x.0, x.1.now)) result (space_with (items_at (declared_at attribute_at base_at (args_at types)) depth) tokens.now) }
{
    let (_, rest) = take(tokens, Kind::Namespace)?;
    let (name, rest) = dotted_of(alloc, rest)?;
    let (_, rest) = take(rest, Kind::OpenBrace)?;
    let (items, rest) = items_of(alloc, depth, types, rest)?;
    let (_, rest) = take(rest, Kind::CloseBrace)?;
    let (_, rest) = take_if(rest, Kind::Semicolon);
    Ok((ItemNode::Namespace(name, items), rest))
}

pub(crate) fn spaces_of(
    alloc: Global,
    depth: u32,
    types: u32,
    tokens: &[Terminal],
) -> Result<(Vec<ItemNode>, &[Terminal]), Stop>
    ensures { Gives (λ x. (map item_view x.0.items, x.1.now)) result (many_at kind_of (number_of Namespace ∷ []) (space_with (items_at (declared_at attribute_at base_at (args_at types)) depth)) tokens.entry.now) }
{
    let mut items = Vec::new(alloc);
    let mut rest = tokens;
    'more: while begins(rest, Kind::Namespace) {
        let (item, after) = namespace_of(alloc, depth, types, rest)?;
        items.push(item)?;
        rest = after;
    }
    Ok((items, rest))
}
