//! The uses of types.

ghost use Rattle.std.specs.Prelude.{◌≡◌, ◌∷◌, [], map, option_map, Some, None, false, true};
ghost use Rattle.grammar.specs.Readers.{starts, many_at, after_front, either_at, optional_at, bar_at};
ghost use Rattle.midl_tree.specs.declared.kind.Kind.TheVariants.{Namespace, Comma, Dot, Out, Void, Event, Static, Text, Base, Float, OpenBracket, Import, Guid};
ghost use Rattle.midl_tree.specs.Kinds.{number_of, names, no_attributes};
ghost use Rattle.midl_tree.specs.Symbols.{kind_of};
ghost use Rattle.midl_words.specs.Reading.{Gives, behind_at};
ghost use Rattle.midl_parse.specs.Lists.{or_none};
ghost use Rattle.midl_parse.specs.ReadTypes.{base_at, path_at, bracketed_at, args_at, types_at};
ghost use Rattle.midl_parse.specs.ReadLists.{listed_at};
ghost use Rattle.midl_tree.specs.Views.{type_view, types_view};

use midl_tree::{Ident, Kind, Terminal, TypeNode};
use midl_words::{Code, Stop, base_by, begins, more_dots, take, take_own_name};
use std::alloc::Global;

pub(crate) fn begins_base(tokens: &[Terminal]) -> bool
    ensures { result ≡ starts kind_of (number_of Base ∷ number_of Float ∷ []) tokens.now }
{
    match tokens {
        [] => false,
        [token, ..] => token.kind().is_base_or_float(),
    }
}

#[tactic(auto, unfolding(crate::specs::ReadTypes::base_at, crate::specs::ReadTypes::base_word_at))]
pub(crate) fn base_of(tokens: &[Terminal]) -> Result<(TypeNode, &[Terminal]), Stop>
    ensures { Gives (λ x. (type_view x.0, x.1.now)) result (base_at tokens.now) }
{
    if begins(tokens, Kind::Float) {
        return Err(Stop::Fault(Code::FloatType, tokens.len()));
    }
    let (word, rest) = take(tokens, Kind::Base)?;
    Ok((TypeNode::Base(base_by(word.as_str())), rest))
}

#[tactic(auto, unfolding(crate::specs::ReadTypes::path_at))]
fn path_of(alloc: Global, tokens: &[Terminal]) -> Result<(Vec<Ident>, &[Terminal]), Stop>
    ensures { Gives (λ x. (x.0.items, x.1.now)) result (path_at tokens.now) }
{
    let (first, rest) = take_own_name(tokens)?;
    let mut names = Vec::with_capacity(alloc, 1)?;
    names.push(first)?;
    more_dots(names, rest)
}

#[cycle(types)]
#[tactic(auto, unfolding(crate::specs::ReadTypes::type_at, crate::specs::ReadTypes::path_type_at))]
pub(crate) fn type_of(
    alloc: Global,
    depth: u32,
    tokens: &[Terminal],
) -> Result<(TypeNode, &[Terminal]), Stop>
    ensures { Gives (λ x. (type_view x.0, x.1.now)) result (types_at depth tokens.now) }
{
    if begins_base(tokens) {
        return base_of(tokens);
    }
    let (path, rest) = path_of(alloc, tokens)?;
    let (types, rest) = arguments_of(alloc, depth, rest)?;
    Ok((TypeNode::Named(path, types), rest))
}

#[cycle(types)]
#[tactic(auto, unfolding(crate::specs::ReadTypes::arguments_at))]
pub(crate) fn arguments_of(
    alloc: Global,
    depth: u32,
    tokens: &[Terminal],
) -> Result<(Vec<TypeNode>, &[Terminal]), Stop>
    ensures { Gives (λ x. (types_view x.0.items, x.1.now)) result (args_at depth tokens.now) }
{
    if !begins(tokens, Kind::Less) {
        return Ok((Vec::new(alloc), tokens));
    }
    if depth == 0 {
        return Err(Stop::Fault(Code::TooDeep, tokens.len()));
    }
    bracketed_of(alloc, depth - 1, tokens)
}

#[cycle(types)]
#[tactic(auto, unfolding(crate::specs::ReadTypes::bracketed_at, crate::specs::ReadLists::listed_at))]
fn bracketed_of(
    alloc: Global,
    depth: u32,
    tokens: &[Terminal],
) -> Result<(Vec<TypeNode>, &[Terminal]), Stop>
    ensures { Gives (λ x. (types_view x.0.items, x.1.now)) result (bracketed_at (types_at depth) tokens.now) }
{
    let (_, rest) = take(tokens, Kind::Less)?;
    let (first, rest) = type_of(alloc, depth, rest)?;
    let mut types = Vec::new(alloc);
    types.push(first)?;
    let (types, rest) = more_types(alloc, depth, types, rest)?;
    let (_, rest) = take(rest, Kind::Greater)?;
    Ok((types, rest))
}

#[cycle(types)]
#[tactic(auto, unfolding(midl_words::specs::Reading::behind_at))]
fn comma_type(
    alloc: Global,
    depth: u32,
    tokens: &[Terminal],
) -> Result<(TypeNode, &[Terminal]), Stop>
    ensures { Gives (λ x. (type_view x.0, x.1.now)) result (behind_at Comma (types_at depth) tokens.now) }
{
    let (_, rest) = take(tokens, Kind::Comma)?;
    type_of(alloc, depth, rest)
}

#[cycle(types)]
fn more_types(
    alloc: Global,
    depth: u32,
    mut types: Vec<TypeNode>,
    tokens: &[Terminal],
) -> Result<(Vec<TypeNode>, &[Terminal]), Stop>
    ensures { Gives (λ x. (types_view x.0.items, x.1.now)) result (after_front (types_view types.items) (many_at kind_of (number_of Comma ∷ []) (behind_at Comma (types_at depth))) tokens.entry.now) }
{
    let mut rest = tokens;
    'more: while begins(rest, Kind::Comma) {
        let (item, after) = comma_type(alloc, depth, rest)?;
        types.push(item)?;
        rest = after;
    }
    Ok((types, rest))
}

#[tactic(auto, unfolding(crate::specs::ReadLists::listed_at))]
pub(crate) fn types_of(
    alloc: Global,
    depth: u32,
    tokens: &[Terminal],
) -> Result<(Vec<TypeNode>, &[Terminal]), Stop>
    ensures { Gives (λ x. (types_view x.0.items, x.1.now)) result (listed_at (types_at depth) tokens.now) }
{
    let (first, rest) = type_of(alloc, depth, tokens)?;
    let mut types = Vec::new(alloc);
    types.push(first)?;
    more_types(alloc, depth, types, rest)
}

/// A list that may be left out.
pub(crate) fn or_none(alloc: Global, types: Option<Vec<TypeNode>>) -> Vec<TypeNode>
    ensures { types_view result.items ≡ or_none (option_map (λ v. types_view v.items) types) }
{
    match types {
        None => Vec::new(alloc),
        Some(types) => types,
    }
}
