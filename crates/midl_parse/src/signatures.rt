//! Parameters, results and delegates.

ghost use Rattle.std.specs.Prelude.{◌≡◌, ◌∷◌, [], map, option_map, Some, None, false, true};
ghost use Rattle.grammar.specs.Readers.{starts, many_at, after_front, either_at, optional_at, bar_at};
ghost use Rattle.midl_tree.specs.declared.kind.Kind.TheVariants.{Namespace, Comma, Dot, Out, Void, Event, Static, Text, Base, Float, OpenBracket, Import, Guid};
ghost use Rattle.midl_tree.specs.Kinds.{number_of, names, no_attributes};
ghost use Rattle.midl_tree.specs.Symbols.{kind_of};
ghost use Rattle.midl_words.specs.Reading.{Gives, behind_at};
ghost use Rattle.midl_parse.specs.ReadTypes.{base_at, args_at};
ghost use Rattle.midl_parse.specs.ReadSignatures.{param_at, params_at, void_at, some_type_at, result_at, delegate_at};
ghost use Rattle.midl_parse.specs.ReadLists.{listed_at};
ghost use Rattle.midl_tree.specs.Views.{type_view, param_view, delegate_view};

use crate::types::type_of;
use midl_tree::{DelegateNode, Kind, ParamNode, Terminal, TypeNode};
use midl_words::{Stop, begins, take, take_if, take_name, take_own_name};
use std::alloc::Global;

fn begins_param(tokens: &[Terminal]) -> bool
    ensures { result ≡ starts kind_of (number_of Out ∷ names) tokens.now }
{
    match tokens {
        [] => false,
        [token, ..] => token.kind().begins_param(),
    }
}

#[tactic(auto, unfolding(crate::specs::ReadSignatures::param_at))]
fn param_of(
    alloc: Global,
    depth: u32,
    tokens: &[Terminal],
) -> Result<(ParamNode, &[Terminal]), Stop>
    ensures { Gives (λ x. (param_view x.0, x.1.now)) result (param_at base_at (args_at depth) tokens.now) }
{
    let (out, rest) = take_if(tokens, Kind::Out);
    let (kind, rest) = type_of(alloc, depth, rest)?;
    let (name, rest) = take_name(rest)?;
    Ok((ParamNode { out, kind, name }, rest))
}

#[tactic(auto, unfolding(midl_words::specs::Reading::behind_at))]
fn comma_param(
    alloc: Global,
    depth: u32,
    tokens: &[Terminal],
) -> Result<(ParamNode, &[Terminal]), Stop>
    ensures { Gives (λ x. (param_view x.0, x.1.now)) result (behind_at Comma (param_at base_at (args_at depth)) tokens.now) }
{
    let (_, rest) = take(tokens, Kind::Comma)?;
    param_of(alloc, depth, rest)
}

fn more_params(
    alloc: Global,
    depth: u32,
    mut params: Vec<ParamNode>,
    tokens: &[Terminal],
) -> Result<(Vec<ParamNode>, &[Terminal]), Stop>
    ensures { Gives (λ x. (map param_view x.0.items, x.1.now)) result (after_front (map param_view params.items) (many_at kind_of (number_of Comma ∷ []) (behind_at Comma (param_at base_at (args_at depth)))) tokens.entry.now) }
{
    let mut rest = tokens;
    'more: while begins(rest, Kind::Comma) {
        let (item, after) = comma_param(alloc, depth, rest)?;
        params.push(item)?;
        rest = after;
    }
    Ok((params, rest))
}

#[tactic(auto, unfolding(crate::specs::ReadLists::listed_at))]
fn listed_params(
    alloc: Global,
    depth: u32,
    tokens: &[Terminal],
) -> Result<(Vec<ParamNode>, &[Terminal]), Stop>
    ensures { Gives (λ x. (map param_view x.0.items, x.1.now)) result (listed_at (param_at base_at (args_at depth)) tokens.now) }
{
    let (first, rest) = param_of(alloc, depth, tokens)?;
    let mut params = Vec::new(alloc);
    params.push(first)?;
    more_params(alloc, depth, params, rest)
}

#[tactic(auto, unfolding(crate::specs::ReadSignatures::params_at))]
pub(crate) fn params_of(
    alloc: Global,
    depth: u32,
    tokens: &[Terminal],
) -> Result<(Vec<ParamNode>, &[Terminal]), Stop>
    ensures { Gives (λ x. (map param_view x.0.items, x.1.now)) result (params_at base_at (args_at depth) tokens.now) }
{
    let (_, rest) = take(tokens, Kind::OpenParen)?;
    if begins_param(rest) {
        let (params, rest) = listed_params(alloc, depth, rest)?;
        let (_, rest) = take(rest, Kind::CloseParen)?;
        let (_, rest) = take(rest, Kind::Semicolon)?;
        return Ok((params, rest));
    }
    let (_, rest) = take(rest, Kind::CloseParen)?;
    let (_, rest) = take(rest, Kind::Semicolon)?;
    let params = Vec::new(alloc);
    Ok((params, rest))
}

#[tactic(auto, unfolding(crate::specs::ReadSignatures::result_at, crate::specs::ReadSignatures::void_at, crate::specs::ReadSignatures::some_type_at))]
fn result_of(
    alloc: Global,
    depth: u32,
    tokens: &[Terminal],
) -> Result<(Option<TypeNode>, &[Terminal]), Stop>
    ensures { Gives (λ x. (option_map type_view x.0, x.1.now)) result (result_at base_at (args_at depth) tokens.now) }
{
    if begins(tokens, Kind::Void) {
        let (_, rest) = take(tokens, Kind::Void)?;
        return Ok((None, rest));
    }
    let (kind, rest) = type_of(alloc, depth, tokens)?;
    Ok((Some(kind), rest))
}

#[tactic(auto, unfolding(crate::specs::ReadSignatures::delegate_at))]
pub(crate) fn delegate_of(
    alloc: Global,
    depth: u32,
    tokens: &[Terminal],
) -> Result<(DelegateNode, &[Terminal]), Stop>
    ensures { Gives (λ x. (delegate_view x.0, x.1.now)) result (delegate_at base_at (args_at depth) tokens.now) }
{
    let (_, rest) = take(tokens, Kind::Delegate)?;
    let (outcome, rest) = result_of(alloc, depth, rest)?;
    let (name, rest) = take_own_name(rest)?;
    let (params, rest) = params_of(alloc, depth, rest)?;
    Ok((
        DelegateNode {
            outcome,
            name,
            params,
        },
        rest,
    ))
}
