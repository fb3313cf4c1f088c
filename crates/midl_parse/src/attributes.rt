//! Attributes.

ghost use Rattle.std.specs.Prelude.{◌≡◌, ◌∷◌, [], map, option_map, Some, None, false, true};
ghost use Rattle.grammar.specs.Readers.{starts, one_at, many_at, after_front, either_at, optional_at, bar_at};
ghost use Rattle.midl_tree.specs.declared.kind.Kind.TheVariants.{Namespace, Comma, Dot, Out, Void, Event, Static, Text, Base, Float, OpenBracket, Import, Guid};
ghost use Rattle.midl_tree.specs.Kinds.{number_of, names, no_attributes};
ghost use Rattle.midl_tree.specs.Symbols.{kind_of};
ghost use Rattle.midl_words.specs.declared.stop.Code.TheVariants.{Syntax};
ghost use Rattle.midl_words.specs.Reading.{Gives, behind_at};
ghost use Rattle.midl_parse.specs.ReadAttributes.{uuid_at, version_at, flags_at, default_at, known_at, attribute_at, group_at};
ghost use Rattle.midl_parse.specs.ReadLists.{listed_at};
ghost use Rattle.midl_tree.specs.Views.{attribute_view};

use midl_tree::{AttributeNode, Kind, Terminal};
use midl_words::{Code, Stop, begins, take, take_number};
use std::alloc::Global;

fn begins_no_attribute(tokens: &[Terminal]) -> bool
    ensures { result ≡ starts kind_of no_attributes tokens.now }
{
    match tokens {
        [] => false,
        [token, ..] => token.kind().is_no_attribute(),
    }
}

fn take_id(tokens: &[Terminal]) -> Result<(&Terminal, &[Terminal]), Stop>
    ensures { Gives (λ x. (x.0.now, x.1.now)) result (one_at kind_of (number_of Guid ∷ number_of Text ∷ []) Syntax tokens.now) }
{
    match tokens {
        [] => Err(Stop::Fault(Code::Syntax, 0)),
        [token, rest @ ..] => {
            if token.kind().is_id() {
                Ok((token, rest))
            } else {
                Err(Stop::Fault(Code::Syntax, tokens.len()))
            }
        }
    }
}

#[tactic(auto, unfolding(crate::specs::ReadAttributes::uuid_at))]
fn uuid_of(tokens: &[Terminal]) -> Result<(AttributeNode, &[Terminal]), Stop>
    ensures { Gives (λ x. (attribute_view x.0, x.1.now)) result (uuid_at tokens.now) }
{
    let (word, rest) = take(tokens, Kind::Uuid)?;
    let (_, rest) = take(rest, Kind::OpenParen)?;
    let (id, rest) = take_id(rest)?;
    let (_, rest) = take(rest, Kind::CloseParen)?;
    Ok((AttributeNode::Uuid(word.clone()?, id.clone()?), rest))
}

#[tactic(auto, unfolding(crate::specs::ReadAttributes::version_at))]
fn version_of(tokens: &[Terminal]) -> Result<(AttributeNode, &[Terminal]), Stop>
    ensures { Gives (λ x. (attribute_view x.0, x.1.now)) result (version_at tokens.now) }
{
    let (word, rest) = take(tokens, Kind::Version)?;
    let (_, rest) = take(rest, Kind::OpenParen)?;
    let (number, rest) = take_number(rest)?;
    let (_, rest) = take(rest, Kind::CloseParen)?;
    Ok((AttributeNode::Version(word.clone()?, number), rest))
}

#[tactic(auto, unfolding(crate::specs::ReadAttributes::flags_at))]
fn flags_of(tokens: &[Terminal]) -> Result<(AttributeNode, &[Terminal]), Stop>
    ensures { Gives (λ x. (attribute_view x.0, x.1.now)) result (flags_at tokens.now) }
{
    let (word, rest) = take(tokens, Kind::Flags)?;
    Ok((AttributeNode::Flags(word.clone()?), rest))
}

#[tactic(auto, unfolding(crate::specs::ReadAttributes::default_at))]
fn default_of(tokens: &[Terminal]) -> Result<(AttributeNode, &[Terminal]), Stop>
    ensures { Gives (λ x. (attribute_view x.0, x.1.now)) result (default_at tokens.now) }
{
    let (word, rest) = take(tokens, Kind::DefaultInterface)?;
    Ok((AttributeNode::DefaultInterface(word.clone()?), rest))
}

#[tactic(auto, unfolding(crate::specs::ReadAttributes::attribute_at, crate::specs::ReadAttributes::known_at))]
fn attribute_of(tokens: &[Terminal]) -> Result<(AttributeNode, &[Terminal]), Stop>
    ensures { Gives (λ x. (attribute_view x.0, x.1.now)) result (attribute_at tokens.now) }
{
    if begins_no_attribute(tokens) {
        return Err(Stop::Fault(Code::UnknownAttribute, tokens.len()));
    }
    if begins(tokens, Kind::Uuid) {
        return uuid_of(tokens);
    }
    if begins(tokens, Kind::Version) {
        return version_of(tokens);
    }
    if begins(tokens, Kind::Flags) {
        return flags_of(tokens);
    }
    default_of(tokens)
}

#[tactic(auto, unfolding(midl_words::specs::Reading::behind_at))]
fn comma_attribute(tokens: &[Terminal]) -> Result<(AttributeNode, &[Terminal]), Stop>
    ensures { Gives (λ x. (attribute_view x.0, x.1.now)) result (behind_at Comma attribute_at tokens.now) }
{
    let (_, rest) = take(tokens, Kind::Comma)?;
    attribute_of(rest)
}

fn more_attributes(
    mut attributes: Vec<AttributeNode>,
    tokens: &[Terminal],
) -> Result<(Vec<AttributeNode>, &[Terminal]), Stop>
    ensures { Gives (λ x. (map attribute_view x.0.items, x.1.now)) result (after_front (map attribute_view attributes.items) (many_at kind_of (number_of Comma ∷ []) (behind_at Comma attribute_at)) tokens.entry.now) }
{
    let mut rest = tokens;
    'more: while begins(rest, Kind::Comma) {
        let (item, after) = comma_attribute(rest)?;
        attributes.push(item)?;
        rest = after;
    }
    Ok((attributes, rest))
}

#[tactic(auto, unfolding(crate::specs::ReadAttributes::group_at, crate::specs::ReadLists::listed_at))]
fn group_of(alloc: Global, tokens: &[Terminal]) -> Result<(Vec<AttributeNode>, &[Terminal]), Stop>
    ensures { Gives (λ x. (map attribute_view x.0.items, x.1.now)) result (group_at attribute_at tokens.now) }
{
    let (_, rest) = take(tokens, Kind::OpenBracket)?;
    let (first, rest) = attribute_of(rest)?;
    let mut attributes = Vec::new(alloc);
    attributes.push(first)?;
    let (attributes, rest) = more_attributes(attributes, rest)?;
    let (_, rest) = take(rest, Kind::CloseBracket)?;
    Ok((attributes, rest))
}

pub(crate) fn groups_of(
    alloc: Global,
    tokens: &[Terminal],
) -> Result<(Vec<Vec<AttributeNode>>, &[Terminal]), Stop>
    ensures { Gives (λ x. (map (λ g. map attribute_view g.items) x.0.items, x.1.now)) result (many_at kind_of (number_of OpenBracket ∷ []) (group_at attribute_at) tokens.entry.now) }
{
    let mut groups = Vec::new(alloc);
    let mut rest = tokens;
    'more: while begins(rest, Kind::OpenBracket) {
        let (item, after) = group_of(alloc, rest)?;
        groups.push(item)?;
        rest = after;
    }
    Ok((groups, rest))
}
