//! Structs.

ghost use Rattle.std.specs.Prelude.{◌≡◌, ◌∷◌, [], map, option_map, Some, None, false, true};
ghost use Rattle.grammar.specs.Readers.{starts, many_at, after_front, either_at, optional_at, bar_at};
ghost use Rattle.midl_tree.specs.declared.kind.Kind.TheVariants.{Namespace, Comma, Dot, Out, Void, Event, Static, Text, Base, Float, OpenBracket, Import, Guid};
ghost use Rattle.midl_tree.specs.Kinds.{number_of, names, no_attributes};
ghost use Rattle.midl_tree.specs.Symbols.{kind_of};
ghost use Rattle.midl_words.specs.Reading.{Gives};
ghost use Rattle.midl_parse.specs.ReadTypes.{base_at, args_at};
ghost use Rattle.midl_parse.specs.ReadStructs.{fields_at, struct_at};
ghost use Rattle.midl_tree.specs.Views.{fields_view, struct_view};

use crate::lists::names_of;
use crate::types::type_of;
use midl_tree::{FieldsNode, Kind, StructNode, Terminal};
use midl_words::{Stop, begins_name, take, take_if, take_own_name};
use std::alloc::Global;

#[tactic(auto, unfolding(crate::specs::ReadStructs::fields_at))]
fn fields_of(
    alloc: Global,
    depth: u32,
    tokens: &[Terminal],
) -> Result<(FieldsNode, &[Terminal]), Stop>
    ensures { Gives (λ x. (fields_view x.0, x.1.now)) result (fields_at base_at (args_at depth) tokens.now) }
{
    let (kind, rest) = type_of(alloc, depth, tokens)?;
    let (names, rest) = names_of(alloc, rest)?;
    let (_, rest) = take(rest, Kind::Semicolon)?;
    Ok((FieldsNode { kind, names }, rest))
}

fn all_fields(
    alloc: Global,
    depth: u32,
    tokens: &[Terminal],
) -> Result<(Vec<FieldsNode>, &[Terminal]), Stop>
    ensures { Gives (λ x. (map fields_view x.0.items, x.1.now)) result (many_at kind_of names (fields_at base_at (args_at depth)) tokens.entry.now) }
{
    let mut groups = Vec::new(alloc);
    let mut rest = tokens;
    'more: while begins_name(rest) {
        let (item, after) = fields_of(alloc, depth, rest)?;
        groups.push(item)?;
        rest = after;
    }
    Ok((groups, rest))
}

#[tactic(auto, unfolding(crate::specs::ReadStructs::struct_at))]
pub(crate) fn struct_of(
    alloc: Global,
    depth: u32,
    tokens: &[Terminal],
) -> Result<(StructNode, &[Terminal]), Stop>
    ensures { Gives (λ x. (struct_view x.0, x.1.now)) result (struct_at base_at (args_at depth) tokens.now) }
{
    let (_, rest) = take(tokens, Kind::Struct)?;
    let (name, rest) = take_own_name(rest)?;
    let (_, rest) = take(rest, Kind::OpenBrace)?;
    let (fields, rest) = all_fields(alloc, depth, rest)?;
    let (_, rest) = take(rest, Kind::CloseBrace)?;
    let (_, rest) = take_if(rest, Kind::Semicolon);
    Ok((StructNode { name, fields }, rest))
}
