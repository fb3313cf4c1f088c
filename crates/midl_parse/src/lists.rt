//! Lists of names and of texts.

ghost use Rattle.std.specs.Prelude.{◌≡◌, ◌∷◌, [], map, option_map, Some, None, false, true};
ghost use Rattle.grammar.specs.Readers.{starts, many_at, after_front, either_at, optional_at, bar_at};
ghost use Rattle.midl_tree.specs.declared.kind.Kind.TheVariants.{Namespace, Comma, Dot, Out, Void, Event, Static, Text, Base, Float, OpenBracket, Import, Guid};
ghost use Rattle.midl_tree.specs.Kinds.{number_of, names, no_attributes};
ghost use Rattle.midl_tree.specs.Symbols.{kind_of};
ghost use Rattle.midl_words.specs.Reading.{Gives, is_at, name_at, behind_at};
ghost use Rattle.midl_parse.specs.ReadLists.{listed_at};
ghost use Rattle.midl_parse.specs.ReadImports.{import_at};

use midl_tree::{Ident, Kind, Terminal};
use midl_words::{Stop, begins, take, take_name};
use std::alloc::Global;

#[tactic(auto, unfolding(midl_words::specs::Reading::behind_at))]
fn comma_name(tokens: &[Terminal]) -> Result<(Ident, &[Terminal]), Stop>
    ensures { Gives (λ x. (x.0, x.1.now)) result (behind_at Comma name_at tokens.now) }
{
    let (_, rest) = take(tokens, Kind::Comma)?;
    take_name(rest)
}

pub(crate) fn more_names(
    mut names: Vec<Ident>,
    tokens: &[Terminal],
) -> Result<(Vec<Ident>, &[Terminal]), Stop>
    ensures { Gives (λ x. (x.0.items, x.1.now)) result (after_front names.items (many_at kind_of (number_of Comma ∷ []) (behind_at Comma name_at)) tokens.entry.now) }
{
    let mut rest = tokens;
    'more: while begins(rest, Kind::Comma) {
        let (item, after) = comma_name(rest)?;
        names.push(item)?;
        rest = after;
    }
    Ok((names, rest))
}

#[tactic(auto, unfolding(crate::specs::ReadLists::listed_at))]
pub(crate) fn names_of(
    alloc: Global,
    tokens: &[Terminal],
) -> Result<(Vec<Ident>, &[Terminal]), Stop>
    ensures { Gives (λ x. (x.0.items, x.1.now)) result (listed_at name_at tokens.now) }
{
    let (first, rest) = take_name(tokens)?;
    let mut names = Vec::with_capacity(alloc, 1)?;
    names.push(first)?;
    more_names(names, rest)
}
