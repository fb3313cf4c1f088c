//! Imports.

ghost use Rattle.std.specs.Prelude.{◌≡◌, ◌∷◌, [], map};
ghost use Rattle.grammar.specs.Readers.{many_at, after_front};
ghost use Rattle.midl_tree.specs.declared.kind.Kind.TheVariants.{Comma, Text, Import};
ghost use Rattle.midl_tree.specs.Kinds.{number_of};
ghost use Rattle.midl_tree.specs.Symbols.{kind_of};
ghost use Rattle.midl_words.specs.Reading.{Gives, is_at, behind_at};
ghost use Rattle.midl_parse.specs.ReadImports.{import_at};

use midl_tree::{Kind, Terminal};
use midl_words::{Stop, begins, take};
use std::alloc::Global;

fn text_of(tokens: &[Terminal]) -> Result<(Terminal, &[Terminal]), Stop>
    ensures { Gives (λ x. (x.0, x.1.now)) result (is_at Text tokens.now) }
{
    let (text, rest) = take(tokens, Kind::Text)?;
    Ok((text.clone()?, rest))
}

#[tactic(auto, unfolding(midl_words::specs::Reading::behind_at))]
fn comma_text(tokens: &[Terminal]) -> Result<(Terminal, &[Terminal]), Stop>
    ensures { Gives (λ x. (x.0, x.1.now)) result (behind_at Comma (is_at Text) tokens.now) }
{
    let (_, rest) = take(tokens, Kind::Comma)?;
    text_of(rest)
}

fn more_texts(
    mut texts: Vec<Terminal>,
    tokens: &[Terminal],
) -> Result<(Vec<Terminal>, &[Terminal]), Stop>
    ensures { Gives (λ x. (x.0.items, x.1.now)) result (after_front texts.items (many_at kind_of (number_of Comma ∷ []) (behind_at Comma (is_at Text))) tokens.entry.now) }
{
    let mut rest = tokens;
    'more: while begins(rest, Kind::Comma) {
        let (item, after) = comma_text(rest)?;
        texts.push(item)?;
        rest = after;
    }
    Ok((texts, rest))
}

#[tactic(auto, unfolding(crate::specs::ReadImports::import_at, crate::specs::ReadLists::listed_at))]
fn import_of(alloc: Global, tokens: &[Terminal]) -> Result<(Vec<Terminal>, &[Terminal]), Stop>
    ensures { Gives (λ x. (x.0.items, x.1.now)) result (import_at tokens.now) }
{
    let (_, rest) = take(tokens, Kind::Import)?;
    let (first, rest) = text_of(rest)?;
    let mut texts = Vec::new(alloc);
    texts.push(first)?;
    let (texts, rest) = more_texts(texts, rest)?;
    let (_, rest) = take(rest, Kind::Semicolon)?;
    Ok((texts, rest))
}

pub(crate) fn imports_of(
    alloc: Global,
    tokens: &[Terminal],
) -> Result<(Vec<Vec<Terminal>>, &[Terminal]), Stop>
    ensures { Gives (λ x. (map (λ v. v.items) x.0.items, x.1.now)) result (many_at kind_of (number_of Import ∷ []) import_at tokens.entry.now) }
{
    let mut imports = Vec::new(alloc);
    let mut rest = tokens;
    'more: while begins(rest, Kind::Import) {
        let (item, after) = import_of(alloc, rest)?;
        imports.push(item)?;
        rest = after;
    }
    Ok((imports, rest))
}
