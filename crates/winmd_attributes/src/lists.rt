//! Lists of attributes.

ghost use Rattle.std.specs.Prelude.{◌≡◌, ◌∷◌, ◌++◌, ◌||◌, [], IfOk, OnOk, map, option_map, if◌then◌else◌};
ghost use Rattle.std.specs.List.{list_any};
ghost use Rattle.std.specs.Str.{bytes_eq};
ghost use Rattle.winmd_attributes.specs.Seen.{attribute_seen};
ghost use Rattle.winmd_attributes.specs.Words.{word_seen};
ghost use Rattle.winmd_cells.specs.Given.{Gives};
ghost use Rattle.winmd_cells.specs.Names.{full_seen};
ghost use Rattle.winmd_lines.specs.Makers.{metadata};
ghost use Rattle.winmd_sets.specs.Attributes as attributes_as;

use crate::constructors::Attribute;
use crate::words::{Word, type_of};
use md_schema::{ImageFault, ImageKind};
use ranked::{Memory, Stop};
use std::alloc::Global;
use winmd_cells::is_named;
use winmd_source::{Source, refused};

fn is_of(word: Word, attribute: &Attribute<'_>) -> bool
    ensures { result ≡ bytes_eq (full_seen attribute.now.made.type_) (metadata (word_seen word)) }
{
    is_named(&attribute.made.type_, type_of(word))
}

fn put<'a>(
    into: &mut Vec<Attribute<'a>>,
    is_kept: bool,
    attribute: Attribute<'a>,
) -> Result<(), Memory>
    ensures { OnOk result (into.new.items ≡ into.old.items ++ (if is_kept then attribute.entry ∷ [] else [])) }
{
    if is_kept {
        into.push(attribute)?;
    }
    Ok(())
}

fn either(a: bool, b: bool) -> bool
    ensures { result ≡ (a || b) }
{
    a || b
}

/// Those of this name.
pub fn of_word<'a>(
    alloc: Global,
    source: &Source<'a>,
    word: Word,
    attributes: &[Attribute<'a>],
) -> Result<Vec<Attribute<'a>>, Memory>
    ensures { IfOk result (λ x. map (attribute_seen source.now.image) x.items ≡ attributes_as.of_word (word_seen word) (map (attribute_seen source.now.image) attributes.now)) }
{
    let mut found = Vec::new(alloc);
    for attribute in attributes {
        let is_kept = is_of(word, attribute);
        put(&mut found, is_kept, *attribute)?;
    }
    Ok(found)
}

/// Whether one of them has this name.
pub fn has_word<'a>(source: &Source<'a>, word: Word, attributes: &[Attribute<'a>]) -> bool
    ensures { result ≡ list_any (attributes_as.is_of (word_seen word)) (map (attribute_seen source.now.image) attributes.now) }
{
    let mut found = false;
    for attribute in attributes {
        found = either(found, is_of(word, attribute));
    }
    found
}

fn at_most_one<'a>(
    source: &Source<'a>,
    offset: u64,
    attributes: &[Attribute<'a>],
) -> Result<Option<Attribute<'a>>, Stop<ImageFault>>
    ensures { Gives (option_map (attribute_seen source.now.image)) result (attributes_as.at_most_one offset (map (attribute_seen source.now.image) attributes.now)) }
{
    match attributes {
        [] => Ok(None),
        [attribute] => Ok(Some(*attribute)),
        _ => Err(refused(ImageKind::BadShape, offset)),
    }
}

/// The one attribute of this name, if there is one. Refused with BadShape at an offset where there is another.
pub fn only_of<'a>(
    alloc: Global,
    source: &Source<'a>,
    offset: u64,
    word: Word,
    attributes: &[Attribute<'a>],
) -> Result<Option<Attribute<'a>>, Stop<ImageFault>>
    ensures { Gives (option_map (attribute_seen source.now.image)) result (attributes_as.at_most_one offset (attributes_as.of_word (word_seen word) (map (attribute_seen source.now.image) attributes.now))) }
{
    let found = of_word(alloc, source, word, attributes)?;
    at_most_one(source, offset, found.as_slice())
}
