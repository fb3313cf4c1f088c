//! How a class is made, by its attributes.

ghost use Rattle.std.specs.Prelude.{◌≡◌, map};
ghost use Rattle.winmd_attributes.specs.Seen.{attribute_seen};
ghost use Rattle.winmd_attributes.specs.Words.{word_seen};
ghost use Rattle.winmd_cells.specs.Given.{Gives};
ghost use Rattle.winmd_cells.specs.Seen.{tables_in};
ghost use Rattle.winmd_classes.specs.Seen.{making_seen};
ghost use Rattle.winmd_classes.specs.Ways.{ways_in};
ghost use Rattle.winmd_rows.specs.Faults.{each};
ghost use Rattle.winmd_sets.specs.Attributes as attributes_as;
ghost use Rattle.winmd_sets.specs.Classes as classes_as;

use crate::makings::{Making, is_direct, makings_of, throughs};
use md_schema::ImageFault;
use ranked::Stop;
use std::alloc::Global;
use winmd_attributes::{Attribute, Word, of_word, type_name_of};
use winmd_source::Source;
use wr_base::FullName;

/// Whether a class is made without parameters; its factories and its statics.
#[derive(Drop)]
pub struct Ways {
    pub direct: bool,
    pub factories: Vec<FullName>,
    pub statics: Vec<FullName>,
}

fn makings_in<'a>(
    alloc: Global,
    source: &Source<'a>,
    attributes: &[Attribute<'a>],
) -> Result<Vec<Making>, Stop<ImageFault>>
    ensures { Gives (λ x. map making_seen x.items) result (each (classes_as.making_of (tables_in source.now.image)) (attributes_as.of_word (word_seen Word.Activatable) (map (attribute_seen source.now.image) attributes.now))) }
{
    let found = of_word(alloc, source, Word::Activatable, attributes)?;
    makings_of(alloc, source, found.as_slice())
}

fn names_of<'a>(
    alloc: Global,
    source: &Source<'a>,
    attributes: &[Attribute<'a>],
) -> Result<Vec<FullName>, Stop<ImageFault>>
    ensures { Gives (λ x. x.items) result (each (attributes_as.type_name_of (tables_in source.now.image)) (map (attribute_seen source.now.image) attributes.now)) }
{
    let mut names = Vec::new(alloc);
    for attribute in attributes {
        let name = type_name_of(alloc, source, attribute)?;
        names.push(name)?;
    }
    Ok(names)
}

fn statics_in<'a>(
    alloc: Global,
    source: &Source<'a>,
    attributes: &[Attribute<'a>],
) -> Result<Vec<FullName>, Stop<ImageFault>>
    ensures { Gives (λ x. x.items) result (each (attributes_as.type_name_of (tables_in source.now.image)) (attributes_as.of_word (word_seen Word.Static) (map (attribute_seen source.now.image) attributes.now))) }
{
    let found = of_word(alloc, source, Word::Static, attributes)?;
    names_of(alloc, source, found.as_slice())
}

/// How the class with these attributes is made.
pub(crate) fn ways_in<'a>(
    alloc: Global,
    source: &Source<'a>,
    attributes: &[Attribute<'a>],
) -> Result<Ways, Stop<ImageFault>>
    ensures { Gives (λ x. (x.direct, x.factories.items, x.statics.items)) result (ways_in (tables_in source.now.image) (map (attribute_seen source.now.image) attributes.now)) }
{
    let makings = makings_in(alloc, source, attributes)?;
    let statics = statics_in(alloc, source, attributes)?;
    let direct = is_direct(makings.as_slice());
    let factories = throughs(alloc, makings)?;
    Ok(Ways {
        direct,
        factories,
        statics,
    })
}
