//! The image of what files declare, or its first fault.

ghost use Rattle.std.specs.Prelude.{◌≡◌, IfErr, IfOk, OnOk, Ok, map};
ghost use Rattle.std.specs.List.{All};
ghost use Rattle.ranked.specs.First.{Clear};
ghost use Rattle.placed_items.specs.Items.{HasPlaces, NamesApart};
ghost use Rattle.midl_names.specs.Views.{sources_of};
ghost use Rattle.type_rules.specs.Answers as rules;
ghost use Rattle.winmd_strict.specs.Reading.{TypesOf};
ghost use Rattle.winmd_write.specs.Writable.{Writable};
ghost use Rattle.winmd_writer.specs.Finished.{StrictFor};
ghost use Rattle.writable_sets.specs.Stated.{HasWidths};
ghost use Rattle.wr_base.specs.Trees.{decl_tree};
ghost use Rattle.wr_rules.specs.Accepted.{Broken};
ghost use Rattle.wr_tools.specs.Made.{Made, MadeOf, RefusedFirst, RefusedOfTypes};

use class_synthesis::full;
use midl_names::resolve;
use midl_tree::File;
use placed_items::Placed;
use std::alloc::Global;
use std::slice::from_ref;
use type_rules::first_fault;
use winmd_write::image_of;
use wr_base::{Memory, PlacedTypes, Refusal, Stop, Types};
use writable_sets::have_widths;

// Numbers have their widths, as their types say.
fn tell_widths(types: &Types)
    ensures { All HasWidths types.now }
{
    for i in 0..types.len() {
        have_widths(from_ref(types.at(i)));
    }
}

/// The image of a set, which states it where that is `Writable`.
pub(crate) fn image_told(alloc: Global, types: &Types) -> Result<Vec<u8>, Memory>
    ensures widths { OnOk result (All HasWidths types.now) }
    ensures strict { IfOk result (λ bytes. StrictFor (map decl_tree types.now) bytes.items) }
    ensures states { IfOk result (λ bytes. Writable types.now → TypesOf bytes.items ≡ Ok (map decl_tree types.now)) }
{
    tell_widths(types);
    image_of(alloc, types)
}

// The image of full types, or what is broken in them first: a rule, or a limit.
fn image_of_types(alloc: Global, full: &PlacedTypes) -> Result<Vec<u8>, Stop<Refusal>>
    ensures kept { IfOk result (λ _. Clear (Broken full.now.types full.now.places)) }
    ensures widths { OnOk result (All HasWidths full.now.types) }
    ensures strict { IfOk result (λ bytes. StrictFor (map decl_tree full.now.types) bytes.items) }
    ensures states { IfOk result (λ bytes. Writable full.now.types → TypesOf bytes.items ≡ Ok (map decl_tree full.now.types)) }
    ensures refused { IfErr result (λ stop. rules.RefusedFirst full.now.types full.now.places stop) }
{
    match first_fault(alloc, full)? {
        Some(refusal) => Err(Stop::Refused(refusal)),
        None => Ok(image_told(alloc, &full.types)?),
    }
}

// The image of what is declared, or what is broken in it first: made names, rules, limits.
fn image_of_placed(alloc: Global, placed: Placed) -> Result<Vec<u8>, Stop<Refusal>>
    requires apart { NamesApart placed }
    requires places { HasPlaces placed }
    ensures made { IfOk result (λ bytes. MadeOf placed bytes.items) }
    ensures refused { IfErr result (λ stop. RefusedOfTypes placed stop) }
{
    let full = full(alloc, placed)?;
    image_of_types(alloc, &full)
}

/// The image of what the files declare, or the first fault of the set: names, made names, rules, limits. No phase keeps what the one before it began with.
pub(crate) fn image_of_set(alloc: Global, files: Vec<File>) -> Result<Vec<u8>, Stop<Refusal>>
    ensures made { IfOk result (λ bytes. Made (sources_of files.items) bytes.items) }
    ensures refused { IfErr result (λ stop. RefusedFirst (sources_of files.items) stop) }
{
    let placed = resolve(alloc, files)?;
    image_of_placed(alloc, placed)
}
