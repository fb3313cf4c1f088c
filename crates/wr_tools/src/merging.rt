//! What merging comes to before anything is written or said.

ghost use Rattle.std.specs.Prelude.{◌≡◌, ◌≤◌, ◌<◌, ◌^◌, List, ℕ, Option, map, string_bytes, IfErr, IfOk};
ghost use Rattle.std.specs.List.{All};
ghost use Rattle.image_set.specs.Images.{AreTaken};
ghost use Rattle.image_set.specs.Stops as images;
ghost use Rattle.md_merge.specs.Merged.{IsMerged, IsRefusalOf, IsSet};
ghost use Rattle.md_merge.specs.Unions.{OnRefused, all_of};
ghost use Rattle.winrt_words.specs.Words.{mdmerge};
ghost use Rattle.wr_base.specs.Places.{total};
ghost use Rattle.wr_outside.specs.Cause.{Rose};
ghost use Rattle.wr_outside.specs.Files.{Files};
ghost use Rattle.wr_tools.specs.Outcomes.{OutcomeIs, IsReadFault};

use crate::lines::merge_line;
use crate::outcome::Outcome;
use crate::said::Said;
use crate::set::image_told;
use image_set::{ImageStop, fault_line, images};
use md_merge::{MergeRefusal, merge};
use read_sets::{image_sets_can_be_merged, union_is_stated};
use std::alloc::{AllocError, Global};
use wr_base::{Memory, Stop, Types};
use wr_outside::Store;

/// What images come to that aren't all taken.
fn halted(alloc: Global, stop: ImageStop) -> Result<Outcome, Memory>
    ensures is { (out : List ℕ) (words : List (List ℕ)) (held : Option Files) → images.StopIs held words stop → IfOk result (OutcomeIs (mdmerge (out, words)) held) }
    ensures fault { IfOk result (λ outcome. IsReadFault outcome → images.IsReadFault stop) }
{
    match stop {
        ImageStop::TooMany(name) => Ok(Outcome::Refused(Said::TooMany, name)),
        ImageStop::Missing(name) => Ok(Outcome::Refused(Said::Missing, name)),
        ImageStop::TooLong(name) => Ok(Outcome::Refused(Said::TooLong, name)),
        ImageStop::ReadFault(name) => Ok(Outcome::ReadFault(name)),
        ImageStop::Faulty(name, fault) => {
            let line = fault_line(alloc, name.as_str(), fault)?;
            Ok(Outcome::Refused(Said::Refused, line))
        }
        ImageStop::Memory => Err(AllocError),
    }
}

/// The union of the sets, which are dropped before it is written.
fn union_of(alloc: Global, sets: Vec<Types>) -> Result<Types, Stop<MergeRefusal>>
    requires each { All IsSet sets.items }
    requires few { total (all_of sets.items) < 2 ^ 32 }
    ensures ok { IfOk result (IsMerged sets.items) }
    ensures refused { IfErr result (OnRefused (IsRefusalOf sets.items)) }
{
    merge(alloc, &sets)
}

/// What the sets of images come to.
fn united(alloc: Global, out: &str, sets: Vec<Types>) -> Result<Outcome, Memory>
    requires each { All IsSet sets.items }
    requires few { total (all_of sets.items) < 2 ^ 32 }
    ensures is { (words : List (List ℕ)) (held : Option Files) → AreTaken held words sets.items → IfOk result (OutcomeIs (mdmerge (out.now, words)) held) }
    ensures fault { IfOk result (λ outcome. ¬ (IsReadFault outcome)) }
{
    union_is_stated();
    match union_of(alloc, sets) {
        Ok(types) => Ok(Outcome::Image(image_told(alloc, &types)?)),
        Err(Stop::Refused(refusal)) => {
            let line = merge_line(alloc, out, &refusal)?;
            Ok(Outcome::Refused(Said::Refused, line))
        }
        Err(Stop::Memory) => Err(AllocError),
    }
}

/// What merging the images of the words comes to.
pub(crate) fn merged<S: Store>(
    alloc: Global,
    out: &str,
    words: &[String],
    store: &mut S,
) -> Result<Outcome, Memory>
    ensures is { IfOk result (OutcomeIs (mdmerge (out.now, map string_bytes words.now)) (S.held store.old)) }
    ensures kept { S.held store.new ≡ S.held store.old }
    ensures later { S.faults store.old ≤ S.faults store.new }
    ensures rose { IfOk result (λ outcome. IsReadFault outcome → Rose (S.faults store.old) (S.faults store.new)) }
{
    image_sets_can_be_merged();
    match images(alloc, store, words) {
        Ok(sets) => united(alloc, out, sets),
        Err(stop) => halted(alloc, stop),
    }
}
