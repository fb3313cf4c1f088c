//! What compiling comes to before anything is written or said.

ghost use Rattle.std.specs.Prelude.{◌≡◌, ◌≤◌, List, ℕ, Option, length, map, string_bytes, IfOk};
ghost use Rattle.wr_outside.specs.Files.{Files};
ghost use Rattle.wr_outside.specs.Cause.{Rose};
ghost use Rattle.source_set.specs.Reads.{sources_in};
ghost use Rattle.source_set.specs.Stops.{Complete, StopIs};
ghost use Rattle.source_set.specs.Stops as stops;
ghost use Rattle.winrt_words.specs.Words.{midl};
ghost use Rattle.wr_tools.specs.Outcomes.{OutcomeIs, IsReadFault};

use crate::said::Said;
use crate::set::image_of_set;
use source_set::{SourceSet, SourceStop, line_of, refusal_line, sources};
use std::alloc::{AllocError, Global};
use wr_base::{Memory, Stop};
use wr_outside::Store;

/// What compiling comes to.
#[derive(Debug, Drop)]
pub(crate) enum Outcome {
    /// What is refused, 1 or 3: the name, and what is said of it.
    Refused(Said, String),
    /// Reading the file of this name failed.
    ReadFault(String),
    /// The image's bytes.
    Image(Vec<u8>),
}

/// What a set comes to that isn't read whole.
fn stopped(alloc: Global, stop: SourceStop) -> Result<Outcome, Memory>
    ensures is { (out : List ℕ) (words : List (List ℕ)) (held : Option Files) → StopIs words held stop → IfOk result (OutcomeIs (midl (out, words)) held) }
    ensures fault { IfOk result (λ outcome. IsReadFault outcome → stops.IsReadFault stop) }
{
    match stop {
        SourceStop::TooMany(name) => Ok(Outcome::Refused(Said::TooMany, name)),
        SourceStop::Missing(name) => Ok(Outcome::Refused(Said::Missing, name)),
        SourceStop::TooLong(name) => Ok(Outcome::Refused(Said::TooLong, name)),
        SourceStop::ReadFault(name) => Ok(Outcome::ReadFault(name)),
        SourceStop::Refused(text, refusal) => {
            let line = refusal_line(alloc, text.name.as_str(), &text.bytes, &refusal)?;
            Ok(Outcome::Refused(Said::Refused, line))
        }
        SourceStop::Memory => Err(AllocError),
    }
}

/// What a set comes to whose files have trees. These are let go as soon as nothing asks for them; a refusal's line needs the texts alone.
fn resolved(alloc: Global, set: SourceSet) -> Result<Outcome, Memory>
    requires { length set.texts.items ≡ length set.files.items }
    ensures is { (out : List ℕ) (words : List (List ℕ)) (held : Option Files) → Complete words held (sources_in set) → IfOk result (OutcomeIs (midl (out, words)) held) }
    ensures fault { IfOk result (λ outcome. ¬ (IsReadFault outcome)) }
{
    let SourceSet { texts, files } = set;
    match image_of_set(alloc, files) {
        Ok(image) => Ok(Outcome::Image(image)),
        Err(Stop::Refused(refusal)) => {
            let line = line_of(alloc, &texts, &refusal)?;
            Ok(Outcome::Refused(Said::Refused, line))
        }
        Err(Stop::Memory) => Err(AllocError),
    }
}

/// What compiling the files of the words comes to.
pub(crate) fn compiled<S: Store>(
    alloc: Global,
    words: &[String],
    store: &mut S,
) -> Result<Outcome, Memory>
    ensures is { (out : List ℕ) → IfOk result (OutcomeIs (midl (out, map string_bytes words.now)) (S.held store.old)) }
    ensures kept { S.held store.new ≡ S.held store.old }
    ensures later { S.faults store.old ≤ S.faults store.new }
    ensures rose { IfOk result (λ outcome. IsReadFault outcome → Rose (S.faults store.old) (S.faults store.new)) }
{
    match sources(alloc, store, words) {
        Ok(set) => resolved(alloc, set),
        Err(stop) => stopped(alloc, stop),
    }
}
