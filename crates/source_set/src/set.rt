//! All files of a set, in their order.

ghost use Rattle.std.specs.Prelude.{◌≡◌, ◌≤◌, List, ℕ, [], length, map, IfOk, IfErr, OnOk, string_bytes};
ghost use Rattle.wr_outside.specs.Cause.{Rose};
ghost use Rattle.source_set.specs.Found.{once, first_names};
ghost use Rattle.source_set.specs.Reads.{sources_in};
ghost use Rattle.source_set.specs.Stops.{Complete, StopIs, IsReadFault};

use crate::files::SourceSet;
use crate::imports::add_imports;
use crate::names::Names;
use crate::reading::take_file;
use crate::source::SourceStop;
use std::alloc::{AllocError, Global};
use wr_outside::Store;

/// How many files a set may have.
const MOST_FILES: usize = 256;
/// How many bytes a file may have.
const FILE_LIMIT: u64 = 4_194_304;
/// How many bytes all files of a set may have.
const SET_LIMIT: u64 = 16_777_216;

fn first_names(alloc: Global, words: &[String]) -> Result<Names, AllocError>
    ensures { IfOk result (λ names. names ≡ first_names (once (map string_bytes words.now))) }
{
    let mut names = Names::new(alloc);
    for word in words {
        names.add(String::from_str(alloc, word.as_str())?)?;
    }
    Ok(names)
}

// Reads on until each name is that of a file of the set.
fn read_on<S: Store>(
    alloc: Global,
    store: &mut S,
    names: &mut Names,
    set: &mut SourceSet,
) -> Result<(), SourceStop>
    requires texts { set.old.texts.items ≡ [] }
    requires files { set.old.files.items ≡ [] }
    ensures ok { OnOk result ((words : List (List ℕ)) → names.old ≡ first_names (once words) → Complete words (S.held store.old) (sources_in set.new)) }
    ensures paired { OnOk result (length set.new.texts.items ≡ length set.new.files.items) }
    ensures stopped { IfErr result (λ stop. (words : List (List ℕ)) → names.old ≡ first_names (once words) → StopIs words (S.held store.old) stop) }
    ensures kept { S.held store.new ≡ S.held store.old }
    ensures later { S.faults store.old ≤ S.faults store.new }
    ensures rose { IfErr result (λ stop. IsReadFault stop → Rose (S.faults store.old) (S.faults store.new)) }
{
    let mut left = SET_LIMIT;
    'more: while let Some(name) = names.at(set.files.len()) {
        let name = String::from_str(alloc, name)?;
        let number = set.files.len();
        if number >= MOST_FILES {
            return Err(SourceStop::TooMany(name));
        }
        let source = take_file(alloc, store, name, number as u32, FILE_LIMIT.min(left))?;
        left -= source.text.bytes.len() as u64;
        add_imports(alloc, names, source.text.name.as_str(), &source.file)?;
        set.add(source)?;
    }
    Ok(())
}

/// The files that the words name and those that they import, each once, in the order in which they are found; or the first event.
pub fn sources<S: Store>(
    alloc: Global,
    store: &mut S,
    words: &[String],
) -> Result<SourceSet, SourceStop>
    // These are the sources of the set, which has no event.
    ensures ok { IfOk result (λ set. Complete (map string_bytes words.now) (S.held store.old) (sources_in set)) }
    // Each tree has its text.
    ensures paired { IfOk result (λ set. length set.texts.items ≡ length set.files.items) }
    // A refusal is the first event of the set; a read that failed is one before which no event stands.
    ensures stopped { IfErr result (StopIs (map string_bytes words.now) (S.held store.old)) }
    ensures kept { S.held store.new ≡ S.held store.old }
    ensures later { S.faults store.old ≤ S.faults store.new }
    // A read failed only where the store's count rose.
    ensures rose { IfErr result (λ stop. IsReadFault stop → Rose (S.faults store.old) (S.faults store.new)) }
{
    let mut names = first_names(alloc, words)?;
    let mut set = SourceSet::new(alloc);
    read_on(alloc, store, &mut names, &mut set)?;
    Ok(set)
}
