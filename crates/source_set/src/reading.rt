//! One file: read, lexed and parsed.

ghost use Rattle.std.specs.Prelude.{◌≡◌, ◌≤◌, length, IfOk, IfErr, string_bytes};
ghost use Rattle.wr_outside.specs.Cause.{Rose};
ghost use Rattle.midl_tree.specs.Views.{source_view};
ghost use Rattle.source_set.specs.Phases.{HasTree, RefusesFile};
ghost use Rattle.source_set.specs.Stops.{IsReadFault};
ghost use Rattle.source_set.specs.Turns.{Turn};

use crate::source::{Source, SourceStop, Text};
use midl_lex::{fault_is_first_entry, tokens, tokens_or_fault};
use midl_parse::parse;
use midl_tree::File;
use std::alloc::Global;
use wr_base::{Refusal, Stop};
use wr_outside::{ReadRefusal, Store, read_whole};

/// The tree of the bytes of a file, or their first fault.
fn tree_of(alloc: Global, number: u32, bytes: &[u8]) -> Result<File, Stop<Refusal>>
    requires { length bytes.now ≤ 4194304 }
    ensures tree { IfOk result (λ file. HasTree bytes.now (source_view file)) }
    ensures numbered { IfOk result (λ file. file.number ≡ number) }
    ensures refused { IfErr result (RefusesFile number bytes.now) }
{
    fault_is_first_entry(number, bytes);
    tokens_or_fault(bytes);
    match tokens(alloc, number, bytes) {
        Ok(tokens) => parse(alloc, number, &tokens),
        Err(stop) => Err(stop),
    }
}

/// The file of this name, which has at most so many bytes, with its tree; or why there is none.
pub(crate) fn take_file<S: Store>(
    alloc: Global,
    store: &mut S,
    name: String,
    number: u32,
    limit: u64,
) -> Result<Source, SourceStop>
    requires { limit ≤ 4194304 }
    ensures turn { Turn (S.held store.old) number limit (string_bytes name) result }
    ensures kept { S.held store.new ≡ S.held store.old }
    ensures later { S.faults store.old ≤ S.faults store.new }
    ensures rose { IfErr result (λ stop. IsReadFault stop → Rose (S.faults store.old) (S.faults store.new)) }
{
    let bytes = match read_whole(alloc, store, name.as_str(), limit) {
        Ok(bytes) => bytes,
        Err(ReadRefusal::Missing) => return Err(SourceStop::Missing(name)),
        Err(ReadRefusal::TooLong(_)) => return Err(SourceStop::TooLong(name)),
        Err(ReadRefusal::Fault) => return Err(SourceStop::ReadFault(name)),
        Err(ReadRefusal::Memory) => return Err(SourceStop::Memory),
    };
    match tree_of(alloc, number, &bytes) {
        Ok(file) => Ok(Source {
            text: Text { name, bytes },
            file,
        }),
        Err(Stop::Refused(refusal)) => Err(SourceStop::Refused(Text { name, bytes }, refusal)),
        Err(Stop::Memory) => Err(SourceStop::Memory),
    }
}
