//! The file of tokens, or its first fault.

ghost use Rattle.std.specs.Prelude.{◌≡◌, List, Some, IfOk, IfErr, map};
ghost use Rattle.ranked.specs.Entries.{Entry};
ghost use Rattle.ranked.specs.First.{IsFirst};
ghost use Rattle.midl_words.specs.Words.{terminal_of};
ghost use Rattle.midl_tree.specs.Trees.{SourceTree};
ghost use Rattle.midl_parse.specs.Files.{IsSource};
ghost use Rattle.midl_tree.specs.Views.{source_view};
ghost use Rattle.midl_parse.specs.Entries.{Parsing, Parses, RefusedFirst, Refuses};

use crate::parsing::source_of;
use crate::refusal::refusal;
use midl_lex::Token;
use midl_tree::File;
use midl_words::terminals_of;
use std::alloc::Global;
use wr_base::{Refusal, Stop};

/// The tree of a file's tokens, or the first fault: the first token at which no file goes on.
pub fn parse(alloc: Global, file: u32, tokens: &[Token]) -> Result<File, Stop<Refusal>>
    // What is read is a tree of the tokens.
    ensures ok { IfOk result (λ parsed. IsSource (map terminal_of tokens.now) (source_view parsed)) }
    // It has the file's number.
    ensures number { IfOk result (λ parsed. parsed.number ≡ file) }
    // A tree that the tokens have is read, unless memory runs out.
    ensures only { (tree : SourceTree) → IsSource (map terminal_of tokens.now) tree → Parses tree result }
    // A refusal is the first fault.
    ensures refused { IfErr result (λ stop. RefusedFirst file tokens.now stop) }
    // The first fault is refused, unless memory runs out.
    ensures first { (e : Entry) → IsFirst (Parsing file tokens.now) (Some e) → Refuses e result }
{
    let terminals = terminals_of(alloc, tokens)?;
    match source_of(alloc, file, &terminals) {
        Ok(parsed) => Ok(parsed),
        Err(midl_words::Stop::Memory) => Err(Stop::Memory),
        Err(midl_words::Stop::Fault(code, left)) => {
            Err(Stop::Refused(refusal(alloc, file, tokens, code, left)?))
        }
    }
}
