//! Whole files.

ghost use Rattle.std.specs.Prelude.{◌≡◌, List, Ok, IfOk, IfErr};
ghost use Rattle.midl_words.specs.Reading.{Gives};
ghost use Rattle.midl_tree.specs.Trees.{SourceTree};
ghost use Rattle.midl_parse.specs.Files.{IsSource};
ghost use Rattle.midl_parse.specs.ReadFiles.{source_at};
ghost use Rattle.midl_parse.specs.Faults.{StandsAt};
ghost use Rattle.midl_tree.specs.Views.{source_view};

use crate::imports::imports_of;
use crate::items::spaces_of;
use midl_tree::{File, Terminal};
use midl_words::{Code, Stop};
use std::alloc::Global;

/// How many levels of namespaces, and of type uses, there may be inside the first.
const DEPTH: u32 = 15;

#[tactic(auto, unfolding(crate::specs::ReadFiles::source_at, crate::specs::ReadFiles::source_with))]
fn all_of(alloc: Global, number: u32, tokens: &[Terminal]) -> Result<File, Stop>
    ensures gives { Gives source_view result (source_at tokens.now) }
    ensures number { IfOk result (λ file. file.number ≡ number) }
{
    let (imports, rest) = imports_of(alloc, tokens)?;
    let (items, rest) = spaces_of(alloc, DEPTH, DEPTH, rest)?;
    match rest {
        [] => Ok(File {
            number,
            imports,
            items,
        }),
        [_, ..] => Err(Stop::Fault(Code::Syntax, rest.len())),
    }
}

/// The tree of a file's tokens, exactly where they have one; else the first fault.
pub(crate) fn source_of(alloc: Global, number: u32, tokens: &[Terminal]) -> Result<File, Stop>
    // What is read is a tree of the tokens.
    ensures found { IfOk result (λ file. IsSource tokens.now (source_view file)) }
    // Tokens that have a tree have this one alone, and it is read, unless memory runs out.
    ensures only { (tree : SourceTree) → IsSource tokens.now tree → Gives source_view result (Ok tree) }
    // The file has its number.
    ensures number { IfOk result (λ file. file.number ≡ number) }
    // A fault stands at the first token at which no file goes on.
    ensures fault { IfErr result (λ stop. StandsAt tokens.now stop) }
{
    all_of(alloc, number, tokens)
}
