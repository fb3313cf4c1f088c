//! The commands, by their names.

ghost use Rattle.std.specs.Prelude.{◌≡◌, IfOk, is_some, map, string_bytes, option_map};
ghost use Rattle.winrt_words.specs.Words.{command_seen, is_taken, named_by, named_in, takes_by};

use crate::given::{Given, files_given};
use std::alloc::{AllocError, Global};

/// A command, with what its words give it.
#[derive(Debug, Drop)]
pub enum Command {
    /// `midl -o OUT FILE..`
    Midl(Given),
    /// `mdmerge -o OUT IMAGE..`
    MdMerge(Given),
}

// The command of this name, if its form takes the words.
fn command_by(alloc: Global, name: &str, words: &[String]) -> Result<Option<Command>, AllocError>
    ensures named { IfOk result (λ command. option_map command_seen command ≡ named_by name.now (map string_bytes words.now)) }
    ensures taken { IfOk result (λ command. is_some command ≡ takes_by name.now (map string_bytes words.now)) }
{
    match name {
        "midl" => Ok(files_given(alloc, name, words)?.map(Command::Midl)),
        "mdmerge" => Ok(files_given(alloc, name, words)?.map(Command::MdMerge)),
        _ => Ok(None),
    }
}

/// The command that the words name, of which the first is its name; `None` where they name none. Want of memory is the one error.
pub fn command_of(alloc: Global, words: &[String]) -> Result<Option<Command>, AllocError>
    ensures named { IfOk result (λ command. option_map command_seen command ≡ named_in (map string_bytes words.now)) }
    // They name a command exactly where the form of the one whose name the first word is takes them.
    ensures taken { IfOk result (λ command. is_some command ≡ is_taken (map string_bytes words.now)) }
{
    match words.first() {
        Some(name) => command_by(alloc, name.as_str(), words),
        None => Ok(None),
    }
}
