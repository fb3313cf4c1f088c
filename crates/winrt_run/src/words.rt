// The words of a process's call.
ghost use Rattle.std.specs.Prelude.{◌≡◌};
ghost use Rattle.std.specs.IoError.{error_kind};

use std::env;
use std::io::{self, ErrorKind};

/// Why the words of a call can't be read.
#[derive(Clone, Copy, Debug, PartialEq, Eq)]
pub enum WordsRefusal {
    /// A word isn't UTF-8.
    NotText,
    Memory,
}

fn refusal_of(error: &io::Error) -> WordsRefusal
    ensures memory { error_kind error.now ≡ ErrorKind.OutOfMemory → result ≡ WordsRefusal.Memory }
    ensures text { ¬ (error_kind error.now ≡ ErrorKind.OutOfMemory) → result ≡ WordsRefusal.NotText }
{
    if error.kind() == ErrorKind::OutOfMemory {
        WordsRefusal::Memory
    } else {
        WordsRefusal::NotText
    }
}

/// The words behind the program's name.
pub fn words_of(rt: &HostRuntime) -> Result<Vec<String>, WordsRefusal> {
    let all = match env::args(rt) {
        Ok(all) => all,
        Err(error) => return Err(refusal_of(&error)),
    };
    let mut words = Vec::new(rt.alloc());
    for word in all.skip(1) {
        match words.push(word) {
            Ok(()) => {}
            Err(_) => return Err(WordsRefusal::Memory),
        }
    }
    Ok(words)
}
