//! What reading a source set answers.

ghost use Rattle.std.specs.Prelude.{◌≡◌};

use midl_tree::File;
use std::alloc::{AllocError, AllocFailed};
use wr_base::Refusal;

/// The text of a file: its name and its bytes.
#[derive(Debug, Drop)]
pub struct Text {
    pub name: String,
    pub bytes: Vec<u8>,
}

/// A file of the set: its text and its tree. The tree's number is the file's place in the set, from 0.
#[derive(Debug, Drop)]
pub struct Source {
    pub text: Text,
    pub file: File,
}

/// Why a set is not read whole, with the name of the file.
#[derive(Debug, Drop)]
pub enum SourceStop {
    /// The 257th file.
    TooMany(String),
    /// The store doesn't hold it.
    Missing(String),
    /// It has more than 4,194,304 bytes, or than the files before it leave of 16,777,216.
    TooLong(String),
    /// The store failed.
    ReadFault(String),
    /// A fault in this text.
    Refused(Text, Refusal),
    Memory,
}

impl From<AllocError> for SourceStop {
    ghost use Rattle.source_set.specs.declared.source.SourceStop.TheVariants.{Memory};

    ghost from_gives = { λ _ e. e ≡ Memory };

    fn from(_e: AllocError) -> SourceStop {
        SourceStop::Memory
    }
}

impl<T: Drop> From<AllocFailed<T>> for SourceStop {
    ghost use Rattle.source_set.specs.declared.source.SourceStop.TheVariants.{Memory};

    ghost from_gives = { λ _ e. e ≡ Memory };

    fn from(_e: AllocFailed<T>) -> SourceStop {
        SourceStop::Memory
    }
}
