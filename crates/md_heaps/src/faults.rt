//! The faults that the readers of heaps find.
ghost use Rattle.std.specs.Prelude.{◌≡◌};
ghost use Rattle.md_schema.specs.Faults.{fault_at as fault_there};

use md_schema::{ImageFault, ImageKind};

/// A fault at an offset in the bytes that the reader was given.
pub(crate) fn fault_at(kind: ImageKind, offset: u32) -> ImageFault
    ensures { result ≡ fault_there kind offset }
{
    ImageFault {
        kind,
        offset: offset as u64,
    }
}
