//! Faults.

ghost use Rattle.std.specs.Prelude.{◌≡◌};

use md_schema::{ImageFault, ImageKind};
use ranked::Stop;

/// A fault at an offset of the image.
pub fn refused(kind: ImageKind, offset: u64) -> Stop<ImageFault>
    ensures { result ≡ Stop.Refused (record { kind = kind; offset = offset }) }
{
    Stop::Refused(ImageFault { kind, offset })
}
