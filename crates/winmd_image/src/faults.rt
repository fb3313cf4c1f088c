//! Faults at offsets of the image.

ghost use Rattle.std.specs.Prelude.{◌≡◌, Err};
ghost use Rattle.md_schema.specs.Given.{Gives};
ghost use Rattle.winmd_image.specs.Faults as faults_as;

use md_schema::{ImageFault, ImageKind};

/// A fault at an offset.
pub fn fault(kind: ImageKind, offset: u64) -> ImageFault
    ensures { result ≡ record { kind = kind; offset = offset } }
{
    ImageFault { kind, offset }
}

/// A test that has to hold.
pub fn checked(holds: bool, kind: ImageKind, offset: u64) -> Result<bool, ImageFault>
    ensures { Gives (λ b. b) result (faults_as.checked holds kind offset) }
{
    if holds {
        Ok(true)
    } else {
        Err(fault(kind, offset))
    }
}
