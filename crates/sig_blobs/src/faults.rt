//! Flaws where they are found, and as faults of a blob.

ghost use Rattle.std.specs.Prelude.{◌≡◌, length};
ghost use Rattle.sig_blobs.specs.Given.{Fails};
ghost use Rattle.sig_blobs.specs.Reading.{fault_in, stop_in};

use crate::flaw::Flaw;
use md_schema::{ImageFault, ImageKind};
use ranked::Stop;

/// What is wrong where these bytes begin.
pub(crate) fn flaw_at(kind: ImageKind, bytes: &[u8]) -> Stop<Flaw>
    ensures { result ≡ Stop.Refused (record { kind = kind; left = length bytes.now }) }
{
    Stop::Refused(Flaw {
        kind,
        left: bytes.len(),
    })
}

/// The fault of a blob.
pub(crate) fn placed(blob: &[u8], stop: Stop<Flaw>) -> Stop<ImageFault>
    ensures { result ≡ stop_in blob.now stop }
{
    match stop {
        Stop::Memory => Stop::Memory,
        Stop::Refused(flaw) => Stop::Refused(ImageFault {
            kind: flaw.kind,
            offset: blob.len().saturating_sub(flaw.left) as u64,
        }),
    }
}
