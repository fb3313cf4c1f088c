//! Compressed integers and single bytes at the front of a blob's bytes (ECMA-335 II.23.2).

ghost use Rattle.std.specs.Prelude.{◌≡◌, ◌<◌, IfOk, length};
ghost use Rattle.sig_blobs.specs.Given.{Gives};
ghost use Rattle.sig_blobs.specs.Reading as reading;

use crate::faults::flaw_at;
use crate::flaw::Flaw;
use md_heaps::compressed;
use md_schema::ImageKind;
use ranked::Stop;

/// The integer at the front, and the bytes behind it.
#[tactic(auto, unfolding(crate::specs::Reading::integer))]
pub(crate) fn integer(bytes: &[u8]) -> Result<(u32, &[u8]), Stop<Flaw>>
    ensures found { Gives (λ x. (x.0, x.1.now)) result (reading.integer bytes.now) }
    ensures shorter { IfOk result (λ x. length x.1.now < length bytes.now) }
{
    match compressed(bytes) {
        Ok((value, size)) => Ok((value, &bytes[size as usize..])),
        Err(fault) => Err(flaw_at(fault.kind, bytes)),
    }
}

/// The bytes behind this one, which is at the front.
pub(crate) fn byte(b: u8, bytes: &[u8]) -> Result<&[u8], Stop<Flaw>>
    ensures { Gives (λ x. x.now) result (reading.byte b bytes.now) }
{
    match bytes.split_first() {
        None => Err(flaw_at(ImageKind::SigShort, bytes)),
        Some((first, rest)) if *first == b => Ok(rest),
        Some(_) => Err(flaw_at(ImageKind::SigElement, bytes)),
    }
}
