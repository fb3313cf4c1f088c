//! Modifiers, which are passed over (ECMA-335 II.23.2.7).

ghost use Rattle.std.specs.Prelude.{◌≡◌, drop, length};
ghost use Rattle.sig_blobs.specs.Given.{Gives};
ghost use Rattle.sig_blobs.specs.Uses as uses;

use crate::flaw::Flaw;
use crate::integers::integer;
use ranked::Stop;

// Whether a modifier is at the front.
fn begins_modifier(bytes: &[u8]) -> bool
    ensures { result ≡ uses.begins_modifier bytes.now }
{
    match bytes.split_first() {
        Some((first, _)) => *first == 0x1F || *first == 0x20,
        None => false,
    }
}

// The bytes behind the first.
fn behind_first(bytes: &[u8]) -> &[u8]
    ensures { result.now ≡ drop 1 bytes.now }
{
    match bytes.split_first() {
        Some((_, rest)) => rest,
        None => bytes,
    }
}

/// The bytes behind any modifiers.
pub(crate) fn unmodified(bytes: &[u8]) -> Result<&[u8], Stop<Flaw>>
    ensures { Gives (λ x. x.now) result (uses.unmodified bytes.now) }
{
    let mut rest = bytes;
    'more: while begins_modifier(rest) {
        let (_, behind) = integer(behind_first(rest))?;
        rest = behind;
    }
    Ok(rest)
}
