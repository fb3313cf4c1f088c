//! Parts and numbers at offsets, whether or not all of their bytes are there.

ghost use Rattle.std.specs.Prelude.{◌≡◌, ◌+◌, ◌≤◌, ◌<◌, ◌^◌, ◌==◌, IfOk, OnOk, length, position};
ghost use Rattle.md_bytes.specs.Bytes as bytes_as;
ghost use Rattle.md_schema.specs.Given.{Gives};
ghost use Rattle.winmd_image.specs.Faults as faults_as;
ghost use Rattle.winmd_image.specs.Root.{name_to_zero};

use crate::faults::fault;
use md_bytes::number;
use md_schema::{ImageFault, ImageKind};

/// The bytes from an offset on, so many, or those of them that are there.
pub fn part(bytes: &[u8], at: u64, size: u64) -> &[u8]
    ensures value { result.now ≡ bytes_as.part_at bytes.now at size }
    ensures short { length result.now ≤ size }
{
    let length = bytes.len() as u64;
    if at >= length {
        return &[];
    }
    let rest = &bytes[at as usize..];
    if size >= length - at {
        return rest;
    }
    &rest[..size as usize]
}

/// The number of up to four bytes at an offset, low byte first. Bytes that aren't there count as 0.
pub fn number_at(bytes: &[u8], at: u64, width: u64) -> u32
    requires { width ≤ 4 }
    ensures { result ≡ bytes_as.number_at bytes.now at width }
{
    number(part(bytes, at, width))
}

/// The number at an offset, all of whose bytes have to be there.
pub fn field(bytes: &[u8], kind: ImageKind, at: u64, width: u64) -> Result<u64, ImageFault>
    requires { width ≤ 4 }
    ensures exact { Gives (λ n. n) result (faults_as.field bytes.now kind at width) }
    ensures small { IfOk result (λ n. n < 2 ^ 32) }
    ensures whole { OnOk result (at + width ≤ length bytes.now) }
{
    let length = bytes.len() as u64;
    if at > length || width > length - at {
        return Err(fault(kind, at));
    }
    Ok(number_at(bytes, at, width) as u64)
}

/// Whether a text stands at an offset.
pub fn begins(bytes: &[u8], at: u64, text: &[u8]) -> bool
    ensures { result ≡ faults_as.begins bytes.now at text.now }
{
    part(bytes, at, text.len() as u64) == text
}

/// Where the first zero is.
fn first_zero(bytes: &[u8]) -> Option<usize>
    ensures { result ≡ position (λ b. b == 0) bytes.now }
{
    bytes.iter().position(|byte| *byte == 0)
}

/// The bytes before the first zero, or all of them.
pub(crate) fn to_zero(bytes: &[u8]) -> &[u8]
    ensures value { result.now ≡ name_to_zero bytes.now }
    ensures short { length result.now ≤ length bytes.now }
{
    match first_zero(bytes) {
        Some(end) => &bytes[..end],
        None => bytes,
    }
}
