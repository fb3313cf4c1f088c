//! Compressed unsigned integers (ECMA-335 II.23.2).
ghost use Rattle.std.specs.Prelude.{◌≡◌, ◌+◌, ◌<◌, ◌≤◌, ◌^◌, ◌↔◌, ◌++◌, ℕ, List, length, take, IfOk, OnOk, OnErr, Ok, Err};
ghost use Rattle.md_heaps.specs.Integers.{compressed_of, shortest, IsCut, HasBadLead, Spells};
ghost use Rattle.md_schema.specs.Faults.{fault_at as fault_there};

use crate::faults::fault_at;
use byteorder::{BigEndian, ByteOrder};
use md_schema::{ImageFault, ImageKind};
use ranked::Memory;

/// The integer at the front of the bytes, and how many bytes it takes. It may have any of the three lengths, not only the shortest
/// (II.23.2). A fault stands at offset 0.
pub fn compressed(bytes: &[u8]) -> Result<(u32, u32), ImageFault>
    ensures exact { result ≡ compressed_of bytes.now }
    ensures spelled { IfOk result (λ found. Spells (take found.1 bytes.now) found.0) }
    ensures within { IfOk result (λ found. found.1 ≤ length bytes.now) }
    ensures bad_lead { (result ≡ Err (fault_there ImageKind.BadLead 0)) ↔ HasBadLead bytes.now }
    ensures short { (result ≡ Err (fault_there ImageKind.Short 0)) ↔ IsCut bytes.now }
{
    if bytes.is_empty() {
        return Err(fault_at(ImageKind::Short, 0));
    }
    let lead = bytes[0];
    if lead < 0x80 {
        return Ok((lead as u32, 1));
    }
    if lead < 0xC0 {
        if bytes.len() < 2 {
            return Err(fault_at(ImageKind::Short, 0));
        }
        return Ok((BigEndian::read_u16(bytes) as u32 - 0x8000, 2));
    }
    if lead < 0xE0 {
        if bytes.len() < 4 {
            return Err(fault_at(ImageKind::Short, 0));
        }
        return Ok((BigEndian::read_u32(bytes) - 0xC000_0000, 4));
    }
    Err(fault_at(ImageKind::BadLead, 0))
}

/// Appends an integer in its shortest form (II.23.2).
pub fn put_compressed(into: &mut Vec<u8>, value: u32) -> Result<(), Memory>
    requires { value < 2 ^ 29 }
    ensures written { OnOk result (into.new.items ≡ into.old.items ++ shortest value) }
    ensures unchanged { OnErr result (into.new.items ≡ into.old.items) }
{
    if value < 0x80 {
        return into.extend_from_slice(&[value as u8]);
    }
    if value < 0x4000 {
        let mut two = [0; 2];
        BigEndian::write_u16(&mut two, (0x8000 + value) as u16);
        return into.extend_from_slice(&two);
    }
    let mut four = [0; 4];
    BigEndian::write_u32(&mut four, 0xC000_0000 + value);
    into.extend_from_slice(&four)
}

/// What is spelled in any form is read with its value and its length, whatever stands behind it, and the form that
/// `put_compressed` writes spells its value.
pub fn compressed_again()
    ensures read { (bytes rest : List ℕ) (value : ℕ) → Spells bytes value → compressed_of (bytes ++ rest) ≡ Ok (value, length bytes) }
    ensures written { (value : ℕ) → value < 2 ^ 29 → Spells (shortest value) value }
{}
