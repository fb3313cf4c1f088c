//! Attributes' values as they are written (ECMA-335 II.23.3): exactly the value is appended, or the bytes are left as they were.

ghost use Rattle.std.specs.Prelude.{◌≡◌, ◌++◌, OnOk, OnErr};
ghost use Rattle.std.specs.List.{flat_map};
ghost use Rattle.byteorder.specs.Endian.{little_bytes, big_bytes};
ghost use Rattle.sig_blobs.specs.Appending.{KeepsFront};
ghost use Rattle.sig_blobs.specs.Attributes.{argument_bytes, guid_bytes, text_bytes, value_bytes};

use crate::argument::Argument;
use crate::cut_back::cut_back;
use crate::put::put_number;
use byteorder::{BigEndian, ByteOrder, LittleEndian};
use ranked::Memory;

// Appends a number of four bytes, the lowest first.
fn put_four(into: &mut Vec<u8>, number: u32) -> Result<(), Memory>
    ensures ok { OnOk result (into.new.items ≡ into.old.items ++ little_bytes 4 number) }
    ensures unchanged { OnErr result (into.new.items ≡ into.old.items) }
{
    let mut bytes = [0; 4];
    LittleEndian::write_u32(&mut bytes, number);
    into.extend_from_slice(&bytes)
}

// Appends a number of two bytes, the lowest first.
fn put_two(into: &mut Vec<u8>, number: u16) -> Result<(), Memory>
    ensures ok { OnOk result (into.new.items ≡ into.old.items ++ little_bytes 2 number) }
    ensures unchanged { OnErr result (into.new.items ≡ into.old.items) }
{
    let mut bytes = [0; 2];
    LittleEndian::write_u16(&mut bytes, number);
    into.extend_from_slice(&bytes)
}

// Appends a number of eight bytes, the highest first.
fn put_eight(into: &mut Vec<u8>, number: u64) -> Result<(), Memory>
    ensures ok { OnOk result (into.new.items ≡ into.old.items ++ big_bytes 8 number) }
    ensures unchanged { OnErr result (into.new.items ≡ into.old.items) }
{
    let mut bytes = [0; 8];
    BigEndian::write_u64(&mut bytes, number);
    into.extend_from_slice(&bytes)
}

// Appends the numbers of a Guid's four parts.
fn put_id(into: &mut Vec<u8>, id: u128) -> Result<(), Memory>
    ensures ok { OnOk result (into.new.items ≡ into.old.items ++ guid_bytes id) }
    ensures front { OnErr result (KeepsFront into.old.items into.new.items) }
{
    put_four(into, (id / (1 << 96)) as u32)?;
    put_two(into, (id / (1 << 80) % (1 << 16)) as u16)?;
    put_two(into, (id / (1 << 64) % (1 << 16)) as u16)?;
    put_eight(into, (id % (1 << 64)) as u64)
}

// Appends a text behind its length.
fn put_text(into: &mut Vec<u8>, text: &str) -> Result<(), Memory>
    ensures ok { OnOk result (into.new.items ≡ into.old.items ++ text_bytes text.now) }
    ensures front { OnErr result (KeepsFront into.old.items into.new.items) }
{
    put_number(into, text.len())?;
    into.extend_from_slice(text.as_bytes())
}

fn put_argument(into: &mut Vec<u8>, argument: &Argument) -> Result<(), Memory>
    ensures ok { OnOk result (into.new.items ≡ into.old.items ++ argument_bytes argument.now) }
    ensures front { OnErr result (KeepsFront into.old.items into.new.items) }
{
    match argument {
        Argument::Number(number) => put_four(into, *number),
        Argument::Words(text) => put_text(into, text.as_str()),
        Argument::TypeName(name) => put_text(into, name.as_str()),
        Argument::Id(id) => put_id(into, *id),
    }
}

fn put_arguments(into: &mut Vec<u8>, args: &[Argument]) -> Result<(), Memory>
    ensures ok { OnOk result (into.new.items ≡ into.old.items ++ flat_map argument_bytes args.now) }
    ensures front { OnErr result (KeepsFront into.old.items into.new.items) }
{
    for argument in args {
        put_argument(into, argument)?;
    }
    Ok(())
}

// Appends the value of an attribute; a part of it after want of memory.
fn append_attribute(into: &mut Vec<u8>, args: &[Argument]) -> Result<(), Memory>
    ensures ok { OnOk result (into.new.items ≡ into.old.items ++ value_bytes args.now) }
    ensures front { OnErr result (KeepsFront into.old.items into.new.items) }
{
    into.extend_from_slice(&[1, 0])?;
    put_arguments(into, args)?;
    into.extend_from_slice(&[0, 0])
}

/// Appends exactly the value of an attribute with these arguments, or leaves the bytes as they were.
pub fn put_attribute(into: &mut Vec<u8>, args: &[Argument]) -> Result<(), Memory>
    ensures ok { OnOk result (into.new.items ≡ into.old.items ++ value_bytes args.now) }
    ensures unchanged { OnErr result (into.new.items ≡ into.old.items) }
{
    let length = into.len();
    let answer = append_attribute(into, args);
    cut_back(into, length, answer)
}
