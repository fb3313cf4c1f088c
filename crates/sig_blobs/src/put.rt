//! Elements, numbers and tokens as they are written. After want of memory a part may stand at the end.

ghost use Rattle.std.specs.Prelude.{◌≡◌, ◌++◌, ◌∷◌, OnOk, OnErr};
ghost use Rattle.md_heaps.specs.Integers.{shortest};
ghost use Rattle.sig_blobs.specs.Appending.{KeepsFront};
ghost use Rattle.sig_blobs.specs.Elements.{is_guid};
ghost use Rattle.sig_blobs.specs.Numbers.{number_in};
ghost use Rattle.sig_blobs.specs.Writing.{base_bytes, template_bytes};

use crate::elements::element_of;
use crate::templates::template;
use crate::tokens::Tokens;
use md_heaps::put_compressed;
use ranked::Memory;
use std::alloc::AllocError;
use wr_base::{Base, FullName};

/// Appends a number in its shortest form. One of 2^29 or more has none (II.23.2), which is want of memory.
pub(crate) fn put_number(into: &mut Vec<u8>, number: usize) -> Result<(), Memory>
    ensures ok { OnOk result (into.new.items ≡ into.old.items ++ shortest number) }
    ensures unchanged { OnErr result (into.new.items ≡ into.old.items) }
{
    if number < 0x2000_0000 {
        put_compressed(into, number as u32)
    } else {
        Err(AllocError)
    }
}

/// Appends an element and the number of the type of this name.
pub(crate) fn put_token(
    into: &mut Vec<u8>,
    element: u8,
    name: &str,
    tokens: &Tokens,
) -> Result<(), Memory>
    ensures ok { OnOk result (into.new.items ≡ into.old.items ++ element ∷ shortest (number_in tokens.now name.now)) }
    ensures front { OnErr result (KeepsFront into.old.items into.new.items) }
{
    into.push(element)?;
    put_number(into, tokens.number(name) as usize)
}

fn tests_guid(base: Base) -> bool
    ensures { result ≡ is_guid base }
{
    match base {
        Base::Guid => true,
        _ => false,
    }
}

/// Appends a base type.
pub(crate) fn put_base(into: &mut Vec<u8>, base: Base, tokens: &Tokens) -> Result<(), Memory>
    ensures ok { OnOk result (into.new.items ≡ into.old.items ++ base_bytes (number_in tokens.now) base) }
    ensures front { OnErr result (KeepsFront into.old.items into.new.items) }
{
    if tests_guid(base) {
        return put_token(into, 0x11, "System.Guid", tokens);
    }
    into.push(element_of(base))?;
    Ok(())
}

/// Appends a template and how many arguments follow.
pub(crate) fn put_template(
    into: &mut Vec<u8>,
    name: &FullName,
    count: usize,
    tokens: &Tokens,
) -> Result<(), Memory>
    ensures ok { OnOk result (into.new.items ≡ into.old.items ++ template_bytes (number_in tokens.now) name.now count) }
    ensures front { OnErr result (KeepsFront into.old.items into.new.items) }
{
    let full = template(*into.allocator(), name, count)?;
    into.push(0x15)?;
    put_token(into, 0x12, full.as_str(), tokens)?;
    put_number(into, count)
}
