//! Accessors: methods that read and put a property, or add and remove an event's handlers (ECMA-335 II.22.28).

ghost use Rattle.std.specs.Prelude.{◌≡◌, ◌++◌, IfOk, OnOk, string_bytes};
ghost use Rattle.kind_rows.specs.Said.{said};
ghost use Rattle.md_schema.specs.declared.table.Table.TheVariants as tables;
ghost use Rattle.part_rows.specs.Grown.{with_lines};
ghost use Rattle.winmd_sets.specs.Members.{accessor, signature_lines};
ghost use Rattle.wr_base.specs.Trees.{signature_tree};

use kind_rows::{Out, Referred, put_signature};
use part_rows::{put_event_semantics, put_property_semantics};
use ranked::{Memory, Name};
use std::alloc::Global;
use wr_base::Signature;

// The name of an accessor.
fn prefixed(alloc: Global, prefix: &str, name: &Name) -> Result<String, Memory>
    ensures { IfOk result (λ text. string_bytes text ≡ prefix.now ++ name.now) }
{
    let mut text = String::from_str(alloc, prefix)?;
    text.push_str(name.as_str())?;
    Ok(text)
}

fn put_accessor<N: Referred>(
    out: &mut Out,
    names: &N,
    prefix: &str,
    name: &Name,
    sig: &Signature,
) -> Result<(), Memory>
    ensures { OnOk result (said out.new ≡ with_lines (N.names names.now) (signature_lines 0x0DC6 0 (prefix.now ++ name.now) (signature_tree sig.now)) (said out.old)) }
{
    let text = prefixed(out.alloc, prefix, name)?;
    put_signature(out, names, 0x0DC6, 0, text.as_bytes(), sig)
}

/// A method with this meaning for the last property: 1 its setter, 2 its getter.
pub fn put_property_accessor<N: Referred>(
    out: &mut Out,
    names: &N,
    meaning: u32,
    prefix: &str,
    name: &Name,
    sig: &Signature,
) -> Result<(), Memory>
    ensures { OnOk result (said out.new ≡ with_lines (N.names names.now) (accessor tables.Property meaning (prefix.now ++ name.now) (signature_tree sig.now)) (said out.old)) }
{
    put_accessor(out, names, prefix, name, sig)?;
    put_property_semantics(&mut out.writer, meaning)
}

/// A method with this meaning for the last event: 8 its adder, 16 its remover.
pub fn put_event_accessor<N: Referred>(
    out: &mut Out,
    names: &N,
    meaning: u32,
    prefix: &str,
    name: &Name,
    sig: &Signature,
) -> Result<(), Memory>
    ensures { OnOk result (said out.new ≡ with_lines (N.names names.now) (accessor tables.Event meaning (prefix.now ++ name.now) (signature_tree sig.now)) (said out.old)) }
{
    put_accessor(out, names, prefix, name, sig)?;
    put_event_semantics(&mut out.writer, meaning)
}
