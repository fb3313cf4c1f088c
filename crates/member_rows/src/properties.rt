//! Properties (ECMA-335 II.22.34).

ghost use Rattle.std.specs.Prelude.{◌≡◌, ◌++◌, ◌∷◌, [], OnOk, codes};
ghost use Rattle.kind_rows.specs.Said.{said};
ghost use Rattle.md_schema.specs.declared.table.Table.TheVariants as tables;
ghost use Rattle.part_rows.specs.Grown.{with_line, with_lines};
ghost use Rattle.sig_blobs.specs.Numbers.{number_in};
ghost use Rattle.sig_blobs.specs.Writing.{property_bytes};
ghost use Rattle.winmd_lines.specs.Lines.{line, Number, Words, OfProperty};
ghost use Rattle.winmd_sets.specs.Members.{accessor, getter, member_lines, setter, when};
ghost use Rattle.wr_base.specs.Trees.{property, tree_of};

use crate::accessors::put_property_accessor;
use crate::signatures::{getter_of, setter_of};
use kind_rows::{Out, Referred};
use part_rows::put_property_row;
use ranked::{Memory, Name};
use sig_blobs::{Tokens, put_property as put_blob};
use wr_base::TypeUse;

// The signature of a property, in the buffer.
fn spell_property(blob: &mut Vec<u8>, ty: &TypeUse, tokens: &Tokens) -> Result<(), Memory>
    ensures { OnOk result (blob.new.items ≡ property_bytes (number_in tokens.now) (tree_of ty.now)) }
{
    blob.clear();
    put_blob(blob, ty, tokens)
}

// The row of the property itself.
fn put_own<N: Referred>(out: &mut Out, names: &N, name: &Name, ty: &TypeUse) -> Result<(), Memory>
    ensures { OnOk result (said out.new ≡ with_line (N.names names.now) (line tables.Property (Number 0 ∷ Words name.now ∷ OfProperty (tree_of ty.now) ∷ [])) (said out.old)) }
{
    spell_property(&mut out.blob, ty, names.tokens())?;
    put_property_row(&mut out.writer, name.as_str(), &out.blob)
}

fn put_getter<N: Referred>(
    out: &mut Out,
    names: &N,
    name: &Name,
    ty: &TypeUse,
) -> Result<(), Memory>
    ensures { OnOk result (said out.new ≡ with_lines (N.names names.now) (accessor tables.Property 2 (codes "get_" ++ name.now) (getter (tree_of ty.now))) (said out.old)) }
{
    let sig = getter_of(out.alloc, ty)?;
    put_property_accessor(out, names, 2, "get_", name, &sig)
}

fn put_setter<N: Referred>(
    out: &mut Out,
    names: &N,
    name: &Name,
    ty: &TypeUse,
) -> Result<(), Memory>
    ensures { OnOk result (said out.new ≡ with_lines (N.names names.now) (accessor tables.Property 1 (codes "put_" ++ name.now) (setter (tree_of ty.now))) (said out.old)) }
{
    let sig = setter_of(out.alloc, ty)?;
    put_property_accessor(out, names, 1, "put_", name, &sig)
}

fn put_setter_if<N: Referred>(
    out: &mut Out,
    names: &N,
    put: bool,
    name: &Name,
    ty: &TypeUse,
) -> Result<(), Memory>
    ensures { OnOk result (said out.new ≡ with_lines (N.names names.now) (when put (accessor tables.Property 1 (codes "put_" ++ name.now) (setter (tree_of ty.now)))) (said out.old)) }
{
    if !put {
        return Ok(());
    }
    put_setter(out, names, name, ty)
}

/// A property of the last type, with its accessors.
pub fn put_property<N: Referred>(
    out: &mut Out,
    names: &N,
    name: &Name,
    ty: &TypeUse,
    put: bool,
) -> Result<(), Memory>
    ensures { OnOk result (said out.new ≡ with_lines (N.names names.now) (member_lines [] (property name.now (tree_of ty.now) put)) (said out.old)) }
{
    put_own(out, names, name, ty)?;
    put_getter(out, names, name, ty)?;
    put_setter_if(out, names, put, name, ty)
}
