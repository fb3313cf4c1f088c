//! Methods and fields, with their signatures.

ghost use Rattle.std.specs.Prelude.{◌≡◌, OnOk};
ghost use Rattle.kind_rows.specs.Said.{said};
ghost use Rattle.part_rows.specs.Grown.{with_line, with_lines};
ghost use Rattle.sig_blobs.specs.Numbers.{number_in};
ghost use Rattle.sig_blobs.specs.Writing.{field_bytes, method_bytes};
ghost use Rattle.winmd_lines.specs.Lines.{OfField};
ghost use Rattle.winmd_sets.specs.Members.{field_line, signature_lines};
ghost use Rattle.wr_base.specs.Trees.{signature_tree, tree_of};

use crate::out::Out;
use crate::referred::Referred;
use part_rows::{put_field_row, put_method_row, put_params};
use ranked::Memory;
use sig_blobs::{Tokens, put_field, put_method};
use wr_base::{Signature, TypeUse};

/// The signature of a method, in the buffer.
pub fn spell_method(blob: &mut Vec<u8>, sig: &Signature, tokens: &Tokens) -> Result<(), Memory>
    ensures { OnOk result (blob.new.items ≡ method_bytes (number_in tokens.now) (signature_tree sig.now)) }
{
    blob.clear();
    put_method(blob, sig, tokens)
}

/// The signature of a field, in the buffer.
pub fn spell_field(blob: &mut Vec<u8>, ty: &TypeUse, tokens: &Tokens) -> Result<(), Memory>
    ensures { OnOk result (blob.new.items ≡ field_bytes (number_in tokens.now) (tree_of ty.now)) }
{
    blob.clear();
    put_field(blob, ty, tokens)
}

/// A method with this signature, and its parameters.
pub fn put_signature<N: Referred>(
    out: &mut Out,
    names: &N,
    flags: u32,
    impl_flags: u32,
    name: &[u8],
    sig: &Signature,
) -> Result<(), Memory>
    ensures { OnOk result (said out.new ≡ with_lines (N.names names.now) (signature_lines flags impl_flags name.now (signature_tree sig.now)) (said out.old)) }
{
    spell_method(&mut out.blob, sig, names.tokens())?;
    put_method_row(&mut out.writer, flags, impl_flags, name, &out.blob)?;
    put_params(&mut out.writer, sig.params.as_slice())
}

/// A field of this type.
pub fn put_typed_field<N: Referred>(
    out: &mut Out,
    names: &N,
    flags: u32,
    name: &str,
    ty: &TypeUse,
) -> Result<(), Memory>
    ensures { OnOk result (said out.new ≡ with_line (N.names names.now) (field_line flags name.now (OfField (tree_of ty.now))) (said out.old)) }
{
    spell_field(&mut out.blob, ty, names.tokens())?;
    put_field_row(&mut out.writer, flags, name, &out.blob)
}
