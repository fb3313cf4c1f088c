//! The instances that are used.

ghost use Rattle.std.specs.Prelude.{◌≡◌, OnOk, map};
ghost use Rattle.kind_rows.specs.Said.{said};
ghost use Rattle.part_rows.specs.Grown.{with_line, with_lines};
ghost use Rattle.sig_blobs.specs.Numbers.{number_in};
ghost use Rattle.sig_blobs.specs.Writing.{use_bytes};
ghost use Rattle.winmd_sets.specs.Rows.{spec_line};
ghost use Rattle.wr_base.specs.Trees.{tree_of};

use kind_rows::{Out, Referred};
use part_rows::put_spec_row;
use ranked::Memory;
use sig_blobs::{Tokens, put_spec};
use wr_base::TypeUse;

// The use itself, in the buffer.
fn spell(blob: &mut Vec<u8>, ty: &TypeUse, tokens: &Tokens) -> Result<(), Memory>
    ensures { OnOk result (blob.new.items ≡ use_bytes (number_in tokens.now) (tree_of ty.now)) }
{
    blob.clear();
    put_spec(blob, ty, tokens)
}

fn put_instance<N: Referred>(out: &mut Out, names: &N, ty: &TypeUse) -> Result<(), Memory>
    ensures { OnOk result (said out.new ≡ with_line (N.names names.now) (spec_line (tree_of ty.now)) (said out.old)) }
{
    spell(&mut out.blob, ty, names.tokens())?;
    put_spec_row(&mut out.writer, &out.blob)
}

/// The TypeSpecs of these uses, in their order.
pub fn put_specs<N: Referred>(out: &mut Out, names: &N, uses: &[TypeUse]) -> Result<(), Memory>
    ensures { OnOk result (said out.new ≡ with_lines (N.names names.now) (map spec_line (map tree_of uses.now)) (said out.old)) }
{
    for ty in uses {
        put_instance(out, names, ty)?;
    }
    Ok(())
}
