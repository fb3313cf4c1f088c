//! The rows of delegates.

ghost use Rattle.std.specs.Prelude.{◌≡◌, ◌∷◌, ◌++◌, [], OnOk, codes};
ghost use Rattle.kind_rows.specs.Said.{said};
ghost use Rattle.part_rows.specs.Grown.{with_lines};
ghost use Rattle.part_rows.specs.Nothing.{nothing};
ghost use Rattle.row_writer.specs.Seen.{seen};
ghost use Rattle.winmd_lines.specs.Lines.{Bytes};
ghost use Rattle.winmd_sets.specs.Declared.{lines_of};
ghost use Rattle.winmd_sets.specs.Members.{method_lines, signature_lines};
ghost use Rattle.wr_base.specs.Trees as trees;
ghost use Rattle.wr_base.specs.Trees.{signature_tree};

use crate::attributes::{put_id, put_version};
use crate::methods::put_signature;
use crate::out::Out;
use crate::referred::Referred;
use crate::types::put_type;
use part_rows::put_method_row;
use ranked::Memory;
use row_writer::Writer;
use wr_base::{FullName, Signature};

// The constructor, which takes an object and a native integer.
fn put_constructor(writer: &mut Writer) -> Result<(), Memory>
    ensures { OnOk result (seen writer.new ≡ with_lines nothing (method_lines 0x1881 3 (codes ".ctor") (Bytes (0x20 ∷ 2 ∷ 0x01 ∷ 0x1C ∷ 0x18 ∷ [])) []) (seen writer.old)) }
{
    put_method_row(writer, 0x1881, 3, b".ctor", &[0x20, 2, 0x01, 0x1C, 0x18])
}

fn put_methods<N: Referred>(out: &mut Out, names: &N, invoke: &Signature) -> Result<(), Memory>
    ensures { OnOk result (said out.new ≡ with_lines (N.names names.now) (method_lines 0x1881 3 (codes ".ctor") (Bytes (0x20 ∷ 2 ∷ 0x01 ∷ 0x1C ∷ 0x18 ∷ [])) []
        ++ signature_lines 0x09C6 3 (codes "Invoke") (signature_tree invoke.now)) (said out.old)) }
{
    put_constructor(&mut out.writer)?;
    put_signature(out, names, 0x09C6, 3, b"Invoke", invoke)
}

/// A delegate (ECMA-335 II.14.6).
pub fn put_delegate<N: Referred>(
    out: &mut Out,
    names: &N,
    name: &FullName,
    version: u32,
    id: u128,
    invoke: &Signature,
) -> Result<(), Memory>
    ensures { OnOk result (said out.new ≡ with_lines (N.names names.now) (lines_of (trees.delegate name.now version id (signature_tree invoke.now))) (said out.old)) }
{
    put_type(out, names, 0x4101, name, "System.MulticastDelegate")?;
    put_id(out, names, id)?;
    put_version(out, names, version)?;
    put_methods(out, names, invoke)
}
