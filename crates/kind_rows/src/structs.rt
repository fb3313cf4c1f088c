//! The rows of structs.

ghost use Rattle.std.specs.Prelude.{◌≡◌, OnOk, map};
ghost use Rattle.kind_rows.specs.Said.{said};
ghost use Rattle.part_rows.specs.Grown.{with_lines};
ghost use Rattle.winmd_sets.specs.Declared.{body_lines, lines_of};
ghost use Rattle.winmd_sets.specs.Members.{struct_field};
ghost use Rattle.wr_base.specs.Trees as trees;
ghost use Rattle.wr_base.specs.Trees.{field_tree};

use crate::attributes::put_version;
use crate::methods::put_typed_field;
use crate::out::Out;
use crate::referred::Referred;
use crate::types::put_type;
use ranked::Memory;
use wr_base::{Field, FullName};

fn put_fields<N: Referred>(out: &mut Out, names: &N, fields: &[Field]) -> Result<(), Memory>
    ensures { OnOk result (said out.new ≡ with_lines (N.names names.now) (map struct_field (map field_tree fields.now)) (said out.old)) }
{
    for field in fields {
        put_typed_field(out, names, 0x0006, field.name.as_str(), &field.ty)?;
    }
    Ok(())
}

/// A struct (ECMA-335 II.22.37).
pub fn put_struct<N: Referred>(
    out: &mut Out,
    names: &N,
    name: &FullName,
    version: u32,
    fields: &[Field],
) -> Result<(), Memory>
    ensures { OnOk result (said out.new ≡ with_lines (N.names names.now) (lines_of (trees.struct name.now version (map field_tree fields.now))) (said out.old)) }
{
    put_type(out, names, 0x4109, name, "System.ValueType")?;
    put_version(out, names, version)?;
    put_fields(out, names, fields)
}
