//! Attributes of interfaces (ECMA-335 II.22.10).

ghost use Rattle.std.specs.Prelude.{◌≡◌, OnOk, Some};
ghost use Rattle.kind_rows.specs.Said.{said};
ghost use Rattle.part_rows.specs.Grown.{with_line, with_lines};
ghost use Rattle.winmd_sets.specs.Declared.{id_of_type, owner_of_type};

use kind_rows::{Maker, Out, Referred, put_on};
use md_schema::Table;
use ranked::Memory;
use sig_blobs::Argument;
use wr_base::FullName;

/// The id of the last type.
pub fn put_id<N: Referred>(out: &mut Out, names: &N, id: u128) -> Result<(), Memory>
    ensures { OnOk result (said out.new ≡ with_line (N.names names.now) (id_of_type id) (said out.old)) }
{
    let arguments = [Argument::Id(id)];
    put_on(out, names, Table::TypeDef, Maker::Guid, &arguments)
}

/// The class that alone has the last type.
pub fn put_owner<N: Referred>(out: &mut Out, names: &N, owner: &FullName) -> Result<(), Memory>
    ensures { OnOk result (said out.new ≡ with_lines (N.names names.now) (owner_of_type (Some owner.now)) (said out.old)) }
{
    let arguments = [Argument::TypeName(owner.clone()?)];
    put_on(out, names, Table::TypeDef, Maker::ExclusiveTo, &arguments)
}
