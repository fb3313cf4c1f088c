//! Events (ECMA-335 II.22.13).

ghost use Rattle.std.specs.Prelude.{◌≡◌, ◌++◌, ◌∷◌, [], OnOk, codes};
ghost use Rattle.kind_rows.specs.Said.{said};
ghost use Rattle.md_schema.specs.declared.table.Table.TheVariants as tables;
ghost use Rattle.part_rows.specs.Grown.{with_line, with_lines};
ghost use Rattle.winmd_lines.specs.Lines.{line, Number, Words, Type_};
ghost use Rattle.winmd_sets.specs.Members.{accessor, adder, member_lines, remover};
ghost use Rattle.wr_base.specs.Trees.{event, tree_of};

use crate::accessors::put_event_accessor;
use crate::signatures::{adder_of, remover_of};
use kind_rows::{Out, Referred};
use part_rows::put_event_row;
use ranked::{Memory, Name};
use wr_base::TypeUse;

// The row of the event itself.
fn put_own<N: Referred>(out: &mut Out, names: &N, name: &Name, ty: &TypeUse) -> Result<(), Memory>
    ensures { OnOk result (said out.new ≡ with_line (N.names names.now) (line tables.Event (Number 0 ∷ Words name.now ∷ Type_ (tree_of ty.now) ∷ [])) (said out.old)) }
{
    let handler = names.led_to(ty)?;
    put_event_row(&mut out.writer, name.as_str(), handler)
}

fn put_adder<N: Referred>(out: &mut Out, names: &N, name: &Name, ty: &TypeUse) -> Result<(), Memory>
    ensures { OnOk result (said out.new ≡ with_lines (N.names names.now) (accessor tables.Event 8 (codes "add_" ++ name.now) (adder (tree_of ty.now))) (said out.old)) }
{
    let sig = adder_of(out.alloc, ty)?;
    put_event_accessor(out, names, 8, "add_", name, &sig)
}

fn put_remover<N: Referred>(out: &mut Out, names: &N, name: &Name) -> Result<(), Memory>
    ensures { OnOk result (said out.new ≡ with_lines (N.names names.now) (accessor tables.Event 0x10 (codes "remove_" ++ name.now) remover) (said out.old)) }
{
    let sig = remover_of(out.alloc)?;
    put_event_accessor(out, names, 0x10, "remove_", name, &sig)
}

/// An event of the last type, with its accessors.
pub fn put_event<N: Referred>(
    out: &mut Out,
    names: &N,
    name: &Name,
    ty: &TypeUse,
) -> Result<(), Memory>
    ensures { OnOk result (said out.new ≡ with_lines (N.names names.now) (member_lines [] (event name.now (tree_of ty.now))) (said out.old)) }
{
    put_own(out, names, name, ty)?;
    put_adder(out, names, name, ty)?;
    put_remover(out, names, name)
}
