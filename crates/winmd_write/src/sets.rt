//! All rows of a set, in the order in which they are written: what is referred to, the constructors of attributes and the instances, the
//! rows of every image, and the declarations.

ghost use Rattle.std.specs.Prelude.{◌≡◌, OnOk, map};
ghost use Rattle.std.specs.List.{flat_map};
ghost use Rattle.kind_rows.specs.Said.{said};
ghost use Rattle.part_rows.specs.Grown.{with_lines};
ghost use Rattle.set_referred.specs.Referred.{names_in};
ghost use Rattle.winmd_sets.specs.Declared.{lines_of};
ghost use Rattle.winmd_sets.specs.Rows.{all_lines, arranged, made_lines, maker_line, ref_line, spec_line};
ghost use Rattle.wr_base.specs.Declarations.{IsInOrder};
ghost use Rattle.wr_base.specs.Trees.{decl_tree};

use crate::makers::row_makers;
use declaration_lines::put_declaration;
use kind_rows::Out;
use part_rows::put_first;
use ranked::Memory;
use reference_rows::put_refs;
use set_referred::SetReferred;
use used_rows::{put_makers, put_specs};
use wr_base::Types;

fn put_references(out: &mut Out, names: &SetReferred) -> Result<(), Memory>
    ensures { OnOk result (said out.new ≡ with_lines (names_in names.now) (map ref_line (names_in names.now).refs) (said out.old)) }
{
    put_refs(&mut out.writer, names.names().refs())
}

fn put_constructors(out: &mut Out, names: &SetReferred) -> Result<(), Memory>
    ensures { OnOk result (said out.new ≡ with_lines (names_in names.now) (map maker_line (names_in names.now).makers) (said out.old)) }
{
    let makers = row_makers(out.alloc, names.names().makers())?;
    put_makers(out, names, &makers)
}

fn put_instances(out: &mut Out, names: &SetReferred) -> Result<(), Memory>
    ensures { OnOk result (said out.new ≡ with_lines (names_in names.now) (map spec_line (names_in names.now).specs) (said out.old)) }
{
    put_specs(out, names, names.names().specs())
}

fn put_made(out: &mut Out, names: &SetReferred) -> Result<(), Memory>
    ensures { OnOk result (said out.new ≡ with_lines (names_in names.now) (made_lines (names_in names.now).specs (names_in names.now).makers) (said out.old)) }
{
    put_constructors(out, names)?;
    put_instances(out, names)
}

fn put_declarations(out: &mut Out, names: &SetReferred, types: &Types) -> Result<(), Memory>
    ensures order { IsInOrder types.now }
    ensures lines { OnOk result (said out.new ≡ with_lines (names_in names.now) (flat_map lines_of (map (arranged (names_in names.now)) (map decl_tree types.now))) (said out.old)) }
{
    for i in 0..types.len() {
        put_declaration(out, names, types.at(i))?;
    }
    Ok(())
}

/// All rows of a set, by its names.
pub(crate) fn put_set(out: &mut Out, names: &SetReferred, types: &Types) -> Result<(), Memory>
    ensures order { OnOk result (IsInOrder types.now) }
    ensures lines { OnOk result (said out.new ≡ with_lines (names_in names.now) (all_lines (names_in names.now) (map (arranged (names_in names.now)) (map decl_tree types.now))) (said out.old)) }
{
    put_references(out, names)?;
    put_made(out, names)?;
    put_first(&mut out.writer)?;
    put_declarations(out, names, types)
}
