//! Declarations.

ghost use Rattle.std.specs.Prelude.{◌≡◌, OnOk, map};
ghost use Rattle.std.specs.List.{flat_map};
ghost use Rattle.kind_rows.specs.Said.{said};
ghost use Rattle.part_rows.specs.Grown.{with_lines};
ghost use Rattle.winmd_sets.specs.Declared.{lines_of};
ghost use Rattle.winmd_sets.specs.Rows.{arranged};
ghost use Rattle.wr_base.specs.Trees.{decl_tree};

use crate::arranged::{put_arranged_class, put_arranged_interface};
use kind_rows::{Out, Referred, put_delegate, put_enum, put_struct};
use ranked::Memory;
use wr_base::Declaration;

/// A declaration.
pub fn put_declaration<N: Referred>(
    out: &mut Out,
    names: &N,
    declaration: &Declaration,
) -> Result<(), Memory>
    ensures { OnOk result (said out.new ≡ with_lines (N.names names.now) (lines_of (arranged (N.names names.now) (decl_tree declaration.now))) (said out.old)) }
{
    match declaration {
        Declaration::Enum {
            name,
            version,
            flags,
            cases,
        } => put_enum(out, names, name, *version, *flags, cases.as_slice()),
        Declaration::Struct {
            name,
            version,
            fields,
        } => put_struct(out, names, name, *version, fields.as_slice()),
        Declaration::Delegate {
            name,
            version,
            id,
            invoke,
        } => put_delegate(out, names, name, *version, *id, invoke),
        Declaration::Interface {
            name,
            version,
            id,
            owner,
            requires_,
            members,
        } => put_arranged_interface(
            out,
            names,
            name,
            *version,
            *id,
            owner,
            requires_.as_slice(),
            members.as_slice(),
        ),
        Declaration::Class {
            name,
            version,
            fixed,
            default,
            has,
            direct,
            factories,
            statics,
        } => put_arranged_class(
            out,
            names,
            name,
            *version,
            *fixed,
            default,
            has.as_slice(),
            *direct,
            factories.as_slice(),
            statics.as_slice(),
        ),
    }
}

/// The declarations of a set, in this order.
pub fn put_declarations<N: Referred>(
    out: &mut Out,
    names: &N,
    declarations: &[Declaration],
) -> Result<(), Memory>
    ensures { OnOk result (said out.new ≡ with_lines (N.names names.now) (flat_map lines_of (map (arranged (N.names names.now)) (map decl_tree declarations.now))) (said out.old)) }
{
    for declaration in declarations {
        put_declaration(out, names, declaration)?;
    }
    Ok(())
}
