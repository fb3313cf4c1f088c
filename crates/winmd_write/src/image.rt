//! The image of a set.

ghost use Rattle.std.specs.Prelude.{◌≡◌, ◌<◌, ◌^◌, IfOk, Ok, OnOk, length, map};
ghost use Rattle.set_referred.specs.Referred.{names_in};
ghost use Rattle.winmd_names.specs.Seen.{seen};
ghost use Rattle.winmd_sets.specs.Rows as rows;
ghost use Rattle.winmd_strict.specs.Reading.{TypesOf};
ghost use Rattle.winmd_write.specs.Writable.{Writable};
ghost use Rattle.winmd_writer.specs.Finished.{StrictFor};
ghost use Rattle.wr_base.specs.Declarations.{IsInOrder};
ghost use Rattle.wr_base.specs.Trees.{decl_tree};

use crate::sets::put_set;
use kind_rows::Out;
use ranked::Memory;
use set_referred::SetReferred;
use std::alloc::Global;
use winmd_names::{SetNames, names_of};
use winmd_writer::finished;
use wr_base::Types;

// The image, by the names of the set.
fn image_by(alloc: Global, names: &SetReferred, types: &Types) -> Result<Vec<u8>, Memory>
    requires { names_in names.now ≡ rows.names_of (map decl_tree types.now) }
    ensures strict { IfOk result (λ bytes. StrictFor (map decl_tree types.now) bytes.items) }
    ensures order { OnOk result (IsInOrder types.now) }
    ensures few { OnOk result (length (rows.names_of (map decl_tree types.now)).refs < 2 ^ 24) }
{
    let mut out = Out::new(alloc)?;
    put_set(&mut out, names, types)?;
    finished(alloc, out.writer)
}

fn image_with(alloc: Global, names: SetNames, types: &Types) -> Result<Vec<u8>, Memory>
    requires { seen names ≡ rows.names_of (map decl_tree types.now) }
    ensures strict { IfOk result (λ bytes. StrictFor (map decl_tree types.now) bytes.items) }
    ensures order { OnOk result (IsInOrder types.now) }
    ensures few { OnOk result (length (rows.names_of (map decl_tree types.now)).refs < 2 ^ 24) }
{
    let names = SetReferred::new(names);
    image_by(alloc, &names, types)
}

/// The image of a set: it is strict for the set's declarations, and states them where they keep the limits. Err is want of memory, also
/// where a name isn't ASCII, a case's value has no 32 bits, or the format has no room.
pub fn image_of(alloc: Global, types: &Types) -> Result<Vec<u8>, Memory>
    ensures strict { IfOk result (λ bytes. StrictFor (map decl_tree types.now) bytes.items) }
    ensures states { Writable types.now → IfOk result (λ bytes. TypesOf bytes.items ≡ Ok (map decl_tree types.now)) }
{
    let names = names_of(alloc, types)?;
    image_with(alloc, names, types)
}
