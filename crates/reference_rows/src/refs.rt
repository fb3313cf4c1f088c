//! Types that are referred to, each in its assembly.

ghost use Rattle.std.specs.Prelude.{◌≡◌, OnOk, map, codes, string_bytes, if◌then◌else◌};
ghost use Rattle.std.specs.Str.{bytes_eq};
ghost use Rattle.part_rows.specs.Grown.{with_line, with_lines};
ghost use Rattle.part_rows.specs.Nothing.{nothing};
ghost use Rattle.row_writer.specs.Seen.{seen};
ghost use Rattle.winmd_sets.specs.Rows.{ref_line};
ghost use Rattle.wr_base.specs.Parts.{before_last, behind_last};

use md_schema::Table;
use ranked::Memory;
use row_writer::{Cell, Writer};

// What stands before the last dot, and what stands behind it.
fn around_last_dot(text: &str) -> (&str, &str)
    ensures space { result.0.now ≡ before_last 46 text.now }
    ensures name { result.1.now ≡ behind_last 46 text.now }
{
    match text.rsplit_once('.') {
        Some((space, name)) => (space, name),
        None => ("", text),
    }
}

// The assembly of a namespace: `System` stands in the first, all others in the second.
fn scope(space: &str) -> u32
    ensures { result ≡ (if bytes_eq space.now (codes "System") then 1 else 2) }
{
    if space == "System" { 1 } else { 2 }
}

fn put_ref(writer: &mut Writer, full: &str) -> Result<(), Memory>
    ensures { OnOk result (seen writer.new ≡ with_line nothing (ref_line full.now) (seen writer.old)) }
{
    let (space, name) = around_last_dot(full);
    let cells = [
        Cell::To(Table::AssemblyRef, scope(space)),
        Cell::Words(name.as_bytes()),
        Cell::Words(space.as_bytes()),
    ];
    writer.line(Table::TypeRef, &cells)
}

/// The types of these full names, in their order.
pub fn put_refs(writer: &mut Writer, refs: &[String]) -> Result<(), Memory>
    ensures { OnOk result (seen writer.new ≡ with_lines nothing (map ref_line (map string_bytes refs.now)) (seen writer.old)) }
{
    for full in refs {
        put_ref(writer, full.as_str())?;
    }
    Ok(())
}
