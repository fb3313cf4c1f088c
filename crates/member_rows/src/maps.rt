//! Where the properties and the events of a type begin (ECMA-335 II.22.35, II.22.12).

ghost use Rattle.std.specs.Prelude.{◌≡◌, ◌∷◌, [], OnOk, map};
ghost use Rattle.std.specs.List.{list_any};
ghost use Rattle.md_schema.specs.declared.table.Table.TheVariants as tables;
ghost use Rattle.part_rows.specs.Grown.{with_lines};
ghost use Rattle.row_writer.specs.Seen.{seen};
ghost use Rattle.winmd_lines.specs.Names.{Names};
ghost use Rattle.winmd_sets.specs.Members as lines;
ghost use Rattle.winmd_sets.specs.Members.{map_line, map_lines, when};
ghost use Rattle.wr_base.specs.Trees.{member_tree};
ghost use Rattle.wr_base.specs.declared.declaration.Member as declared;

use part_rows::{put_event_map, put_property_map};
use ranked::Memory;
use row_writer::Writer;
use wr_base::Member;

fn is_property(member: &Member) -> bool
    ensures { result ≡ lines.is_property (member_tree member.now) }
{
    match member {
        Member::Property { .. } => true,
        _ => false,
    }
}

fn is_event(member: &Member) -> bool
    ensures { result ≡ lines.is_event (member_tree member.now) }
{
    match member {
        Member::Event { .. } => true,
        _ => false,
    }
}

fn has_properties(members: &[Member]) -> bool
    ensures { result ≡ list_any (λ (m : declared.Member). lines.is_property (member_tree m)) members.now }
{
    members.iter().any(|member| is_property(member))
}

fn has_events(members: &[Member]) -> bool
    ensures { result ≡ list_any (λ (m : declared.Member). lines.is_event (member_tree m)) members.now }
{
    members.iter().any(|member| is_event(member))
}

fn put_property_map_if(writer: &mut Writer, test: bool) -> Result<(), Memory>
    ensures { OnOk result ((names : Names) → seen writer.new ≡ with_lines names (when test (map_line tables.PropertyMap tables.Property ∷ [])) (seen writer.old)) }
{
    if !test {
        return Ok(());
    }
    put_property_map(writer)
}

fn put_event_map_if(writer: &mut Writer, test: bool) -> Result<(), Memory>
    ensures { OnOk result ((names : Names) → seen writer.new ≡ with_lines names (when test (map_line tables.EventMap tables.Event ∷ [])) (seen writer.old)) }
{
    if !test {
        return Ok(());
    }
    put_event_map(writer)
}

/// Where the last type's properties and events begin, of which it has some.
pub fn put_maps(writer: &mut Writer, members: &[Member]) -> Result<(), Memory>
    ensures { OnOk result ((names : Names) → seen writer.new ≡ with_lines names (map_lines (map member_tree members.now)) (seen writer.old)) }
{
    put_property_map_if(writer, has_properties(members))?;
    put_event_map_if(writer, has_events(members))
}
