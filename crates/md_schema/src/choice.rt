//! The tables of a coded index, by tag.

ghost use Rattle.std.specs.Prelude.{◌≡◌, ◌<◌, None, IfSome, get_or, length, position};
ghost use Rattle.md_schema.specs.Codes.{is_table};

use crate::table::Table;

/// The table of a tag, if it has one.
pub fn choice_at(tables: &[Option<Table>], tag: u32) -> Option<Table>
    ensures { result ≡ get_or tables.now tag None }
{
    if (tag as usize) < tables.len() {
        tables[tag as usize]
    } else {
        None
    }
}

/// The first tag of a table, if it has one.
pub fn tag_of(tables: &[Option<Table>], table: Table) -> Option<usize>
    ensures value { result ≡ position (is_table table) tables.now }
    ensures below { IfSome result (λ tag. tag < length tables.now) }
{
    tables.iter().position(|choice| is_choice(table, *choice))
}

fn is_choice(table: Table, choice: Option<Table>) -> bool
    ensures { result ≡ is_table table choice }
{
    match choice {
        Some(other) => other.number() == table.number(),
        None => false,
    }
}
