//! Lists that begin at 0 (ECMA-335 II.22.37, II.22.26, II.22.12, II.22.35).

ghost use Rattle.std.specs.Prelude.{◌≡◌, map, true};
ghost use Rattle.md_schema.specs.declared.table.Table.TheVariants as tables;
ghost use Rattle.winmd_cells.specs.Given.{Gives};
ghost use Rattle.winmd_cells.specs.Seen.{seen, tables_in};
ghost use Rattle.winmd_lines.specs.Cells as cells_as;
ghost use Rattle.winmd_lists.specs.Begun.{begun_in_turn, ends_there, well};
ghost use Rattle.winmd_rows.specs.Faults.{each};
ghost use Rattle.winmd_sets.specs.Types as types_as;

use md_schema::{ImageFault, ImageKind, Table};
use ranked::Stop;
use winmd_cells::Image;
use winmd_source::refused;

// Where the list of a row begins: after the last row, behind the last member.
fn list_from(
    image: &Image<'_>,
    owner: Table,
    column: usize,
    member: Table,
    n: u64,
) -> Result<u64, Stop<ImageFault>>
    ensures { Gives (λ x. x) result (cells_as.list_from (tables_in image.now) owner column member n) }
{
    if (image.count(owner) as u64) < n {
        Ok(image.count(member) as u64 + 1)
    } else {
        Ok(image.target(owner, n as u32, column)? as u64)
    }
}

// A list that begins at 0 ends there.
fn ends_there(
    image: &Image<'_>,
    owner: Table,
    column: usize,
    member: Table,
    n: u32,
) -> Result<(), Stop<ImageFault>>
    ensures { Gives (λ x. true) result (ends_there (tables_in image.now) owner column member n) }
{
    let end = list_from(image, owner, column, member, n as u64 + 1)?;
    if end == 0 {
        Ok(())
    } else {
        Err(refused(ImageKind::RowRange, image.offset(owner, n, column)))
    }
}

fn begun(
    image: &Image<'_>,
    owner: Table,
    column: usize,
    member: Table,
    n: u32,
) -> Result<(), Stop<ImageFault>>
    ensures { Gives (λ x. true) result (types_as.begun (tables_in image.now) owner column member (seen image.now owner n)) }
{
    let first = image.target(owner, n, column)?;
    if first == 0 {
        ends_there(image, owner, column, member, n)
    } else {
        Ok(())
    }
}

fn rows_begin(
    image: &Image<'_>,
    owner: Table,
    column: usize,
    member: Table,
    rows: &[u32],
) -> Result<(), Stop<ImageFault>>
    ensures { Gives (λ x. true) result (well (each (types_as.begun (tables_in image.now) owner column member) (map (seen image.now owner) rows.now))) }
{
    let mut rest = rows;
    'each: while let Some((row, after)) = rest.split_first() {
        begun(image, owner, column, member, *row)?;
        rest = after;
    }
    Ok(())
}

#[tactic(auto, using(crate::proofs::ListLaws::all_seen))]
fn lists_begin(
    image: &Image<'_>,
    owner: Table,
    column: usize,
    member: Table,
) -> Result<(), Stop<ImageFault>>
    ensures { Gives (λ x. true) result (well (types_as.lists_begin (tables_in image.now) owner column member)) }
{
    rows_begin(image, owner, column, member, image.all_rows(owner))
}

fn all_begin_in_turn(image: &Image<'_>) -> Result<(), Stop<ImageFault>>
    ensures { Gives (λ x. true) result (begun_in_turn (tables_in image.now)) }
{
    lists_begin(image, Table::TypeDef, 4, Table::Field)?;
    lists_begin(image, Table::TypeDef, 5, Table::MethodDef)?;
    lists_begin(image, Table::MethodDef, 5, Table::Param)?;
    lists_begin(image, Table::EventMap, 1, Table::Event)?;
    lists_begin(image, Table::PropertyMap, 1, Table::Property)
}

/// That each list which begins at 0 has no rows, or the first that has some: RowRange at the cell where it begins.
#[tactic(auto, using(crate::proofs::ListLaws::all_in_turn))]
pub fn all_begin(image: &Image<'_>) -> Result<(), Stop<ImageFault>>
    ensures { Gives (λ x. true) result (well (types_as.all_begin (tables_in image.now))) }
{
    all_begin_in_turn(image)
}
