//! Full names, as one.

ghost use Rattle.winmd_cells.specs.Given.{Gives};
ghost use Rattle.winmd_cells.specs.Names.{full_seen};
ghost use Rattle.winmd_lines.specs.Cells as cells_as;

use md_schema::ImageFault;
use ranked::Stop;
use std::alloc::Global;
use winmd_cells::{TypeName, joined};
use winmd_source::full_name;
use wr_base::FullName;

/// A full name as one. Refused at an offset: BadShape where it is no path, PastLimit where it is too long.
pub(crate) fn path_in(
    alloc: Global,
    offset: u64,
    name: &TypeName<'_>,
) -> Result<FullName, Stop<ImageFault>>
    ensures { Gives (λ x. x) result (cells_as.path_of offset (full_seen name.now)) }
{
    let bytes = joined(alloc, name)?;
    full_name(alloc, offset, bytes.as_slice())
}
