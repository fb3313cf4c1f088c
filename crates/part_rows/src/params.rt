//! The parameters of a method.

ghost use Rattle.std.specs.Prelude.{◌≡◌, ◌∷◌, [], OnOk, map, take, if◌then◌else◌};
ghost use Rattle.winmd_sets.specs.Members.{param_lines};
ghost use Rattle.part_rows.specs.Nothing.{nothing};
ghost use Rattle.row_writer.specs.Seen.{seen};
ghost use Rattle.part_rows.specs.Grown.{with_lines};
ghost use Rattle.wr_base.specs.Trees.{param_tree};

use crate::rows::put_param_row;
use ranked::Memory;
use row_writer::Writer;
use std::alloc::AllocError;
use wr_base::Param;

/// The most parameters that sequence numbers are made for.
const MOST_PARAMS: usize = 0xFFFF_FFFF;

fn flags_of(param: &Param) -> u32
    ensures { result ≡ (if param.now.out then 2 else 1) }
{
    if param.out { 2 } else { 1 }
}

fn put_param(writer: &mut Writer, number: u32, param: &Param) -> Result<(), Memory>
    ensures { OnOk result (seen writer.new ≡ with_lines nothing (take 1 (param_lines number (param_tree param.now ∷ []))) (seen writer.old)) }
{
    put_param_row(writer, flags_of(param), number, param.name.as_str())
}

/// The parameters of the last method, numbered from 1. More than have numbers are want of memory.
pub fn put_params(writer: &mut Writer, params: &[Param]) -> Result<(), Memory>
    ensures { OnOk result (seen writer.new ≡ with_lines nothing (param_lines 1 (map param_tree params.now)) (seen writer.old)) }
{
    if params.len() >= MOST_PARAMS {
        return Err(AllocError);
    }
    let mut number = 1;
    for param in params {
        put_param(writer, number, param)?;
        number += 1;
    }
    Ok(())
}
