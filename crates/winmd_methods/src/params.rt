//! Parameters with their names.

ghost use Rattle.std.specs.Prelude.{◌≡◌, ◌≤◌, IfOk, length, map};
ghost use Rattle.md_schema.specs.declared.table.Table.TheVariants as tables;
ghost use Rattle.winmd_cells.specs.Given.{Gives};
ghost use Rattle.winmd_cells.specs.Seen.{seen, tables_in};
ghost use Rattle.winmd_methods.specs.Seen.{named_param, param_name, params_by, sequenced_seen};
ghost use Rattle.winmd_rows.specs.Faults.{each};
ghost use Rattle.winmd_sets.specs.Methods as methods_as;
ghost use Rattle.wr_base.specs.Trees.{param_tree};

use md_schema::{ImageFault, Table};
use ranked::{Memory, Name, Stop};
use std::alloc::Global;
use winmd_source::Source;
use wr_base::Param;

/// A row of Param, and its sequence number.
#[derive(Clone, Copy)]
pub struct Sequenced {
    pub sequence: u32,
    pub row: u32,
}

fn sequence_of(source: &Source<'_>, row: u32) -> Result<Sequenced, Stop<ImageFault>>
    ensures { Gives (sequenced_seen source.now.image) result (methods_as.sequenced (tables_in source.now.image) (seen source.now.image tables.Param row)) }
{
    let sequence = source.image.number(Table::Param, row, 1)?;
    Ok(Sequenced { sequence, row })
}

/// Rows of Param with their sequence numbers.
pub(crate) fn sequence(
    alloc: Global,
    source: &Source<'_>,
    list: &[u32],
) -> Result<Vec<Sequenced>, Stop<ImageFault>>
    ensures { Gives (λ x. map (sequenced_seen source.now.image) x.items) result (each (methods_as.sequenced (tables_in source.now.image)) (map (seen source.now.image tables.Param) list.now)) }
{
    let mut rows = Vec::new(alloc);
    let mut rest = list;
    'each: while let Some((row, after)) = rest.split_first() {
        let one = sequence_of(source, *row)?;
        rows.push(one)?;
        rest = after;
    }
    Ok(rows)
}

fn of_sequence(
    alloc: Global,
    source: &Source<'_>,
    n: u32,
    list: &[Sequenced],
) -> Result<Vec<u32>, Memory>
    ensures { IfOk result (λ x. map (seen source.now.image tables.Param) x.items ≡ methods_as.of_sequence n (map (sequenced_seen source.now.image) list.now)) }
{
    let mut rows = Vec::new(alloc);
    let mut rest = list;
    'each: while let Some((one, after)) = rest.split_first() {
        if n == one.sequence {
            rows.push(one.row)?;
        }
        rest = after;
    }
    Ok(rows)
}

/// The name of the parameter of a sequence number.
fn param_name(
    alloc: Global,
    source: &Source<'_>,
    offset: u64,
    rows: &[Sequenced],
    n: u32,
) -> Result<Name, Stop<ImageFault>>
    ensures { Gives (λ x. x) result (param_name (tables_in source.now.image) offset (map (sequenced_seen source.now.image) rows.now) n) }
{
    let found = of_sequence(alloc, source, n, rows)?;
    let row = source.the_one(Table::Param, offset, found.as_slice())?;
    source.name_in(alloc, Table::Param, row, 2)
}

fn named(
    alloc: Global,
    source: &Source<'_>,
    offset: u64,
    rows: &[Sequenced],
    n: u32,
    param: &Param,
) -> Result<Param, Stop<ImageFault>>
    ensures { Gives param_tree result (named_param (tables_in source.now.image) offset (map (sequenced_seen source.now.image) rows.now) n (param_tree param.now)) }
{
    let name = param_name(alloc, source, offset, rows, n)?;
    Ok(Param {
        name,
        out: param.out,
        ty: param.ty.clone()?,
    })
}

/// Parameters with their names, which stand in a signature without.
pub(crate) fn params_by(
    alloc: Global,
    source: &Source<'_>,
    offset: u64,
    rows: &[Sequenced],
    params: &[Param],
) -> Result<Vec<Param>, Stop<ImageFault>>
    requires { length params.now ≤ 64 }
    ensures { Gives (λ x. map param_tree x.items) result (params_by (tables_in source.now.image) offset (map (sequenced_seen source.now.image) rows.now) 1 (map param_tree params.now)) }
{
    let mut done = Vec::new(alloc);
    let mut rest = params;
    let mut n = 1;
    'each: while let Some((param, after)) = rest.split_first() {
        let param = named(alloc, source, offset, rows, n, param)?;
        done.push(param)?;
        rest = after;
        n += 1;
    }
    Ok(done)
}
