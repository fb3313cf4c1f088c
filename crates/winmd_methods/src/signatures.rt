//! Signatures with the names of their parameters.

ghost use Rattle.std.specs.Prelude.{◌≡◌, ◌≤◌, length, map, nat_le};
ghost use Rattle.md_schema.specs.declared.table.Table.TheVariants as tables;
ghost use Rattle.winmd_cells.specs.Given.{Gives};
ghost use Rattle.winmd_cells.specs.Seen.{seen, tables_in};
ghost use Rattle.winmd_methods.specs.Seen.{few_params, named_params, named_signature, plain_signature, whole_signature};
ghost use Rattle.winmd_sets.specs.Methods as methods_as;
ghost use Rattle.wr_base.specs.Trees.{param_tree, signature_tree};

use crate::params::{params_by, sequence};
use md_schema::{ImageFault, ImageKind, Table};
use ranked::Stop;
use std::alloc::Global;
use winmd_blobs::method_of;
use winmd_source::{Source, refused};
use wr_base::{Listed, Param, Signature};

fn named_params(
    alloc: Global,
    source: &Source<'_>,
    n: u32,
    params: &[Param],
) -> Result<Vec<Param>, Stop<ImageFault>>
    requires { length params.now ≤ 64 }
    ensures { Gives (λ x. map param_tree x.items) result (named_params (tables_in source.now.image) n (map param_tree params.now)) }
{
    let list = source.image.list_of(Table::MethodDef, 5, Table::Param, n)?;
    let rows = sequence(alloc, source, list)?;
    params_by(
        alloc,
        source,
        source.image.offset(Table::MethodDef, n, 5),
        rows.as_slice(),
        params,
    )
}

fn named_signature(
    alloc: Global,
    source: &Source<'_>,
    n: u32,
    signature: Signature,
) -> Result<Signature, Stop<ImageFault>>
    requires { length signature.params ≤ 64 }
    ensures { Gives signature_tree result (named_signature (tables_in source.now.image) n (signature_tree signature)) }
{
    let Signature { params, result } = signature;
    let named = named_params(alloc, source, n, params.as_slice())?;
    Ok(Signature {
        params: Listed::from_vec(named),
        result,
    })
}

fn with_names(
    alloc: Global,
    source: &Source<'_>,
    n: u32,
    signature: Signature,
) -> Result<Signature, Stop<ImageFault>>
    requires { length signature.params ≤ 64 }
    ensures { Gives signature_tree result (methods_as.with_names (tables_in source.now.image) n (signature_tree signature)) }
{
    named_signature(alloc, source, n, signature)
}

fn is_few(count: usize) -> bool
    ensures { result ≡ nat_le count 64 }
{
    count <= 64
}

fn few_params(
    alloc: Global,
    source: &Source<'_>,
    offset: u64,
    n: u32,
    signature: Signature,
) -> Result<Signature, Stop<ImageFault>>
    ensures { Gives signature_tree result (few_params (tables_in source.now.image) offset n (signature_tree signature)) }
{
    let count = signature.params.as_slice().len();
    if is_few(count) {
        with_names(alloc, source, n, signature)
    } else {
        Err(refused(ImageKind::PastLimit, offset))
    }
}

fn plain_signature(
    alloc: Global,
    source: &Source<'_>,
    row: u32,
) -> Result<Signature, Stop<ImageFault>>
    ensures { Gives signature_tree result (plain_signature (tables_in source.now.image) (seen source.now.image tables.MethodDef row)) }
{
    let blob = source.image.bytes(Table::MethodDef, row, 4)?;
    method_of(
        alloc,
        source,
        source.image.offset(Table::MethodDef, row, 4),
        blob,
    )
}

fn whole_signature(
    alloc: Global,
    source: &Source<'_>,
    row: u32,
) -> Result<Signature, Stop<ImageFault>>
    ensures { Gives signature_tree result (whole_signature (tables_in source.now.image) (seen source.now.image tables.MethodDef row)) }
{
    let signature = plain_signature(alloc, source, row)?;
    few_params(
        alloc,
        source,
        source.image.offset(Table::MethodDef, row, 4),
        row,
        signature,
    )
}

/// The signature of a method, of at most 64 parameters, with their names.
pub fn signature_of(
    alloc: Global,
    source: &Source<'_>,
    row: u32,
) -> Result<Signature, Stop<ImageFault>>
    ensures { Gives signature_tree result (methods_as.signature_of (tables_in source.now.image) (seen source.now.image tables.MethodDef row)) }
{
    whole_signature(alloc, source, row)
}
