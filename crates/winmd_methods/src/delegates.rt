//! Delegates.

ghost use Rattle.std.specs.Prelude.{◌≡◌, ◌∷◌, ◌++◌, [], IfOk, OnOk, bytes_eq, codes, map, if◌then◌else◌};
ghost use Rattle.md_schema.specs.declared.table.Table.TheVariants as tables;
ghost use Rattle.winmd_attributes.specs.Seen.{attribute_seen};
ghost use Rattle.winmd_cells.specs.Given.{Gives};
ghost use Rattle.winmd_cells.specs.Seen.{seen, tables_in};
ghost use Rattle.winmd_methods.specs.Seen.{method_seen, one_invoke};
ghost use Rattle.winmd_rows.specs.Faults.{each};
ghost use Rattle.winmd_sets.specs.Methods as methods_as;
ghost use Rattle.wr_base.specs.Trees.{decl_tree, signature_tree};

use crate::signatures::signature_of;
use md_schema::{ImageFault, Table};
use ranked::{Memory, Stop};
use std::alloc::Global;
use winmd_attributes::{Attribute, id_of, version_of};
use winmd_source::Source;
use wr_base::{Declaration, FullName, Signature};

/// A method and its name.
#[derive(Clone, Copy)]
pub struct NamedMethod<'a> {
    pub name: &'a [u8],
    pub row: u32,
}

fn named_method<'a>(source: &Source<'a>, row: u32) -> Result<NamedMethod<'a>, Stop<ImageFault>>
    ensures { Gives (method_seen source.now.image) result (methods_as.named_method (tables_in source.now.image) (seen source.now.image tables.MethodDef row)) }
{
    let name = source.image.bytes(Table::MethodDef, row, 3)?;
    Ok(NamedMethod { name, row })
}

fn named_methods<'a>(
    alloc: Global,
    source: &Source<'a>,
    rows: &[u32],
) -> Result<Vec<NamedMethod<'a>>, Stop<ImageFault>>
    ensures { Gives (λ x. map (method_seen source.now.image) x.items) result (each (methods_as.named_method (tables_in source.now.image)) (map (seen source.now.image tables.MethodDef) rows.now)) }
{
    let mut methods = Vec::new(alloc);
    let mut rest = rows;
    'each: while let Some((row, after)) = rest.split_first() {
        let method = named_method(source, *row)?;
        methods.push(method)?;
        rest = after;
    }
    Ok(methods)
}

fn is_invoke(name: &[u8]) -> bool
    ensures { result ≡ bytes_eq name.now (codes "Invoke") }
{
    name == "Invoke".as_bytes()
}

fn put(into: &mut Vec<u32>, is_kept: bool, row: u32) -> Result<(), Memory>
    ensures { OnOk result (into.new.items ≡ into.old.items ++ (if is_kept then row ∷ [] else [])) }
{
    if is_kept {
        into.push(row)?;
    }
    Ok(())
}

fn invokes<'a>(
    alloc: Global,
    source: &Source<'a>,
    methods: &[NamedMethod<'a>],
) -> Result<Vec<u32>, Memory>
    ensures { IfOk result (λ x. map (seen source.now.image tables.MethodDef) x.items ≡ methods_as.invokes (map (method_seen source.now.image) methods.now)) }
{
    let mut rows = Vec::new(alloc);
    for method in methods {
        let is_kept = is_invoke(method.name);
        put(&mut rows, is_kept, method.row)?;
    }
    Ok(rows)
}

/// The row of the one method of this name among rows, for a fault at an offset.
fn one_invoke(
    alloc: Global,
    source: &Source<'_>,
    offset: u64,
    rows: &[u32],
) -> Result<u32, Stop<ImageFault>>
    ensures { Gives (seen source.now.image tables.MethodDef) result (one_invoke (tables_in source.now.image) offset (map (seen source.now.image tables.MethodDef) rows.now)) }
{
    let names = named_methods(alloc, source, rows)?;
    let found = invokes(alloc, source, names.as_slice())?;
    source.the_one(Table::MethodDef, offset, found.as_slice())
}

#[tactic(auto, using(crate::proofs::InvokeLaws::by_one))]
fn invoke_of(alloc: Global, source: &Source<'_>, n: u32) -> Result<Signature, Stop<ImageFault>>
    ensures { Gives signature_tree result (methods_as.invoke_of (tables_in source.now.image) n) }
{
    let rows = source
        .image
        .list_of(Table::TypeDef, 5, Table::MethodDef, n)?;
    let row = one_invoke(
        alloc,
        source,
        source.image.offset(Table::TypeDef, n, 5),
        rows,
    )?;
    signature_of(alloc, source, row)
}

/// The delegate of this name.
pub fn delegate_of<'a>(
    alloc: Global,
    source: &Source<'a>,
    n: u32,
    name: FullName,
    attributes: &[Attribute<'a>],
) -> Result<Declaration, Stop<ImageFault>>
    ensures { Gives decl_tree result (methods_as.delegate_of (tables_in source.now.image) n name (map (attribute_seen source.now.image) attributes.now)) }
{
    let version = version_of(alloc, source, n, attributes)?;
    let id = id_of(alloc, source, n, attributes)?;
    let invoke = invoke_of(alloc, source, n)?;
    Ok(Declaration::Delegate {
        name,
        version,
        id,
        invoke,
    })
}
