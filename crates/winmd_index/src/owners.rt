//! The types that own methods.

ghost use Rattle.std.specs.Prelude.{◌≡◌, ◌≤◌, ◌+◌, ℕ, IfOk, get_or, length};
ghost use Rattle.md_schema.specs.declared.table.Table.TheVariants as tables;
ghost use Rattle.winmd_cells.specs.Indexed.{IsIndex};
ghost use Rattle.winmd_cells.specs.Seen.{tables_in};
ghost use Rattle.winmd_index.specs.Names.{starting};
ghost use Rattle.winmd_sets.specs.Attributes.{owner_of};

use md_schema::Table;
use ranked::Memory;
use std::alloc::Global;
use winmd_cells::{Image, index, owned};

/// How many types begin their methods at a number.
fn starting(image: &Image<'_>, lists: &[Vec<u32>], n: u32) -> u32
    requires index { IsIndex image.now tables.TypeDef 5 tables.MethodDef lists.now }
    requires within { n ≤ length ((tables_in image.now).rows tables.MethodDef) }
    ensures { result ≡ length (starting image.now n) }
{
    let _types = image.count(Table::TypeDef);
    owned(lists, n).len() as u32
}

fn next_owner(image: &Image<'_>, lists: &[Vec<u32>], n: u32, owner: u32) -> u32
    requires index { IsIndex image.now tables.TypeDef 5 tables.MethodDef lists.now }
    requires within { n + 1 ≤ length ((tables_in image.now).rows tables.MethodDef) }
    requires owner { owner ≡ owner_of (tables_in image.now) n }
    ensures { result ≡ owner_of (tables_in image.now) (n + 1) }
{
    let _types = image.count(Table::TypeDef);
    let _methods = image.count(Table::MethodDef);
    let more = starting(image, lists, n + 1);
    owner + more
}

/// How many types begin their methods at each number or before it.
fn sums(alloc: Global, image: &Image<'_>, lists: &[Vec<u32>]) -> Result<Vec<u32>, Memory>
    requires { IsIndex image.now tables.TypeDef 5 tables.MethodDef lists.now }
    ensures { IfOk result (λ owners. (n : ℕ) → n ≤ length ((tables_in image.now).rows tables.MethodDef) → get_or owners.items n 0 ≡ owner_of (tables_in image.now) n) }
{
    let mut owners = Vec::new(alloc);
    let mut owner = starting(image, lists, 0);
    owners.push(owner)?;
    for n in 0..image.count(Table::MethodDef) {
        owner = next_owner(image, lists, n, owner);
        owners.push(owner)?;
    }
    Ok(owners)
}

/// The type whose list holds each method, by the method's number from 0 on: the last whose methods begin at it or before it.
pub fn owners_of(alloc: Global, image: &Image<'_>) -> Result<Vec<u32>, Memory>
    ensures { IfOk result (λ owners. (n : ℕ) → n ≤ length ((tables_in image.now).rows tables.MethodDef) → get_or owners.items n 0 ≡ owner_of (tables_in image.now) n) }
{
    let lists = index(alloc, image, Table::TypeDef, 5, Table::MethodDef)?;
    sums(alloc, image, lists.as_slice())
}
