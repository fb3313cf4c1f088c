//! Declarations of which two listed interfaces share a name.

ghost use Rattle.stamps.specs.Shared.{stamp_in};
ghost use Rattle.std.specs.Prelude.{◌≡◌, ◌<◌, ◌≤◌, ◌^◌, ℕ, None, List, Bool, IfOk, OnOk, map, length};
ghost use Rattle.member_clash.specs.Tables.{KnownIn, Knows, texts_listed, clash_at};
ghost use Rattle.numbered.specs.Numbers.{number_in, Kept, NumbersBy};
ghost use Rattle.chains.specs.Groups.{graph_of};

use crate::table::{Table, put_set};
use numbered::no_numbers;
use stamps::share_two;
use std::alloc::{AllocError, Global};
use wr_base::{Declaration, Types};

fn set_of(
    alloc: Global,
    types: &Types,
    table: &mut Table,
    declaration: &Declaration,
) -> Result<Vec<u32>, AllocError>
    requires known { KnownIn types.now table.old }
    ensures known { OnOk result (KnownIn types.now table.new) }
    ensures kept { OnOk result (Kept (number_in table.old.texts) (number_in table.new.texts)) }
    ensures set { IfOk result (λ set. NumbersBy (λ t. t) (number_in table.new.texts) (texts_listed declaration.now) set.items) }
{
    let mut set = Vec::new(alloc);
    put_set(alloc, types, table, &mut set, declaration)?;
    Ok(set)
}

fn sets_of(alloc: Global, types: &Types, table: &mut Table) -> Result<Vec<Vec<u32>>, AllocError>
    requires known { KnownIn types.now table.old }
    ensures known { OnOk result (KnownIn types.now table.new) }
    ensures sets { IfOk result (λ sets. Knows (number_in table.new.texts) types.now (graph_of sets.items)) }
{
    let mut sets = Vec::new(alloc);
    for i in 0..types.len() {
        let set = set_of(alloc, types, table, types.at(i))?;
        sets.push(set)?;
    }
    Ok(sets)
}

fn tell_each(
    alloc: Global,
    types: &Types,
    table: &Table,
    stamps: &mut [u64],
    sets: &[Vec<u32>],
) -> Result<Vec<bool>, AllocError>
    requires short { length sets.now < 2 ^ 32 }
    requires known { KnownIn types.now table.now }
    requires size { length stamps.old ≡ table.now.names.count }
    requires clear { (x : ℕ) → stamp_in stamps.old x ≤ 0 }
    requires sets { Knows (number_in table.now.texts) types.now (graph_of sets.now) }
    ensures { IfOk result (λ on. on.items ≡ map (clash_at types.now) types.now) }
{
    let _count = table.texts.count;
    let mut on = Vec::new(alloc);
    for i in 0..sets.len() {
        let told = share_two(stamps, i as u32, table.owned.as_slice(), sets[i].as_slice());
        on.push(told)?;
    }
    Ok(on)
}

fn no_table(alloc: Global, types: &Types) -> Table
    ensures { KnownIn types.now result }
{
    let _count = types.len();
    Table {
        texts: no_numbers(alloc),
        names: no_numbers(alloc),
        owned: Vec::new(alloc),
    }
}

/// Whether two of the interfaces that a declaration lists share a member's or an accessor's name, of each declaration. It takes time that is linear in the
/// names of the listed interfaces, but for a logarithm for each text and each name of an interface.
pub fn clashes(alloc: Global, types: &Types) -> Result<Vec<bool>, AllocError>
    ensures { IfOk result (λ on. on.items ≡ map (clash_at types.now) types.now) }
{
    let _count = types.len();
    let mut table = no_table(alloc, types);
    let sets = sets_of(alloc, types, &mut table)?;
    let mut stamps = vec![in alloc; 0u64; table.names.count as usize]?;
    tell_each(alloc, types, &table, &mut stamps, sets.as_slice())
}
