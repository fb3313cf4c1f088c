//! The numbers of listed texts.

ghost use Rattle.std.specs.Prelude.{◌≡◌, ◌∷◌, [], IfOk, OnOk, map, length};
ghost use Rattle.chains.specs.Groups.{graph_of};
ghost use Rattle.numbered.specs.Numbers.{number_in, IsNumbering, Kept, NumbersBy};
ghost use Rattle.wr_base.specs.Uses.{text_of};
ghost use Rattle.wr_rules.specs.ListRules.{listed_in};
ghost use Rattle.list_rules.specs.Names.{NamedTo};
ghost use Rattle.list_rules.specs.Texts.{PutTexts, texts_in, AreSets, SetsNumbered};

use crate::names::number_names;
use numbered::{Numbers, number};
use std::alloc::{AllocError, Global};
use wr_base::{Declaration, TypeUse, Types};

/// The numbers of the texts that each declaration lists, and how many texts are numbered.
#[derive(Debug, Drop)]
pub(crate) struct ListedNumbers {
    pub(crate) sets: Vec<Vec<u32>>,
    pub(crate) count: u32,
}

fn put_use(
    alloc: Global,
    numbers: &mut Numbers,
    list: &mut Vec<u32>,
    ty: &TypeUse,
) -> Result<(), AllocError>
    requires numbering { IsNumbering (number_in numbers.old) numbers.old.count }
    ensures { OnOk result (PutTexts numbers.old numbers.new (text_of ty.now ∷ []) list.old.items list.new.items) }
{
    let text = ty.text(alloc)?;
    let k = number(alloc, numbers, text.as_str())?;
    list.push(k)?;
    Ok(())
}

fn put_uses(
    alloc: Global,
    numbers: &mut Numbers,
    list: &mut Vec<u32>,
    uses: &[TypeUse],
) -> Result<(), AllocError>
    requires numbering { IsNumbering (number_in numbers.old) numbers.old.count }
    ensures { OnOk result (PutTexts numbers.old numbers.new (map text_of uses.now) list.old.items list.new.items) }
{
    for ty in uses {
        put_use(alloc, numbers, list, ty)?;
    }
    Ok(())
}

fn list_of(declaration: &Declaration) -> &[TypeUse]
    ensures { result.now ≡ listed_in declaration.now }
{
    match declaration {
        Declaration::Interface { requires_, .. } => requires_.as_slice(),
        Declaration::Class { has, .. } => has.as_slice(),
        _ => &[],
    }
}

fn set_of(
    alloc: Global,
    numbers: &mut Numbers,
    declaration: &Declaration,
) -> Result<Vec<u32>, AllocError>
    requires numbering { IsNumbering (number_in numbers.old) numbers.old.count }
    ensures numbering { OnOk result (IsNumbering (number_in numbers.new) numbers.new.count) }
    ensures kept { OnOk result (Kept (number_in numbers.old) (number_in numbers.new)) }
    ensures set { IfOk result (λ set. NumbersBy (λ t. t) (number_in numbers.new) (texts_in declaration.now) set.items) }
{
    let mut set = Vec::new(alloc);
    put_uses(alloc, numbers, &mut set, list_of(declaration))?;
    Ok(set)
}

fn sets_of(alloc: Global, types: &Types, numbers: &mut Numbers) -> Result<Vec<Vec<u32>>, AllocError>
    requires numbering { IsNumbering (number_in numbers.old) numbers.old.count }
    ensures numbering { OnOk result (IsNumbering (number_in numbers.new) numbers.new.count) }
    ensures kept { OnOk result (Kept (number_in numbers.old) (number_in numbers.new)) }
    ensures sets { IfOk result (λ sets. AreSets (number_in numbers.new) types.now (length types.now) (graph_of sets.items)) }
{
    let mut sets = Vec::new(alloc);
    for i in 0..types.len() {
        let set = set_of(alloc, numbers, types.at(i))?;
        sets.push(set)?;
    }
    Ok(sets)
}

/// Numbers the declared names by their places, and then all listed texts.
pub(crate) fn listed_numbers(alloc: Global, types: &Types) -> Result<ListedNumbers, AllocError>
    ensures { IfOk result (λ listed. SetsNumbered types.now listed.count (graph_of listed.sets.items)) }
{
    let mut numbers = number_names(alloc, types)?;
    let sets = sets_of(alloc, types, &mut numbers)?;
    Ok(ListedNumbers {
        sets,
        count: numbers.count,
    })
}
