//! Texts of interfaces, each numbered once, with the numbers of its names.

ghost use Rattle.std.specs.Option.{option_copied};
ghost use Rattle.wr_base.specs.Paths.{is_path};
ghost use Rattle.wr_base.specs.declared.declaration.Declaration.{Declaration};
ghost use Rattle.std.specs.Prelude.{IsTrue, ◌≡◌, ◌∷◌, ◌++◌, [], Option, Some, None, List, ℕ, IfOk, OnOk, map};
ghost use Rattle.wr_base.specs.Uses.{text_of};
ghost use Rattle.wr_rules.specs.ListRules.{names_at};
ghost use Rattle.numbered.specs.Numbers.{number_in, Kept};
ghost use Rattle.member_clash.specs.Names.{Put};
ghost use Rattle.member_clash.specs.Tables.{KnownIn, IsHead, names_by, Entered, texts_listed};

use crate::names::put_names;
use numbered::{Numbers, add, find};
use std::alloc::{AllocError, Global};
use wr_base::{Declaration, FullName, TypeUse, Types};

/// Texts, names, and the numbers of the names of each text.
#[derive(Debug, Drop)]
pub struct Table {
    pub(crate) texts: Numbers,
    pub(crate) names: Numbers,
    pub(crate) owned: Vec<Vec<u32>>,
}

fn put_head(
    alloc: Global,
    types: &Types,
    table: &mut Table,
    list: &mut Vec<u32>,
    head: Option<&FullName>,
) -> Result<(), AllocError>
    requires known { KnownIn types.now table.old }
    ensures texts { table.new.texts ≡ table.old.texts }
    ensures owned { table.new.owned ≡ table.old.owned }
    ensures put { OnOk result (Put (number_in table.old.names) (number_in table.new.names) table.new.names.count (names_by types.now head.entry) list.old.items list.new.items) }
{
    match head {
        None => Ok(()),
        Some(name) => put_names(alloc, types, &mut table.names, list, name),
    }
}

fn enter_new(
    alloc: Global,
    types: &Types,
    table: &mut Table,
    text: &str,
    head: Option<&FullName>,
) -> Result<u32, AllocError>
    requires known { KnownIn types.now table.old }
    requires head { IsHead types.now text.now head }
    requires new { number_in table.old.texts text.now ≡ None }
    ensures known { OnOk result (KnownIn types.now table.new) }
    ensures kept { OnOk result (Kept (number_in table.old.texts) (number_in table.new.texts)) }
    ensures here { IfOk result (λ k. number_in table.new.texts text.now ≡ Some k) }
{
    let mut list = Vec::new(alloc);
    put_head(alloc, types, table, &mut list, head)?;
    table.owned.push(list)?;
    add(alloc, &mut table.texts, text)
}

fn enter(
    alloc: Global,
    types: &Types,
    table: &mut Table,
    text: &str,
    head: Option<&FullName>,
) -> Result<u32, AllocError>
    requires known { KnownIn types.now table.old }
    requires head { IsHead types.now text.now head }
    ensures known { OnOk result (KnownIn types.now table.new) }
    ensures kept { OnOk result (Kept (number_in table.old.texts) (number_in table.new.texts)) }
    ensures here { IfOk result (λ k. number_in table.new.texts text.now ≡ Some k) }
{
    match find(&table.texts, text) {
        Some(k) => Ok(k),
        None => enter_new(alloc, types, table, text, head),
    }
}

fn put_text(
    alloc: Global,
    types: &Types,
    table: &mut Table,
    set: &mut Vec<u32>,
    text: &str,
    head: Option<&FullName>,
) -> Result<(), AllocError>
    requires known { KnownIn types.now table.old }
    requires head { IsHead types.now text.now head }
    ensures { OnOk result (Entered types.now table.old table.new (text.now ∷ []) set.old.items set.new.items) }
{
    let k = enter(alloc, types, table, text, head)?;
    set.push(k)?;
    Ok(())
}

fn put_name_text(
    alloc: Global,
    types: &Types,
    table: &mut Table,
    set: &mut Vec<u32>,
    name: &FullName,
) -> Result<(), AllocError>
    requires known { KnownIn types.now table.old }
    ensures { OnOk result (Entered types.now table.old table.new (name.now ∷ []) set.old.items set.new.items) }
{
    put_text(alloc, types, table, set, name.as_str(), Some(name))
}

fn put_use_text(
    alloc: Global,
    types: &Types,
    table: &mut Table,
    set: &mut Vec<u32>,
    ty: &TypeUse,
) -> Result<(), AllocError>
    requires known { KnownIn types.now table.old }
    ensures { OnOk result (Entered types.now table.old table.new (text_of ty.now ∷ []) set.old.items set.new.items) }
{
    let text = ty.text(alloc)?;
    let head = head_of(ty);
    put_text(alloc, types, table, set, text.as_str(), head)
}

fn head_of(ty: &TypeUse) -> Option<&FullName>
    ensures { (types : List Declaration) → IsHead types (text_of ty.now) result }
{
    match ty {
        TypeUse::Plain(_) => None,
        TypeUse::Value(name) => head(name),
        TypeUse::Reference(name) => head(name),
        TypeUse::Inst(name, _) => head(name),
    }
}

// A name with what is known of it.
fn head(name: &FullName) -> Option<&FullName>
    ensures some { option_copied result ≡ Some name.now }
    ensures path { IsTrue (is_path name.now) }
{
    let _text = name.as_str();
    Some(name)
}

fn put_use_texts(
    alloc: Global,
    types: &Types,
    table: &mut Table,
    set: &mut Vec<u32>,
    uses: &[TypeUse],
) -> Result<(), AllocError>
    requires known { KnownIn types.now table.old }
    ensures { OnOk result (Entered types.now table.old table.new (map text_of uses.now) set.old.items set.new.items) }
{
    for ty in uses {
        put_use_text(alloc, types, table, set, ty)?;
    }
    Ok(())
}

fn put_name_texts(
    alloc: Global,
    types: &Types,
    table: &mut Table,
    set: &mut Vec<u32>,
    names: &[FullName],
) -> Result<(), AllocError>
    requires known { KnownIn types.now table.old }
    ensures { OnOk result (Entered types.now table.old table.new names.now set.old.items set.new.items) }
{
    for name in names {
        put_name_text(alloc, types, table, set, name)?;
    }
    Ok(())
}

fn put_both_texts(
    alloc: Global,
    types: &Types,
    table: &mut Table,
    set: &mut Vec<u32>,
    uses: &[TypeUse],
    names: &[FullName],
) -> Result<(), AllocError>
    requires known { KnownIn types.now table.old }
    ensures { OnOk result (Entered types.now table.old table.new (map text_of uses.now ++ names.now) set.old.items set.new.items) }
{
    put_use_texts(alloc, types, table, set, uses)?;
    put_name_texts(alloc, types, table, set, names)
}

fn put_first_text(
    alloc: Global,
    types: &Types,
    table: &mut Table,
    set: &mut Vec<u32>,
    name: &FullName,
    uses: &[TypeUse],
) -> Result<(), AllocError>
    requires known { KnownIn types.now table.old }
    ensures { OnOk result (Entered types.now table.old table.new (name.now ∷ map text_of uses.now) set.old.items set.new.items) }
{
    put_name_text(alloc, types, table, set, name)?;
    put_use_texts(alloc, types, table, set, uses)
}

/// Puts the numbers of the texts of a declaration's interfaces behind a list.
pub(crate) fn put_set(
    alloc: Global,
    types: &Types,
    table: &mut Table,
    set: &mut Vec<u32>,
    declaration: &Declaration,
) -> Result<(), AllocError>
    requires known { KnownIn types.now table.old }
    ensures { OnOk result (Entered types.now table.old table.new (texts_listed declaration.now) set.old.items set.new.items) }
{
    match declaration {
        Declaration::Interface {
            name,
            requires_,
            ..
        } => put_first_text(alloc, types, table, set, name, requires_.as_slice()),
        Declaration::Class { has, statics, .. } => {
            put_both_texts(alloc, types, table, set, has.as_slice(), statics.as_slice())
        }
        _ => Ok(()),
    }
}
