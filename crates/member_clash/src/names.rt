//! The numbers of the names of an interface's members and accessors.

ghost use Rattle.std.specs.Prelude.{Some, ◌≡◌, ◌∷◌, ◌++◌, [], List, ℕ, IfOk, OnOk, codes, string_bytes};
ghost use Rattle.std.specs.List.{flat_map};
ghost use Rattle.found_table.specs.Views.{member_view, found_view};
ghost use Rattle.wr_base.specs.Uses.{text_of};
ghost use Rattle.wr_rules.specs.Kinds.{meaning_of, declared, found};
ghost use Rattle.wr_rules.specs.Members.{member_name, accessors_of, found_names, names_within};
ghost use Rattle.wr_base.specs.Lower.{lower};
ghost use Rattle.wr_rules.specs.ListRules.{names_at};
ghost use Rattle.numbered.specs.Numbers.{number_in, IsNumbering, Kept};
ghost use Rattle.member_clash.specs.Names.{Put, names_in};

use found_table::{Found, FoundMember};
use numbered::{Numbers, number};
use pinterface_id::{Meaning, meaning_of};
use std::alloc::{AllocError, Global};
use wr_base::{Declaration, FullName, Member, TypeUse, Types};

fn put_name(
    alloc: Global,
    numbers: &mut Numbers,
    list: &mut Vec<u32>,
    name: &str,
) -> Result<(), AllocError>
    requires numbering { IsNumbering (number_in numbers.old) numbers.old.count }
    ensures { OnOk result (Put (number_in numbers.old) (number_in numbers.new) numbers.new.count (name.now ∷ []) list.old.items list.new.items) }
{
    let small = name.to_ascii_lowercase(alloc)?;
    let k = number(alloc, numbers, small.as_str())?;
    list.push(k)?;
    Ok(())
}

fn put_accessor(
    alloc: Global,
    numbers: &mut Numbers,
    list: &mut Vec<u32>,
    what: &str,
    name: &str,
) -> Result<(), AllocError>
    requires numbering { IsNumbering (number_in numbers.old) numbers.old.count }
    ensures { OnOk result (Put (number_in numbers.old) (number_in numbers.new) numbers.new.count ((what.now ++ name.now) ∷ []) list.old.items list.new.items) }
{
    let mut text = String::from_str(alloc, what)?;
    text.push_str(name)?;
    put_name(alloc, numbers, list, text.as_str())
}

fn put_event(
    alloc: Global,
    numbers: &mut Numbers,
    list: &mut Vec<u32>,
    name: &str,
) -> Result<(), AllocError>
    requires numbering { IsNumbering (number_in numbers.old) numbers.old.count }
    ensures { OnOk result (Put (number_in numbers.old) (number_in numbers.new) numbers.new.count (name.now ∷ (codes "add_" ++ name.now) ∷ (codes "remove_" ++ name.now) ∷ []) list.old.items list.new.items) }
{
    put_name(alloc, numbers, list, name)?;
    put_accessor(alloc, numbers, list, "add_", name)?;
    put_accessor(alloc, numbers, list, "remove_", name)
}

fn put_read_only(
    alloc: Global,
    numbers: &mut Numbers,
    list: &mut Vec<u32>,
    name: &str,
) -> Result<(), AllocError>
    requires numbering { IsNumbering (number_in numbers.old) numbers.old.count }
    ensures { OnOk result (Put (number_in numbers.old) (number_in numbers.new) numbers.new.count (name.now ∷ (codes "get_" ++ name.now) ∷ []) list.old.items list.new.items) }
{
    put_name(alloc, numbers, list, name)?;
    put_accessor(alloc, numbers, list, "get_", name)
}

fn put_both(
    alloc: Global,
    numbers: &mut Numbers,
    list: &mut Vec<u32>,
    name: &str,
) -> Result<(), AllocError>
    requires numbering { IsNumbering (number_in numbers.old) numbers.old.count }
    ensures { OnOk result (Put (number_in numbers.old) (number_in numbers.new) numbers.new.count (name.now ∷ (codes "get_" ++ name.now) ∷ (codes "put_" ++ name.now) ∷ []) list.old.items list.new.items) }
{
    put_read_only(alloc, numbers, list, name)?;
    put_accessor(alloc, numbers, list, "put_", name)
}

fn put_member(
    alloc: Global,
    numbers: &mut Numbers,
    list: &mut Vec<u32>,
    member: &Member,
) -> Result<(), AllocError>
    requires numbering { IsNumbering (number_in numbers.old) numbers.old.count }
    ensures { OnOk result (Put (number_in numbers.old) (number_in numbers.new) numbers.new.count (names_in member.now) list.old.items list.new.items) }
{
    match member {
        Member::Method { name, .. } => put_name(alloc, numbers, list, name.as_str()),
        Member::Property { name, put, .. } => {
            if *put {
                put_both(alloc, numbers, list, name.as_str())
            } else {
                put_read_only(alloc, numbers, list, name.as_str())
            }
        }
        Member::Event { name, .. } => put_event(alloc, numbers, list, name.as_str()),
    }
}

fn put_members(
    alloc: Global,
    numbers: &mut Numbers,
    list: &mut Vec<u32>,
    members: &[Member],
) -> Result<(), AllocError>
    requires numbering { IsNumbering (number_in numbers.old) numbers.old.count }
    ensures { OnOk result (Put (number_in numbers.old) (number_in numbers.new) numbers.new.count (flat_map names_in members.now) list.old.items list.new.items) }
{
    for member in members {
        put_member(alloc, numbers, list, member)?;
    }
    Ok(())
}

fn put_found_member(
    alloc: Global,
    numbers: &mut Numbers,
    list: &mut Vec<u32>,
    member: &FoundMember,
) -> Result<(), AllocError>
    requires numbering { IsNumbering (number_in numbers.old) numbers.old.count }
    ensures { OnOk result (Put (number_in numbers.old) (number_in numbers.new) numbers.new.count (found_names (member_view member.now)) list.old.items list.new.items) }
{
    match member {
        FoundMember::Method { name, .. } => put_name(alloc, numbers, list, name),
        FoundMember::Property { name, .. } => put_read_only(alloc, numbers, list, name),
    }
}

fn put_found_members(
    alloc: Global,
    numbers: &mut Numbers,
    list: &mut Vec<u32>,
    members: &[FoundMember],
) -> Result<(), AllocError>
    requires numbering { IsNumbering (number_in numbers.old) numbers.old.count }
    ensures { OnOk result (Put (number_in numbers.old) (number_in numbers.new) numbers.new.count (flat_map (λ m. found_names (member_view m)) members.now) list.old.items list.new.items) }
{
    for member in members {
        put_found_member(alloc, numbers, list, member)?;
    }
    Ok(())
}

fn put_declared(
    alloc: Global,
    numbers: &mut Numbers,
    list: &mut Vec<u32>,
    declaration: &Declaration,
) -> Result<(), AllocError>
    requires numbering { IsNumbering (number_in numbers.old) numbers.old.count }
    ensures { OnOk result (Put (number_in numbers.old) (number_in numbers.new) numbers.new.count (names_within (Some (declared declaration.now))) list.old.items list.new.items) }
{
    match declaration {
        Declaration::Interface { members, .. } => {
            put_members(alloc, numbers, list, members.as_slice())
        }
        _ => Ok(()),
    }
}

fn put_found(
    alloc: Global,
    numbers: &mut Numbers,
    list: &mut Vec<u32>,
    row: &Found,
) -> Result<(), AllocError>
    requires numbering { IsNumbering (number_in numbers.old) numbers.old.count }
    ensures { OnOk result (Put (number_in numbers.old) (number_in numbers.new) numbers.new.count (names_within (Some (found (found_view row.now)))) list.old.items list.new.items) }
{
    match row {
        Found::Interface { members, .. } => put_found_members(alloc, numbers, list, members),
        _ => Ok(()),
    }
}

/// Puts the numbers of the names of what a name means behind what is there.
pub fn put_names(
    alloc: Global,
    types: &Types,
    numbers: &mut Numbers,
    list: &mut Vec<u32>,
    name: &FullName,
) -> Result<(), AllocError>
    requires numbering { IsNumbering (number_in numbers.old) numbers.old.count }
    ensures { OnOk result (Put (number_in numbers.old) (number_in numbers.new) numbers.new.count (names_within (meaning_of types.now name.now)) list.old.items list.new.items) }
{
    match meaning_of(types, name) {
        None => Ok(()),
        Some(Meaning::Declared(_, declaration)) => put_declared(alloc, numbers, list, declaration),
        Some(Meaning::Found(row)) => put_found(alloc, numbers, list, &row),
    }
}
