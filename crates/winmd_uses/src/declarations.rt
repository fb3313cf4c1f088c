//! All declarations of a set.

ghost use Rattle.std.specs.Prelude.{◌≡◌, OnOk, IfOk, bytes_eq, map, true};
ghost use Rattle.std.specs.List.{flat_map, list_any};
ghost use Rattle.wr_base.specs.Declarations.{name_of};
ghost use Rattle.wr_base.specs.Trees.{decl_tree};
ghost use Rattle.winmd_sets.specs.Declared.{lines_of};
ghost use Rattle.winmd_uses.specs.Takes.{Takes, lines_say, types_in};
ghost use Rattle.winmd_uses.specs.Uses.{IsUsed};

use crate::used::Used;
use ranked::Memory;
use std::alloc::Global;
use wr_base::{Declaration, Types};

fn take_declaration(used: &mut Used<'_>, declaration: &Declaration) -> Result<(), Memory>
    requires { list_any (bytes_eq (name_of declaration.now)) (types_in used.old) ≡ true }
    ensures { OnOk result (Takes (lines_say (lines_of (decl_tree declaration.now))) used.old used.new) }
{
    match declaration {
        Declaration::Enum {
            name,
            flags,
            cases,
            ..
        } => used.take_enum(name, *flags, cases),
        Declaration::Struct { fields, .. } => used.take_struct(fields.as_slice()),
        Declaration::Delegate { invoke, .. } => used.take_delegate(invoke),
        Declaration::Interface {
            owner,
            requires_,
            members,
            ..
        } => used.take_interface(owner, requires_.as_slice(), members.as_slice()),
        Declaration::Class {
            default,
            has,
            direct,
            factories,
            statics,
            ..
        } => used.take_class(default, has.as_slice(), *direct, factories, statics),
    }
}

fn take_declarations(used: &mut Used<'_>) -> Result<(), Memory>
    ensures { OnOk result (Takes (lines_say (flat_map lines_of (map decl_tree used.old.types.now))) used.old used.new) }
{
    let types = used.types;
    for i in 0..types.len() {
        take_declaration(used, types.at(i))?;
    }
    Ok(())
}

/// What the rows of a set use: the names of types that it doesn't declare, the constructors of attributes, and the instances in the order in
/// which they are first used. Err is want of memory.
pub fn uses_of<'a>(alloc: Global, types: &'a Types) -> Result<Used<'a>, Memory>
    ensures { IfOk result (IsUsed (map decl_tree types.now)) }
{
    let mut used = Used::new(alloc, types);
    take_declarations(&mut used)?;
    Ok(used)
}
