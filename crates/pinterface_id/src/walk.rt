//! The signature of a use, written from left to right. What is left to write stands on a stack, so that structs may nest at any depth.

ghost use Rattle.std.specs.Prelude.{◌≡◌, ◌++◌, ◌∷◌, [], ◌<◌, Some, None, IfOk, OnOk, option_map, length, map, slice_get, string_bytes};
ghost use Rattle.found_table.specs.Views.{found_view, part_view};
ghost use Rattle.found_table.specs.Found.{FoundRow};
ghost use Rattle.wr_base.specs.Declarations.{IsInOrder};
ghost use Rattle.wr_rules.specs.Kinds as kinds;
ghost use Rattle.wr_base.specs.Trees.{tree_of};
ghost use Rattle.std.specs.Prelude.{codes};
ghost use Rattle.wr_rules.specs.Kinds.{option_list};
ghost use Rattle.wr_rules.specs.Signatures.{braced, flags_text, nested, declared_pieces, found_pieces, meaning_pieces, level_pieces, found_piece, signature_text};
ghost use Rattle.pinterface_id.specs.Stack.{Opens, IsNamed, part, items_of, names_open, rest, Opened, Moved, Entered, deeper, template_id, item_of};
ghost use Rattle.pinterface_id.specs.Progress.{Advanced};
ghost use Rattle.pinterface_id.specs.Found.{FoundWritten, PartWritten};
ghost use Rattle.pinterface_id.specs.Views.{meaning_view};

use crate::meaning::{Meaning, named};
use crate::pieces::{base_text, flags_text, push_braced, push_head, push_id_head};
use crate::stack::Work;
use found_table::{Found, FoundPart, FoundUse};
use std::alloc::{AllocError, Global};
use wr_base::{Declaration, Field, FullName, TypeUse, Types};

fn push_found_part(text: &mut String, part: &FoundPart) -> Result<bool, AllocError>
    ensures { IfOk result (λ fine. PartWritten fine (found_piece (part_view part.now).type_) (string_bytes text.old) (string_bytes text.new)) }
{
    match part.ty {
        FoundUse::Plain(base) => {
            text.push_str(";")?;
            text.push_str(base_text(base))?;
            Ok(true)
        }
        FoundUse::Named(_) => Ok(false),
        FoundUse::Argument(_) => Ok(false),
    }
}

fn push_found_struct(
    text: &mut String,
    name: &str,
    fields: &[FoundPart],
) -> Result<bool, AllocError>
    ensures { IfOk result (λ fine. FoundWritten fine (found_pieces [] (λ inside u. []) [] (FoundRow.Struct name.now (map part_view fields.now))) (string_bytes text.old) (string_bytes text.new)) }
{
    push_head(text, "struct", name)?;
    for part in fields {
        if !push_found_part(text, part)? {
            return Ok(false);
        }
    }
    text.push_str(")")?;
    Ok(true)
}

fn push_found(text: &mut String, found: &Found) -> Result<bool, AllocError>
    ensures { IfOk result (λ fine. FoundWritten fine (found_pieces [] (λ inside u. []) [] (found_view found.now)) (string_bytes text.old) (string_bytes text.new)) }
{
    match found {
        Found::Struct { name, fields } => push_found_struct(text, name, fields),
        Found::Interface { id, .. } => {
            push_braced(text, *id)?;
            Ok(true)
        }
        Found::Delegate { id, .. } => {
            push_delegate(text, *id)?;
            Ok(true)
        }
    }
}

fn push_fields<'a>(stack: &mut Vec<Work<'a>>, fields: &'a [Field]) -> Result<(), AllocError>
    ensures { OnOk result (items_of stack.new.items ≡ map part (map tree_of (map (λ f. f.ty) fields.now)) ++ items_of stack.old.items) }
{
    let mut left = fields.len();
    'more: while left > 0 {
        left -= 1;
        stack.push(Work::Part(&fields[left].ty))?;
    }
    Ok(())
}

fn push_uses<'a>(stack: &mut Vec<Work<'a>>, uses: &'a [TypeUse]) -> Result<(), AllocError>
    ensures { OnOk result (items_of stack.new.items ≡ map part (map tree_of uses.now) ++ items_of stack.old.items) }
{
    let mut left = uses.len();
    'more: while left > 0 {
        left -= 1;
        stack.push(Work::Part(&uses[left]))?;
    }
    Ok(())
}

// Writes the head of a struct or a class, which then is open, or is written whole where it is open already.
fn open<'a>(
    flags: &mut [bool],
    stack: &mut Vec<Work<'a>>,
    text: &mut String,
    i: u32,
    word: &str,
    name: &FullName,
) -> Result<bool, AllocError>
    requires { i < length flags.old }
    ensures { IfOk result (λ fresh. Opens fresh i (word.now ++ 40 ∷ name.now) flags.old (items_of stack.old.items) (string_bytes text.old) flags.new (items_of stack.new.items) (string_bytes text.new)) }
{
    push_head(text, word, name.as_str())?;
    if flags[i as usize] {
        text.push_str(")")?;
        return Ok(false);
    }
    flags[i as usize] = true;
    stack.push(Work::Leave(i))?;
    Ok(true)
}

fn push_default<'a>(
    stack: &mut Vec<Work<'a>>,
    default: &'a Option<TypeUse>,
) -> Result<(), AllocError>
    ensures { OnOk result (items_of stack.new.items ≡ map part (map tree_of (option_list default.now)) ++ items_of stack.old.items) }
{
    match default {
        None => Ok(()),
        Some(default) => {
            stack.push(Work::Part(default))?;
            Ok(())
        }
    }
}

fn enter_struct<'a>(
    types: &'a Types,
    flags: &mut [bool],
    stack: &mut Vec<Work<'a>>,
    text: &mut String,
    i: u32,
    name: &FullName,
    fields: &'a [Field],
) -> Result<(), AllocError>
    requires order { IsInOrder types.now }
    requires at { IsNamed types.now i name.now }
    requires opened { Opened types.now flags.old (items_of stack.old.items) }
    ensures { OnOk result (let st = items_of stack.old.items in let inside = names_open types.now st in Moved types.now (nested types.now (deeper types.now inside) inside (codes "struct") name.now (map (λ f. f.ty) fields.now) ++ rest types.now st) flags.new (items_of stack.new.items) (string_bytes text.old) (string_bytes text.new)) }
{
    if !open(flags, stack, text, i, "struct", name)? {
        return Ok(());
    }
    push_fields(stack, fields)
}

fn enter_class<'a>(
    types: &'a Types,
    flags: &mut [bool],
    stack: &mut Vec<Work<'a>>,
    text: &mut String,
    i: u32,
    name: &FullName,
    default: &'a Option<TypeUse>,
) -> Result<(), AllocError>
    requires order { IsInOrder types.now }
    requires at { IsNamed types.now i name.now }
    requires opened { Opened types.now flags.old (items_of stack.old.items) }
    ensures { OnOk result (let st = items_of stack.old.items in let inside = names_open types.now st in Moved types.now (nested types.now (deeper types.now inside) inside (codes "rc") name.now (option_list default.now) ++ rest types.now st) flags.new (items_of stack.new.items) (string_bytes text.old) (string_bytes text.new)) }
{
    if !open(flags, stack, text, i, "rc", name)? {
        return Ok(());
    }
    push_default(stack, default)
}

fn push_enum(text: &mut String, name: &FullName, flags: bool) -> Result<(), AllocError>
    ensures { OnOk result (string_bytes text.new ≡ string_bytes text.old ++ ((codes "enum" ++ 40 ∷ name.now) ++ 59 ∷ flags_text flags ++ 41 ∷ [])) }
{
    push_head(text, "enum", name.as_str())?;
    text.push_str(";")?;
    text.push_str(flags_text(flags))?;
    text.push_str(")")?;
    Ok(())
}

fn push_delegate(text: &mut String, id: u128) -> Result<(), AllocError>
    ensures { OnOk result (string_bytes text.new ≡ string_bytes text.old ++ ((codes "delegate" ++ 40 ∷ braced id) ++ 41 ∷ [])) }
{
    push_id_head(text, "delegate", id)?;
    text.push_str(")")?;
    Ok(())
}

fn enter_declared<'a>(
    types: &'a Types,
    flags: &mut [bool],
    stack: &mut Vec<Work<'a>>,
    text: &mut String,
    i: u32,
    declaration: &'a Declaration,
) -> Result<(), AllocError>
    requires order { IsInOrder types.now }
    requires at { slice_get types.now i ≡ Some declaration.now }
    requires opened { Opened types.now flags.old (items_of stack.old.items) }
    ensures { OnOk result (let st = items_of stack.old.items in let inside = names_open types.now st in Moved types.now (declared_pieces types.now (deeper types.now inside) inside declaration.now ++ rest types.now st) flags.new (items_of stack.new.items) (string_bytes text.old) (string_bytes text.new)) }
{
    match declaration {
        Declaration::Enum {
            name,
            flags: is_flags,
            ..
        } => push_enum(text, name, *is_flags),
        Declaration::Struct { name, fields, .. } => {
            enter_struct(types, flags, stack, text, i, name, fields.as_slice())
        }
        Declaration::Delegate { id, .. } => push_delegate(text, *id),
        Declaration::Interface { id, .. } => push_braced(text, *id),
        Declaration::Class { name, default, .. } => {
            enter_class(types, flags, stack, text, i, name, default)
        }
    }
}

fn enter_name<'a>(
    types: &'a Types,
    flags: &mut [bool],
    stack: &mut Vec<Work<'a>>,
    text: &mut String,
    name: &FullName,
) -> Result<bool, AllocError>
    requires order { IsInOrder types.now }
    requires opened { Opened types.now flags.old (items_of stack.old.items) }
    ensures { IfOk result (λ fine. let st = items_of stack.old.items in let inside = names_open types.now st in Entered types.now fine (meaning_pieces types.now (deeper types.now inside) inside (kinds.named types.now name.now 0) ++ rest types.now st) flags.new (items_of stack.new.items) (string_bytes text.old) (string_bytes text.new)) }
{
    match named(types, name, 0) {
        None => Ok(false),
        Some(Meaning::Declared(i, declaration)) => {
            enter_declared(types, flags, stack, text, i, declaration)?;
            Ok(true)
        }
        Some(Meaning::Found(found)) => push_found(text, &found),
    }
}

fn template_id(meaning: &Option<Meaning>) -> Option<u128>
    ensures { result ≡ template_id (option_map meaning_view meaning.now) }
{
    match meaning {
        Some(Meaning::Found(Found::Interface { id, .. })) => Some(*id),
        Some(Meaning::Found(Found::Delegate { id, .. })) => Some(*id),
        _ => None,
    }
}

fn enter<'a>(
    types: &'a Types,
    flags: &mut [bool],
    stack: &mut Vec<Work<'a>>,
    text: &mut String,
    ty: &'a TypeUse,
) -> Result<bool, AllocError>
    requires order { IsInOrder types.now }
    requires opened { Opened types.now flags.old (items_of stack.old.items) }
    ensures { IfOk result (λ fine. let st = items_of stack.old.items in let inside = names_open types.now st in Entered types.now fine (level_pieces types.now (deeper types.now inside) inside (tree_of ty.now) ++ rest types.now st) flags.new (items_of stack.new.items) (string_bytes text.old) (string_bytes text.new)) }
{
    match ty {
        TypeUse::Plain(base) => {
            text.push_str(base_text(*base))?;
            Ok(true)
        }
        TypeUse::Value(name) => enter_name(types, flags, stack, text, name),
        TypeUse::Reference(name) => enter_name(types, flags, stack, text, name),
        TypeUse::Inst(name, arguments) => {
            let arguments = arguments.as_slice();
            match template_id(&named(types, name, arguments.len())) {
                None => Ok(false),
                Some(id) => {
                    push_id_head(text, "pinterface", id)?;
                    stack.push(Work::Close)?;
                    push_uses(stack, arguments)?;
                    Ok(true)
                }
            }
        }
    }
}

// Goes on with one piece of work.
fn advance<'a>(
    types: &'a Types,
    flags: &mut [bool],
    stack: &mut Vec<Work<'a>>,
    text: &mut String,
    work: Work<'a>,
) -> Result<bool, AllocError>
    requires order { IsInOrder types.now }
    requires opened { Opened types.now flags.old (item_of work ∷ items_of stack.old.items) }
    ensures { IfOk result (λ fine. Advanced types.now fine flags.old (item_of work.entry) (items_of stack.old.items) (string_bytes text.old) flags.new (items_of stack.new.items) (string_bytes text.new)) }
{
    match work {
        Work::Part(part) => {
            text.push_str(";")?;
            enter(types, flags, stack, text, part)
        }
        Work::Close => {
            text.push_str(")")?;
            Ok(true)
        }
        Work::Leave(i) => {
            text.push_str(")")?;
            flags[i as usize] = false;
            Ok(true)
        }
    }
}

fn run<'a>(
    alloc: Global,
    types: &'a Types,
    flags: &mut [bool],
    ty: &'a TypeUse,
) -> Result<Option<String>, AllocError>
    requires order { IsInOrder types.now }
    requires opened { Opened types.now flags.old [] }
    ensures { IfOk result (λ text. option_map (λ t. string_bytes t) text ≡ signature_text types.now (tree_of ty.now)) }
{
    let mut stack = Vec::new(alloc);
    let mut text = String::new(alloc);
    if !enter(types, flags, &mut stack, &mut text, ty)? {
        return Ok(None);
    }
    'more: while let Some(work) = stack.pop() {
        if !advance(types, flags, &mut stack, &mut text, work)? {
            return Ok(None);
        }
    }
    Ok(Some(text))
}

/// The signature of a use, where it has one.
pub fn signature(alloc: Global, types: &Types, ty: &TypeUse) -> Result<Option<String>, AllocError>
    ensures { IfOk result (λ text. option_map (λ t. string_bytes t) text ≡ signature_text types.now (tree_of ty.now)) }
{
    let mut flags = vec![in alloc; false; types.len() as usize]?;
    run(alloc, types, &mut flags, ty)
}
