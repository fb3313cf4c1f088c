//! Interfaces that stand in two lists of a class, and listed interfaces that share a name.

ghost use Rattle.std.specs.Prelude.{◌≡◌, ◌||◌, ◌⊎◌, ◌↔◌, ℕ, List, true, IsTrue, IfOk, OnOk, map, length};
ghost use Rattle.std.specs.List.{list_any};
ghost use Rattle.std.specs.Str.{bytes_eq};
ghost use Rattle.std.specs.String.{string_cmp};
ghost use Rattle.std.specs.BTreeSet.{Updates, contains_text};
ghost use Rattle.wr_base.specs.Uses.{text_of};
ghost use Rattle.wr_base.specs.declared.declaration.Declaration.{Declaration};
ghost use Rattle.wr_rules.specs.ListRules.{stands_twice};
ghost use Rattle.list_rules.specs.Open.{FlagsAre, Marked, twice_at, clash_listed};
ghost use Rattle.flagged_sites.specs.Flags.{flag_of};
ghost use Rattle.member_clash.specs.Tables.{clash_at};

use member_clash::clashes;
use std::alloc::{AllocError, Global};
use std::collections::BTreeSet;
use wr_base::{Declaration, FullName, TypeUse, Types};

fn mark(texts: &mut BTreeSet<String>, text: String) -> Result<(), AllocError>
    ensures { OnOk result (Updates string_cmp texts.old texts.new text true) }
{
    match texts.insert(text) {
        Ok(_) => Ok(()),
        Err(_) => Err(AllocError),
    }
}

fn mark_name(alloc: Global, texts: &mut BTreeSet<String>, name: &FullName) -> Result<(), AllocError>
    ensures { OnOk result ((q : List ℕ) → contains_text texts.new q ≡ (contains_text texts.old q || bytes_eq name.now q)) }
{
    let text = String::from_str(alloc, name.as_str())?;
    mark(texts, text)
}

fn marked(alloc: Global, names: &[FullName]) -> Result<BTreeSet<String>, AllocError>
    ensures { IfOk result (λ texts. Marked names.now (contains_text texts)) }
{
    let mut texts = BTreeSet::new(alloc);
    for name in names {
        mark_name(alloc, &mut texts, name)?;
    }
    Ok(texts)
}

fn is_marked(alloc: Global, texts: &BTreeSet<String>, ty: &TypeUse) -> Result<bool, AllocError>
    ensures { IfOk result (λ b. b ≡ contains_text texts.now (text_of ty.now)) }
{
    let text = ty.text(alloc)?;
    Ok(texts.contains(text.as_str()))
}

fn any_use(alloc: Global, texts: &BTreeSet<String>, uses: &[TypeUse]) -> Result<bool, AllocError>
    ensures { IfOk result (λ b. b ≡ list_any (contains_text texts.now) (map text_of uses.now)) }
{
    let mut any = false;
    for ty in uses {
        let one = is_marked(alloc, texts, ty)?;
        any = either(any, one);
    }
    Ok(any)
}

fn either(a: bool, b: bool) -> bool
    ensures { result ≡ (a || b) }
{
    a || b
}

fn name_marked(texts: &BTreeSet<String>, name: &FullName) -> bool
    ensures { result ≡ contains_text texts.now name.now }
{
    texts.contains(name.as_str())
}

fn any_name(texts: &BTreeSet<String>, names: &[FullName]) -> bool
    ensures { result ≡ list_any (contains_text texts.now) names.now }
{
    let mut any = false;
    for name in names {
        let one = name_marked(texts, name);
        any = either(any, one);
    }
    any
}

fn stand_twice(
    alloc: Global,
    has: &[TypeUse],
    factories: &[FullName],
    made: &BTreeSet<String>,
    shown: &BTreeSet<String>,
) -> Result<bool, AllocError>
    ensures { IfOk result (λ b. b ≡ ((list_any (contains_text made.now) (map text_of has.now) || list_any (contains_text shown.now) (map text_of has.now)) || list_any (contains_text shown.now) factories.now)) }
{
    let first = any_use(alloc, made, has)?;
    let second = any_use(alloc, shown, has)?;
    let third = any_name(shown, factories);
    Ok(either(either(first, second), third))
}

fn class_twice(
    alloc: Global,
    has: &[TypeUse],
    factories: &[FullName],
    statics: &[FullName],
) -> Result<bool, AllocError>
    ensures { IfOk result (λ b. (types : List Declaration) → b ≡ stands_twice types has.now factories.now statics.now) }
{
    let made = marked(alloc, factories)?;
    let shown = marked(alloc, statics)?;
    stand_twice(alloc, has, factories, &made, &shown)
}

fn twice_at(alloc: Global, declaration: &Declaration) -> Result<bool, AllocError>
    ensures { IfOk result (λ b. (types : List Declaration) → b ≡ twice_at types declaration.now) }
{
    match declaration {
        Declaration::Class {
            has,
            factories,
            statics,
            ..
        } => class_twice(
            alloc,
            has.as_slice(),
            factories.as_slice(),
            statics.as_slice(),
        ),
        _ => Ok(false),
    }
}

fn flag_at(flags: &[bool], i: usize) -> bool
    ensures { result ≡ flag_of flags.now i }
{
    match flags.get(i) {
        Some(flag) => *flag,
        None => false,
    }
}

fn with_twice(alloc: Global, types: &Types, shared: &[bool]) -> Result<Vec<bool>, AllocError>
    requires { shared.now ≡ map (clash_at types.now) types.now }
    ensures { IfOk result (λ on. FlagsAre (clash_listed types.now) types.now on.items) }
{
    let mut on = Vec::new(alloc);
    for i in 0..types.len() {
        let twice = twice_at(alloc, types.at(i))?;
        let first = flag_at(shared, i as usize);
        let told = either(first, twice);
        on.push(told)?;
    }
    Ok(on)
}

/// Whether two of a declaration's listed interfaces share a name, or an interface stands in two lists of a class.
pub(crate) fn clash_flags(alloc: Global, types: &Types) -> Result<Vec<bool>, AllocError>
    ensures { IfOk result (λ on. FlagsAre (clash_listed types.now) types.now on.items) }
{
    let shared = clashes(alloc, types)?;
    with_twice(alloc, types, shared.as_slice())
}
