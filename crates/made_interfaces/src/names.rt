//! The names of made interfaces.

ghost use Rattle.std.specs.Prelude.{◌≡◌, ◌∷◌, ◌++◌, [], IfOk, OnOk, IsTrue, codes, string_bytes};
ghost use Rattle.std.specs.List.{list_all};
ghost use Rattle.wr_base.specs.Paths.{is_path, is_rest};
ghost use Rattle.made_interfaces.specs.Made.{made_name, where_, makes_default, factories_of, statics_of, names_made, made_by};

use crate::wants::{makes_default, makes_factory, makes_statics};
use placed_items::{Written, WrittenClass};
use std::alloc::{AllocError, Global};
use wr_base::FullName;

// The text `SPACE.IOWNWORD`.
fn spelled(alloc: Global, space: &str, own: &str, word: &str) -> Result<String, AllocError>
    ensures { IfOk result (λ text. string_bytes text ≡ space.now ++ 46 ∷ 73 ∷ (own.now ++ word.now)) }
{
    let mut text = String::from_str(alloc, space)?;
    text.push_str(".I")?;
    text.push_str(own)?;
    text.push_str(word)?;
    Ok(text)
}

// I, the class's own name and this word, in the class's namespace.
fn made_name(alloc: Global, class: &FullName, word: &str) -> Result<FullName, AllocError>
    requires { IsTrue (list_all is_rest word.now) }
    ensures { IfOk result (λ name. name ≡ made_name class.now word.now) }
{
    let _whole = class.as_str();
    let (space, own) = class.parts();
    let text = spelled(alloc, space, own, word)?;
    match FullName::new(text) {
        Some(name) => Ok(name),
        None => unreachable!(),
    }
}

/// `I<Class>`, the name of the interface of a class's members.
pub(crate) fn default_name(alloc: Global, class: &FullName) -> Result<FullName, AllocError>
    ensures { IfOk result (λ name. name ≡ made_name class.now []) }
{
    made_name(alloc, class, "")
}

/// `I<Class>Statics`, the name of the interface of a class's static members.
pub(crate) fn statics_name(alloc: Global, class: &FullName) -> Result<FullName, AllocError>
    ensures { IfOk result (λ name. name ≡ made_name class.now (codes "Statics")) }
{
    made_name(alloc, class, "Statics")
}

/// `I<Class>Factory`, the name of the interface of a class's constructors with parameters.
pub(crate) fn factory_name(alloc: Global, class: &FullName) -> Result<FullName, AllocError>
    ensures { IfOk result (λ name. name ≡ made_name class.now (codes "Factory")) }
{
    made_name(alloc, class, "Factory")
}

fn push_default_name(
    alloc: Global,
    names: &mut Vec<FullName>,
    class: &WrittenClass,
) -> Result<(), AllocError>
    ensures { OnOk result (names.new.items ≡ names.old.items ++ where_ (makes_default class.now) (made_name class.now.name [])) }
{
    if makes_default(class) {
        names.push(default_name(alloc, &class.name)?)?;
    }
    Ok(())
}

/// Puts the name of the interface of its statics behind what is there, if it has one.
pub(crate) fn push_statics_name(
    alloc: Global,
    names: &mut Vec<FullName>,
    class: &WrittenClass,
) -> Result<(), AllocError>
    ensures { OnOk result (names.new.items ≡ names.old.items ++ statics_of class.now) }
{
    if makes_statics(class) {
        names.push(statics_name(alloc, &class.name)?)?;
    }
    Ok(())
}

/// Puts the name of its factory behind what is there, if it has one.
pub(crate) fn push_factory_name(
    alloc: Global,
    names: &mut Vec<FullName>,
    class: &WrittenClass,
) -> Result<(), AllocError>
    ensures { OnOk result (names.new.items ≡ names.old.items ++ factories_of class.now) }
{
    if makes_factory(class) {
        names.push(factory_name(alloc, &class.name)?)?;
    }
    Ok(())
}

fn names_made(alloc: Global, class: &WrittenClass) -> Result<Vec<FullName>, AllocError>
    ensures { IfOk result (λ names. names.items ≡ names_made class.now) }
{
    let mut names = Vec::new(alloc);
    push_default_name(alloc, &mut names, class)?;
    push_statics_name(alloc, &mut names, class)?;
    push_factory_name(alloc, &mut names, class)?;
    Ok(names)
}

/// The names of the interfaces that are made of an item.
pub fn made_by(alloc: Global, item: &Written) -> Result<Vec<FullName>, AllocError>
    ensures { IfOk result (λ names. names.items ≡ made_by item.now) }
{
    match item {
        Written::Done(_) => Ok(Vec::new(alloc)),
        Written::Class(class) => names_made(alloc, class),
    }
}
