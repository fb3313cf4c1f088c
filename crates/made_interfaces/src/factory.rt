//! The methods of a factory, one for each constructor with parameters.

ghost use Rattle.std.specs.Prelude.{◌≡◌, ◌+◌, ◌<◌, ◌^◌, Some, IfOk, OnOk, length};
ghost use Rattle.std.specs.List.{filter};
ghost use Rattle.wr_base.specs.declared.type_use.TypeUse.TheVariants.{Reference};
ghost use Rattle.made_interfaces.specs.Made.{factory_name, makes, factory_method, factory_methods, takes_some};
ghost use Rattle.made_interfaces.specs.Steps.{methods_with};

use crate::wants::takes_some;
use std::alloc::{AllocError, Global};
use wr_base::{FullName, Listed, Member, Members, Name, Signature, TypeUse};

// `CreateInstance`, and behind so many others its numeral.
fn factory_name(alloc: Global, count: usize) -> Result<Name, AllocError>
    requires { count + 1 < 2 ^ 64 }
    ensures { IfOk result (λ name. name ≡ factory_name count) }
{
    if count == 0 {
        return Ok(Name::new(String::from_str(alloc, "CreateInstance")?));
    }
    let number = count + 1;
    let numbered = format!(in alloc; "CreateInstance{number}")?;
    Ok(Name::new(numbered))
}

// A constructor's parameters, and the class as result.
fn makes(class: &FullName, constructor: &Signature) -> Result<Signature, AllocError>
    ensures { IfOk result (λ sig. sig ≡ makes class.now constructor.now) }
{
    let params = constructor.params.clone()?;
    let name = class.clone()?;
    Ok(Signature {
        params,
        result: Some(TypeUse::Reference(name)),
    })
}

fn factory_method(
    alloc: Global,
    class: &FullName,
    count: usize,
    constructor: &Signature,
) -> Result<Member, AllocError>
    requires { count + 1 < 2 ^ 64 }
    ensures { IfOk result (λ method. method ≡ factory_method class.now count constructor.now) }
{
    let name = factory_name(alloc, count)?;
    let abi = name.clone()?;
    let sig = makes(class, constructor)?;
    Ok(Member::Method { name, abi, sig })
}

fn push_method(
    alloc: Global,
    class: &FullName,
    methods: &mut Vec<Member>,
    constructor: &Signature,
) -> Result<(), AllocError>
    requires { length methods.old.items + 1 < 2 ^ 64 }
    ensures { OnOk result (methods.new.items ≡ methods_with class.now methods.old.items constructor.now) }
{
    if takes_some(constructor) {
        let count = methods.len();
        methods.push(factory_method(alloc, class, count, constructor)?)?;
    }
    Ok(())
}

/// A method for each constructor with parameters.
pub(crate) fn factory_methods(
    alloc: Global,
    class: &FullName,
    constructors: &[Signature],
) -> Result<Members, AllocError>
    ensures { IfOk result (λ methods. methods ≡ factory_methods class.now 0 (filter takes_some constructors.now)) }
{
    let mut methods = Vec::new(alloc);
    for constructor in constructors {
        push_method(alloc, class, &mut methods, constructor)?;
    }
    Ok(Listed::from_vec(methods))
}
