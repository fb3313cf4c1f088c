//! The numbers of declared names: their places.

ghost use Rattle.std.specs.Prelude.{◌≡◌, ◌<◌, ◌+◌, IfOk, OnOk, length};
ghost use Rattle.list_rules.specs.Names.{NamedTo};

use numbered::{Numbers, add, no_numbers};
use std::alloc::{AllocError, Global};
use wr_base::Types;

fn add_name(alloc: Global, types: &Types, numbers: &mut Numbers, i: u32) -> Result<(), AllocError>
    requires within { i < length types.now }
    requires named { NamedTo types.now i numbers.old }
    ensures { OnOk result (NamedTo types.now (i + 1) numbers.new) }
{
    let name = types.at(i).name();
    add(alloc, numbers, name.as_str())?;
    Ok(())
}

/// Numbers the names of all declarations by their places.
pub(crate) fn number_names(alloc: Global, types: &Types) -> Result<Numbers, AllocError>
    ensures { IfOk result (λ numbers. NamedTo types.now (length types.now) numbers) }
{
    let mut numbers = no_numbers(alloc);
    for i in 0..types.len() {
        add_name(alloc, types, &mut numbers, i)?;
    }
    Ok(numbers)
}
