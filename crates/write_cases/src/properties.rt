//! Interfaces with so many properties of type Int32. An interface is `N.E` and its number in five digits, which is its id too; a property is `p` and
//! its number in four.

use sqlite_items::Items;
use std::alloc::{AllocError, Global};
use wr_base::{Base, Declaration, FullName, Listed, Member, Members, Name, TypeUse};

fn push_property(
    members: &mut Members,
    alloc: Global,
    n: u32,
    put: bool,
) -> Result<(), AllocError> {
    let name = Name::new(format!(in alloc; "p{n:04}")?);
    members.push(Member::Property {
        name,
        ty: TypeUse::Plain(Base::I32),
        put,
    })
}

fn properties(alloc: Global, count: u32, put: bool) -> Result<Members, AllocError> {
    let mut members = Listed::new(alloc);
    for n in 0..count {
        push_property(&mut members, alloc, n, put)?;
    }
    Ok(members)
}

/// The interface of this name and number with so many properties.
pub fn interface_of(
    alloc: Global,
    name: FullName,
    n: u32,
    count: u32,
    put: bool,
) -> Result<Declaration, AllocError> {
    let members = properties(alloc, count, put)?;
    Ok(Declaration::Interface {
        name,
        version: 1,
        id: n as u128,
        owner: None,
        requires_: Items::new(alloc),
        members,
    })
}
