//! A found type, and what it is made of.

ghost use Rattle.std.specs.Prelude.{◌≡◌};
ghost use Rattle.found_table.specs.Views.{found_view};
ghost use Rattle.found_table.specs.Table.{name_of};

use wr_base::Base;

/// What stands where a type is wanted in a found type.
#[derive(Clone, Copy, Debug)]
pub enum FoundUse {
    /// A base type.
    Plain(Base),
    /// A found type that takes no argument, by its full name.
    Named(&'static str),
    /// An argument of the template itself, counted from 0.
    Argument(u32),
}

/// A field of a struct, or an in parameter of a delegate.
#[derive(Clone, Copy, Debug)]
pub struct FoundPart {
    pub name: &'static str,
    pub ty: FoundUse,
}

/// A member of a found interface; a method takes no parameter.
#[derive(Clone, Copy, Debug)]
pub enum FoundMember {
    Method {
        name: &'static str,
        result: Option<FoundUse>,
    },
    /// A property that is only read.
    Property {
        name: &'static str,
        ty: FoundUse,
    },
}

/// A found type. One that takes arguments is a template: its instances are types.
#[derive(Clone, Copy, Debug)]
pub enum Found {
    Struct {
        name: &'static str,
        fields: &'static [FoundPart],
    },
    /// It requires no other interface.
    Interface {
        name: &'static str,
        arguments: u32,
        id: u128,
        members: &'static [FoundMember],
    },
    /// Its method `Invoke` returns nothing.
    Delegate {
        name: &'static str,
        arguments: u32,
        id: u128,
        params: &'static [FoundPart],
    },
}

impl Found {
    /// The full name, without arguments.
    pub fn name(&self) -> &'static str
        ensures { result.now ≡ name_of (found_view self.now) }
    {
        match self {
            Found::Struct { name, .. } => *name,
            Found::Interface { name, .. } => *name,
            Found::Delegate { name, .. } => *name,
        }
    }
}
