//! Declared types, of five kinds, and their parts.

ghost use Rattle.std.specs.Prelude.{◌≡◌};
ghost use Rattle.wr_base.specs.Declarations.{name_of};

use crate::{FullName, Listed, Name, TypeUse, Uses};

/// A parameter; `out` is MIDL's `out`.
#[derive(Debug, Drop)]
pub struct Param {
    pub name: Name,
    pub out: bool,
    pub ty: TypeUse,
}

/// A method's parameters, in order.
pub type Params = Listed<Param>;

/// Parameters and a result, which a method without one lacks.
#[derive(Debug, Drop)]
pub struct Signature {
    pub params: Params,
    pub result: Option<TypeUse>,
}

/// A member of an interface (MIDL 3.0 reference, Members). A method has a name and the name of its slot in the ABI.
#[derive(Debug, Drop)]
pub enum Member {
    Method {
        name: Name,
        abi: Name,
        sig: Signature,
    },
    Property {
        name: Name,
        ty: TypeUse,
        put: bool,
    },
    Event {
        name: Name,
        ty: TypeUse,
    },
}

/// An interface's members, in order.
pub type Members = Listed<Member>;

/// A case of an enum.
#[derive(Debug, Drop)]
pub struct Case {
    pub name: Name,
    pub value: i128,
}

/// An enum's cases, in order.
pub type Cases = Listed<Case>;

/// A field of a struct.
#[derive(Debug, Drop)]
pub struct Field {
    pub name: Name,
    pub ty: TypeUse,
}

/// A struct's fields, in order.
pub type Fields = Listed<Field>;

/// A list of full names.
pub type FullNames = Listed<FullName>;

/// A declared type, of one of the five kinds (MIDL 3.0 reference, Types).
#[derive(Debug, Drop)]
pub enum Declaration {
    Enum {
        name: FullName,
        version: u32,
        flags: bool,
        cases: Cases,
    },
    Struct {
        name: FullName,
        version: u32,
        fields: Fields,
    },
    Delegate {
        name: FullName,
        version: u32,
        id: u128,
        invoke: Signature,
    },
    Interface {
        name: FullName,
        version: u32,
        id: u128,
        owner: Option<FullName>,
        requires_: Uses,
        members: Members,
    },
    Class {
        name: FullName,
        version: u32,
        fixed: bool,
        default: Option<TypeUse>,
        has: Uses,
        direct: bool,
        factories: FullNames,
        statics: FullNames,
    },
}

impl Declaration {
    /// The full name.
    pub fn name(&self) -> &FullName
        ensures { result.now ≡ name_of self.now }
    {
        match self {
            Declaration::Enum { name, .. } => name,
            Declaration::Struct { name, .. } => name,
            Declaration::Delegate { name, .. } => name,
            Declaration::Interface { name, .. } => name,
            Declaration::Class { name, .. } => name,
        }
    }
}
