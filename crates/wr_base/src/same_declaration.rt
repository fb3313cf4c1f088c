//! Whether two declarations are one value.

ghost use Rattle.std.specs.Prelude.{◌≡◌, ◌↔◌, IsTrue};
ghost use Rattle.wr_base.specs.declared.declaration.Member.TheVariants.{Method, Property, Event};
ghost use Rattle.wr_base.specs.declared.declaration.Declaration.TheVariants.{Enum, Struct, Delegate, Interface, Class};

use crate::{
    Cases, Declaration, Fields, FullName, FullNames, Member, Members, Name, Same, Signature,
    TypeUse, Uses,
};

impl Member {
    fn is_method(&self, name: &Name, abi: &Name, sig: &Signature) -> bool
        ensures { IsTrue result ↔ (Method name.now abi.now sig.now ≡ self.now) }
    {
        match self {
            Member::Method {
                name: own_name,
                abi: own_abi,
                sig: own_sig,
            } => name.same(own_name) && abi.same(own_abi) && sig.same(own_sig),
            _ => false,
        }
    }

    fn is_property(&self, name: &Name, ty: &TypeUse, put: bool) -> bool
        ensures { IsTrue result ↔ (Property name.now ty.now put ≡ self.now) }
    {
        match self {
            Member::Property {
                name: own_name,
                ty: own_type,
                put: own_put,
            } => name.same(own_name) && ty.same(own_type) && put == *own_put,
            _ => false,
        }
    }

    fn is_event(&self, name: &Name, ty: &TypeUse) -> bool
        ensures { IsTrue result ↔ (Event name.now ty.now ≡ self.now) }
    {
        match self {
            Member::Event {
                name: own_name,
                ty: own_type,
            } => name.same(own_name) && ty.same(own_type),
            _ => false,
        }
    }
}

impl Same for Member {
    fn same(&self, other: &Member) -> bool {
        match self {
            Member::Method { name, abi, sig } => other.is_method(name, abi, sig),
            Member::Property { name, ty, put } => other.is_property(name, ty, *put),
            Member::Event { name, ty } => other.is_event(name, ty),
        }
    }
}

impl Declaration {
    fn is_enum(&self, name: &FullName, version: u32, flags: bool, cases: &Cases) -> bool
        ensures { IsTrue result ↔ (Enum name.now version flags cases.now ≡ self.now) }
    {
        match self {
            Declaration::Enum {
                name: own_name,
                version: own_version,
                flags: own_flags,
                cases: own_cases,
            } => name.same(own_name)
                && version == *own_version
                && flags == *own_flags
                && cases.same(own_cases),
            _ => false,
        }
    }

    fn is_struct(&self, name: &FullName, version: u32, fields: &Fields) -> bool
        ensures { IsTrue result ↔ (Struct name.now version fields.now ≡ self.now) }
    {
        match self {
            Declaration::Struct {
                name: own_name,
                version: own_version,
                fields: own_fields,
            } => name.same(own_name) && version == *own_version && fields.same(own_fields),
            _ => false,
        }
    }

    fn is_delegate(&self, name: &FullName, version: u32, id: u128, invoke: &Signature) -> bool
        ensures { IsTrue result ↔ (Delegate name.now version id invoke.now ≡ self.now) }
    {
        match self {
            Declaration::Delegate {
                name: own_name,
                version: own_version,
                id: own_id,
                invoke: own_invoke,
            } => name.same(own_name)
                && version == *own_version
                && id == *own_id
                && invoke.same(own_invoke),
            _ => false,
        }
    }

    fn is_interface(
        &self,
        name: &FullName,
        version: u32,
        id: u128,
        owner: &Option<FullName>,
        requires_: &Uses,
        members: &Members,
    ) -> bool
        ensures { IsTrue result ↔ (Interface name.now version id owner.now requires_.now members.now ≡ self.now) }
    {
        match self {
            Declaration::Interface {
                name: own_name,
                version: own_version,
                id: own_id,
                owner: own_owner,
                requires_: own_requires,
                members: own_members,
            } => name.same(own_name)
                && version == *own_version
                && id == *own_id
                && owner.same(own_owner)
                && requires_.same(own_requires)
                && members.same(own_members),
            _ => false,
        }
    }

    fn is_class(
        &self,
        name: &FullName,
        version: u32,
        fixed: bool,
        default: &Option<TypeUse>,
        has: &Uses,
        direct: bool,
        factories: &FullNames,
        statics: &FullNames,
    ) -> bool
        ensures { IsTrue result ↔ (Class name.now version fixed default.now has.now direct factories.now statics.now ≡ self.now) }
    {
        match self {
            Declaration::Class {
                name: own_name,
                version: own_version,
                fixed: own_fixed,
                default: own_default,
                has: own_has,
                direct: own_direct,
                factories: own_factories,
                statics: own_statics,
            } => name.same(own_name)
                && version == *own_version
                && fixed == *own_fixed
                && default.same(own_default)
                && has.same(own_has)
                && direct == *own_direct
                && factories.same(own_factories)
                && statics.same(own_statics),
            _ => false,
        }
    }
}

impl Same for Declaration {
    fn same(&self, other: &Declaration) -> bool {
        match self {
            Declaration::Enum {
                name,
                version,
                flags,
                cases,
            } => other.is_enum(name, *version, *flags, cases),
            Declaration::Struct {
                name,
                version,
                fields,
            } => other.is_struct(name, *version, fields),
            Declaration::Delegate {
                name,
                version,
                id,
                invoke,
            } => other.is_delegate(name, *version, *id, invoke),
            Declaration::Interface {
                name,
                version,
                id,
                owner,
                requires_,
                members,
            } => other.is_interface(name, *version, *id, owner, requires_, members),
            Declaration::Class {
                name,
                version,
                fixed,
                default,
                has,
                direct,
                factories,
                statics,
            } => other.is_class(
                name, *version, *fixed, default, has, *direct, factories, statics,
            ),
        }
    }
}
