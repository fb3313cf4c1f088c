//! Copies of declarations and of their parts, which are the same values.

ghost use Rattle.std.specs.Prelude.{◌≡◌, IfOk};
ghost use Rattle.wr_base.specs.declared.declaration.Member.TheVariants.{Method};
ghost use Rattle.wr_base.specs.declared.declaration.Declaration.TheVariants.{Enum, Struct, Delegate, Interface, Class};

use crate::class_lists::ClassLists;
use crate::{
    Case, Cases, Declaration, Field, Fields, FullName, FullNames, Member, Members, Name, Param,
    Signature, TypeUse, Uses, copy_uses,
};
use std::alloc::AllocError;

impl Clone for Param {
    ghost is_clone = { λ a b. b ≡ a };

    fn clone(&self) -> Result<Param, AllocError> {
        Ok(Param {
            name: self.name.clone()?,
            out: self.out,
            ty: self.ty.clone()?,
        })
    }
}

impl Clone for Signature {
    ghost is_clone = { λ a b. b ≡ a };

    fn clone(&self) -> Result<Signature, AllocError> {
        Ok(Signature {
            params: self.params.clone()?,
            result: self.result.clone()?,
        })
    }
}

impl Clone for Case {
    ghost is_clone = { λ a b. b ≡ a };

    fn clone(&self) -> Result<Case, AllocError> {
        Ok(Case {
            name: self.name.clone()?,
            value: self.value,
        })
    }
}

impl Clone for Field {
    ghost is_clone = { λ a b. b ≡ a };

    fn clone(&self) -> Result<Field, AllocError> {
        Ok(Field {
            name: self.name.clone()?,
            ty: self.ty.clone()?,
        })
    }
}

fn method_copy(name: &Name, abi: &Name, sig: &Signature) -> Result<Member, AllocError>
    ensures { IfOk result (λ m. m ≡ Method name.now abi.now sig.now) }
{
    let name = name.clone()?;
    let abi = abi.clone()?;
    let sig = sig.clone()?;
    Ok(Member::Method { name, abi, sig })
}

impl Clone for Member {
    ghost is_clone = { λ a b. b ≡ a };

    fn clone(&self) -> Result<Member, AllocError> {
        match self {
            Member::Method { name, abi, sig } => method_copy(name, abi, sig),
            Member::Property { name, ty, put } => Ok(Member::Property {
                name: name.clone()?,
                ty: ty.clone()?,
                put: *put,
            }),
            Member::Event { name, ty } => Ok(Member::Event {
                name: name.clone()?,
                ty: ty.clone()?,
            }),
        }
    }
}

fn enum_copy(
    name: &FullName,
    version: u32,
    flags: bool,
    cases: &Cases,
) -> Result<Declaration, AllocError>
    ensures { IfOk result (λ d. d ≡ Enum name.now version flags cases.now) }
{
    let name = name.clone()?;
    let cases = cases.clone()?;
    Ok(Declaration::Enum {
        name,
        version,
        flags,
        cases,
    })
}

fn struct_copy(name: &FullName, version: u32, fields: &Fields) -> Result<Declaration, AllocError>
    ensures { IfOk result (λ d. d ≡ Struct name.now version fields.now) }
{
    let name = name.clone()?;
    let fields = fields.clone()?;
    Ok(Declaration::Struct {
        name,
        version,
        fields,
    })
}

fn delegate_copy(
    name: &FullName,
    version: u32,
    id: u128,
    invoke: &Signature,
) -> Result<Declaration, AllocError>
    ensures { IfOk result (λ d. d ≡ Delegate name.now version id invoke.now) }
{
    let name = name.clone()?;
    let invoke = invoke.clone()?;
    Ok(Declaration::Delegate {
        name,
        version,
        id,
        invoke,
    })
}

fn interface_copy(
    name: &FullName,
    version: u32,
    id: u128,
    owner: &Option<FullName>,
    requires_: &Uses,
    members: &Members,
) -> Result<Declaration, AllocError>
    ensures { IfOk result (λ d. d ≡ Interface name.now version id owner.now requires_.now members.now) }
{
    let name = name.clone()?;
    let owner = owner.clone()?;
    let requires_ = copy_uses(name.allocator(), requires_)?;
    let members = members.clone()?;
    Ok(Declaration::Interface {
        name,
        version,
        id,
        owner,
        requires_,
        members,
    })
}

fn class_copy(
    name: &FullName,
    version: u32,
    fixed: bool,
    default: &Option<TypeUse>,
    has: &Uses,
    direct: bool,
    factories: &FullNames,
    statics: &FullNames,
) -> Result<Declaration, AllocError>
    ensures { IfOk result (λ d. d ≡ Class name.now version fixed default.now has.now direct factories.now statics.now) }
{
    let name = name.clone()?;
    let default = default.clone()?;
    let lists = ClassLists::copy(name.allocator(), has, factories, statics)?;
    Ok(lists.into_class(name, version, fixed, default, direct))
}

impl Clone for Declaration {
    ghost is_clone = { λ a b. b ≡ a };

    fn clone(&self) -> Result<Declaration, AllocError> {
        match self {
            Declaration::Enum {
                name,
                version,
                flags,
                cases,
            } => enum_copy(name, *version, *flags, cases),
            Declaration::Struct {
                name,
                version,
                fields,
            } => struct_copy(name, *version, fields),
            Declaration::Delegate {
                name,
                version,
                id,
                invoke,
            } => delegate_copy(name, *version, *id, invoke),
            Declaration::Interface {
                name,
                version,
                id,
                owner,
                requires_,
                members,
            } => interface_copy(name, *version, *id, owner, requires_, members),
            Declaration::Class {
                name,
                version,
                fixed,
                default,
                has,
                direct,
                factories,
                statics,
            } => class_copy(
                name, *version, *fixed, default, has, *direct, factories, statics,
            ),
        }
    }
}
