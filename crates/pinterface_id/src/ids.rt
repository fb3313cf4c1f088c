//! Version 5 identifiers.

ghost use Rattle.std.specs.Prelude.{◌≡◌, IfOk, IsTrue, Some, option_map, string_bytes};
ghost use Rattle.wr_base.specs.Trees.{tree_of};
ghost use Rattle.wr_rules.specs.Signatures.{version_5, instances_space, names_space, named_id, signature_text, own_id, id_of};
ghost use Rattle.wr_rules.specs.Kinds as kinds;
ghost use Rattle.wr_rules.specs.Kinds.{declared, found as found_as};
ghost use Rattle.found_table.specs.Views.{found_view};
ghost use Rattle.std.specs.Option.{is_some};

use crate::meaning::{Meaning, named};
use crate::walk::signature;
use found_table::Found;
use std::alloc::{AllocError, Global};
use uuid::Uuid;
use wr_base::{Declaration, FullName, TypeUse, Types};

const INSTANCES: u128 = 0x11f47ad5_7b73_42c0_abae_878b1e16adee;

const NAMES: u128 = 0x6f1c2a5e_3b0d_5c47_9e21_0a4d8b7c1f30;

#[tactic(auto, unfolding(wr_rules::specs::Signatures::version_5))]
fn version_5(space: u128, name: &[u8]) -> u128
    ensures { result ≡ version_5 space name.now }
{
    Uuid::new_v5(&Uuid::from_u128(space), name).as_u128()
}

/// The id of an interface or a delegate without one of its own.
pub fn named_id(name: &FullName) -> u128
    ensures { result ≡ named_id name.now }
{
    version_5(NAMES, name.as_str().as_bytes())
}

// The id of an instance, where it has a signature.
fn instance_id(alloc: Global, types: &Types, ty: &TypeUse) -> Result<Option<u128>, AllocError>
    ensures { IfOk result (λ id. id ≡ option_map (version_5 instances_space) (signature_text types.now (tree_of ty.now))) }
{
    match signature(alloc, types, ty)? {
        None => Ok(None),
        Some(text) => Ok(Some(version_5(INSTANCES, text.as_bytes()))),
    }
}

/// The own id of a declared interface or delegate.
pub(crate) fn declared_own_id(declaration: &Declaration) -> Option<u128>
    ensures { result ≡ own_id (Some (declared declaration.now)) }
{
    match declaration {
        Declaration::Interface { id, .. } => Some(*id),
        Declaration::Delegate { id, .. } => Some(*id),
        _ => None,
    }
}

fn found_own_id(found: &Found) -> Option<u128>
    ensures { result ≡ own_id (Some (found_as (found_view found.now))) }
{
    match found {
        Found::Struct { .. } => None,
        Found::Interface { id, .. } => Some(*id),
        Found::Delegate { id, .. } => Some(*id),
    }
}

/// The id of the interface or delegate of this full name, where it is one.
pub(crate) fn name_id(types: &Types, name: &FullName) -> Option<u128>
    ensures { result ≡ own_id (kinds.named types.now name.now 0) }
{
    match named(types, name, 0) {
        None => None,
        Some(Meaning::Declared(_, declaration)) => declared_own_id(declaration),
        Some(Meaning::Found(found)) => found_own_id(&found),
    }
}

/// The id of an interface, a delegate or an instance, where it has one.
pub fn find_id(alloc: Global, types: &Types, ty: &TypeUse) -> Result<Option<u128>, AllocError>
    ensures { IfOk result (λ id. id ≡ id_of types.now (tree_of ty.now)) }
{
    match ty {
        TypeUse::Plain(_) => Ok(None),
        TypeUse::Value(name) => Ok(name_id(types, name)),
        TypeUse::Reference(name) => Ok(name_id(types, name)),
        TypeUse::Inst(_, _) => instance_id(alloc, types, ty),
    }
}

/// The id of an interface, a delegate or an instance that has a signature.
pub fn id_of(alloc: Global, types: &Types, ty: &TypeUse) -> Result<u128, AllocError>
    requires { IsTrue (is_some (id_of types.now (tree_of ty.now))) }
    ensures { IfOk result (λ id. Some id ≡ id_of types.now (tree_of ty.now)) }
{
    match find_id(alloc, types, ty)? {
        None => unreachable!(),
        Some(id) => Ok(id),
    }
}

/// Whether a use has a signature.
pub fn has_signature(alloc: Global, types: &Types, ty: &TypeUse) -> Result<bool, AllocError>
    ensures { IfOk result (λ b. b ≡ is_some (signature_text types.now (tree_of ty.now))) }
{
    match signature(alloc, types, ty)? {
        None => Ok(false),
        Some(_) => Ok(true),
    }
}

/// The signature of a use that has one.
pub fn signature_of(alloc: Global, types: &Types, ty: &TypeUse) -> Result<String, AllocError>
    requires { IsTrue (is_some (signature_text types.now (tree_of ty.now))) }
    ensures { IfOk result (λ text. Some (string_bytes text) ≡ signature_text types.now (tree_of ty.now)) }
{
    match signature(alloc, types, ty)? {
        None => unreachable!(),
        Some(text) => Ok(text),
    }
}
