//! The signatures of accessors.

ghost use Rattle.std.specs.Prelude.{◌≡◌, ◌∷◌, [], IfOk, false, option_map};
ghost use Rattle.winmd_sets.specs.Members as members;
ghost use Rattle.winmd_sets.specs.Members.{adder, getter, param, remover, setter};
ghost use Rattle.wr_base.specs.Trees.{signature_tree, tree_of};

use ranked::{Memory, Name};
use std::alloc::{AllocError, Global};
use wr_base::{FullName, Listed, Param, Signature, TypeUse};

// A parameter that is passed in.
fn param_of(alloc: Global, name: &str, ty: TypeUse) -> Result<Param, Memory>
    ensures name { IfOk result (λ p. p.name ≡ name.now) }
    ensures way { IfOk result (λ p. p.out ≡ false) }
    ensures ty { IfOk result (λ p. p.ty ≡ ty) }
{
    let name = Name::new(String::from_str(alloc, name)?);
    Ok(Param {
        name,
        out: false,
        ty,
    })
}

// A signature with one parameter.
fn taking(
    alloc: Global,
    name: &str,
    ty: TypeUse,
    answer: Option<TypeUse>,
) -> Result<Signature, Memory>
    ensures { IfOk result (λ sig. signature_tree sig ≡ record { params = param name.now (tree_of ty) ∷ []; result = option_map tree_of answer }) }
{
    let mut params = Listed::new(alloc);
    params.push(param_of(alloc, name, ty)?)?;
    Ok(Signature {
        params,
        result: answer,
    })
}

// The type of what an event gives for a handler.
#[tactic(auto, using(wr_base::proofs::TreeLaws::tree_Value))]
fn token_type(alloc: Global) -> Result<TypeUse, Memory>
    ensures { IfOk result (λ ty. tree_of ty ≡ members.token_type) }
{
    let text = String::from_str(alloc, "Windows.Foundation.EventRegistrationToken")?;
    match FullName::new(text) {
        Some(name) => Ok(TypeUse::Value(name)),
        None => Err(AllocError),
    }
}

/// What reads a property.
pub fn getter_of(alloc: Global, ty: &TypeUse) -> Result<Signature, Memory>
    ensures { IfOk result (λ sig. signature_tree sig ≡ getter (tree_of ty.now)) }
{
    let ty = ty.clone()?;
    Ok(Signature {
        params: Listed::new(alloc),
        result: Some(ty),
    })
}

/// What puts a property.
pub fn setter_of(alloc: Global, ty: &TypeUse) -> Result<Signature, Memory>
    ensures { IfOk result (λ sig. signature_tree sig ≡ setter (tree_of ty.now)) }
{
    taking(alloc, "value", ty.clone()?, None)
}

/// What adds a handler to an event.
pub fn adder_of(alloc: Global, ty: &TypeUse) -> Result<Signature, Memory>
    ensures { IfOk result (λ sig. signature_tree sig ≡ adder (tree_of ty.now)) }
{
    let token = token_type(alloc)?;
    taking(alloc, "handler", ty.clone()?, Some(token))
}

/// What removes a handler of an event.
pub fn remover_of(alloc: Global) -> Result<Signature, Memory>
    ensures { IfOk result (λ sig. signature_tree sig ≡ remover) }
{
    taking(alloc, "token", token_type(alloc)?, None)
}
