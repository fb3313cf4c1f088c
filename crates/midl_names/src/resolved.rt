//! Uses of types, resolved.

ghost use Rattle.std.specs.Prelude.{◌≡◌, IfOk, map, option_map, string_bytes};
ghost use Rattle.std.specs.HashMap.{get_by_text};
ghost use Rattle.std.specs.List.{All};
ghost use Rattle.midl_tree.specs.Views.{type_view, param_view};
ghost use Rattle.midl_names.specs.Lookup.{look_up};
ghost use Rattle.midl_names.specs.Resolved.{use_of, resolved, param_of, signature_of};
ghost use Rattle.midl_names.specs.Uses.{dotted};
ghost use Rattle.midl_names.specs.Views.{parts_of};
ghost use Rattle.placed_items.specs.Named.{IsName, HasNamedParams};
ghost use Rattle.wr_base.specs.declared.declaration.Param.{Param};

use crate::hit::Hit;
use crate::index::Index;
use crate::lookup::look_up;
use crate::paths::dotted;
use crate::scope::Scope;
use crate::sort::Sort;
use midl_tree::{Ident, ParamNode, TypeNode};
use sqlite_items::Items;
use std::alloc::Global;
use wr_base::{Base, Listed, Memory, Name, Param, Params, Signature, TypeUse, Uses};

fn use_of(found: Option<Hit>, arguments: Uses) -> TypeUse
    ensures { result ≡ use_of found arguments }
{
    match found {
        None => TypeUse::Plain(Base::Object),
        Some(hit) => {
            let Hit { name, sort } = hit;
            match sort {
                Sort::Value => TypeUse::Value(name),
                Sort::Reference => TypeUse::Reference(name),
                Sort::Template(_) => TypeUse::Inst(name, arguments),
            }
        }
    }
}

fn found_of(scope: &Scope, path: &[Ident]) -> Result<Option<Hit>, Memory>
    ensures { IfOk result (λ r. r ≡ look_up (get_by_text scope.now.index.now.sorts) (parts_of scope.now.item.now.space.items) (dotted path.now)) }
{
    let text = dotted(scope.alloc, path)?;
    look_up(scope.alloc, scope.index, &scope.item.space, text.as_str())
}

/// The use that a node stands for in a namespace.
pub(crate) fn resolved(scope: &Scope, node: &TypeNode) -> Result<TypeUse, Memory>
    ensures { IfOk result (λ u. u ≡ resolved (get_by_text scope.now.index.now.sorts) (parts_of scope.now.item.now.space.items) (type_view node.now)) }
{
    match node {
        TypeNode::Base(base) => Ok(TypeUse::Plain(*base)),
        TypeNode::Named(path, arguments) => {
            let mut uses = Items::new(scope.alloc);
            for argument in arguments {
                uses.push(resolved(scope, argument)?)?;
            }
            let found = found_of(scope, path)?;
            Ok(use_of(found, uses))
        }
    }
}

/// The uses that nodes stand for.
pub(crate) fn resolved_list(scope: &Scope, nodes: &[TypeNode]) -> Result<Uses, Memory>
    ensures { IfOk result (λ us. us ≡ map (resolved (get_by_text scope.now.index.now.sorts) (parts_of scope.now.item.now.space.items)) (map type_view nodes.now)) }
{
    let mut uses = Items::new(scope.alloc);
    for node in nodes {
        uses.push(resolved(scope, node)?)?;
    }
    Ok(uses)
}

/// A copy of a name.
pub(crate) fn name_of(alloc: Global, name: &Ident) -> Result<Name, Memory>
    ensures value { IfOk result (λ r. r ≡ name.now.text) }
    ensures named { IfOk result IsName }
{
    Ok(Name::new(String::from_str(alloc, name.as_str())?))
}

fn param_of(scope: &Scope, node: &ParamNode) -> Result<Param, Memory>
    ensures value { IfOk result (λ p. p ≡ param_of (get_by_text scope.now.index.now.sorts) (parts_of scope.now.item.now.space.items) (param_view node.now)) }
    ensures named { IfOk result (λ p. IsName p.name) }
{
    let name = name_of(scope.alloc, &node.name)?;
    let ty = resolved(scope, &node.kind)?;
    Ok(Param {
        name,
        out: node.out,
        ty,
    })
}

fn params_of(scope: &Scope, nodes: &[ParamNode]) -> Result<Params, Memory>
    ensures value { IfOk result (λ ps. ps ≡ map (param_of (get_by_text scope.now.index.now.sorts) (parts_of scope.now.item.now.space.items)) (map param_view nodes.now)) }
    ensures named { IfOk result (λ ps. All (λ (p : Param). IsName p.name) ps) }
{
    let mut params = Vec::with_capacity(scope.alloc, nodes.len())?;
    for node in nodes {
        params.push(param_of(scope, node)?)?;
    }
    Ok(Listed::from_vec(params))
}

fn result_of(scope: &Scope, outcome: &Option<TypeNode>) -> Result<Option<TypeUse>, Memory>
    ensures { IfOk result (λ r. r ≡ option_map (resolved (get_by_text scope.now.index.now.sorts) (parts_of scope.now.item.now.space.items)) (option_map type_view outcome.now)) }
{
    match outcome {
        None => Ok(None),
        Some(node) => Ok(Some(resolved(scope, node)?)),
    }
}

/// The signature of a method, a delegate or a constructor.
pub(crate) fn signature_of(
    scope: &Scope,
    outcome: &Option<TypeNode>,
    params: &[ParamNode],
) -> Result<Signature, Memory>
    ensures value { IfOk result (λ s. s ≡ signature_of (get_by_text scope.now.index.now.sorts) (parts_of scope.now.item.now.space.items) (option_map type_view outcome.now) (map param_view params.now)) }
    ensures named { IfOk result HasNamedParams }
{
    let params = params_of(scope, params)?;
    let result = result_of(scope, outcome)?;
    Ok(Signature { params, result })
}
