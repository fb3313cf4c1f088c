//! Writing signatures (ECMA-335 II.23.2): each call appends exactly the canonical blob, or leaves the bytes as they were.

ghost use Rattle.std.specs.Prelude.{◌≡◌, ◌++◌, OnOk, OnErr, map, option_map};
ghost use Rattle.std.specs.List.{flat_map};
ghost use Rattle.sig_blobs.specs.Appending.{KeepsFront};
ghost use Rattle.sig_blobs.specs.Numbers.{number_in};
ghost use Rattle.sig_blobs.specs.Writing.{field_bytes, property_bytes, spec_bytes, method_bytes, result_bytes, param_bytes};
ghost use Rattle.wr_base.specs.Trees.{tree_of, signature_tree, param_tree};

use crate::cut_back::cut_back;
use crate::put::put_number;
use crate::put_uses::put_use;
use crate::tokens::Tokens;
use ranked::Memory;
use wr_base::{Param, Signature, TypeUse};

// Appends the signature of a field; a part of it after want of memory.
fn append_field(into: &mut Vec<u8>, ty: &TypeUse, tokens: &Tokens) -> Result<(), Memory>
    ensures ok { OnOk result (into.new.items ≡ into.old.items ++ field_bytes (number_in tokens.now) (tree_of ty.now)) }
    ensures front { OnErr result (KeepsFront into.old.items into.new.items) }
{
    into.push(0x06)?;
    put_use(into, ty, tokens)
}

/// Appends the signature of a field of this type (II.23.2.4).
pub fn put_field(into: &mut Vec<u8>, ty: &TypeUse, tokens: &Tokens) -> Result<(), Memory>
    ensures ok { OnOk result (into.new.items ≡ into.old.items ++ field_bytes (number_in tokens.now) (tree_of ty.now)) }
    ensures unchanged { OnErr result (into.new.items ≡ into.old.items) }
{
    let length = into.len();
    let answer = append_field(into, ty, tokens);
    cut_back(into, length, answer)
}

// Appends the signature of a property; a part of it after want of memory.
fn append_property(into: &mut Vec<u8>, ty: &TypeUse, tokens: &Tokens) -> Result<(), Memory>
    ensures ok { OnOk result (into.new.items ≡ into.old.items ++ property_bytes (number_in tokens.now) (tree_of ty.now)) }
    ensures front { OnErr result (KeepsFront into.old.items into.new.items) }
{
    into.push(0x28)?;
    into.push(0)?;
    put_use(into, ty, tokens)
}

/// Appends the signature of a property of an instance (II.23.2.5).
pub fn put_property(into: &mut Vec<u8>, ty: &TypeUse, tokens: &Tokens) -> Result<(), Memory>
    ensures ok { OnOk result (into.new.items ≡ into.old.items ++ property_bytes (number_in tokens.now) (tree_of ty.now)) }
    ensures unchanged { OnErr result (into.new.items ≡ into.old.items) }
{
    let length = into.len();
    let answer = append_property(into, ty, tokens);
    cut_back(into, length, answer)
}

/// Appends the signature of a TypeSpec (II.23.2.14).
pub fn put_spec(into: &mut Vec<u8>, ty: &TypeUse, tokens: &Tokens) -> Result<(), Memory>
    ensures ok { OnOk result (into.new.items ≡ into.old.items ++ spec_bytes (number_in tokens.now) (tree_of ty.now)) }
    ensures unchanged { OnErr result (into.new.items ≡ into.old.items) }
{
    let length = into.len();
    let answer = put_use(into, ty, tokens);
    cut_back(into, length, answer)
}

// Appends a result; a method without one has VOID.
fn put_result(into: &mut Vec<u8>, returned: &Option<TypeUse>, tokens: &Tokens) -> Result<(), Memory>
    ensures ok { OnOk result (into.new.items ≡ into.old.items ++ result_bytes (number_in tokens.now) (option_map tree_of returned.now)) }
    ensures front { OnErr result (KeepsFront into.old.items into.new.items) }
{
    match returned {
        Some(ty) => put_use(into, ty, tokens),
        None => {
            into.push(0x01)?;
            Ok(())
        }
    }
}

// Appends BYREF, where the parameter is out, and its type.
fn put_param(into: &mut Vec<u8>, param: &Param, tokens: &Tokens) -> Result<(), Memory>
    ensures ok { OnOk result (into.new.items ≡ into.old.items ++ param_bytes (number_in tokens.now) (param_tree param.now)) }
    ensures front { OnErr result (KeepsFront into.old.items into.new.items) }
{
    if param.out {
        into.push(0x10)?;
    }
    put_use(into, &param.ty, tokens)
}

fn put_params(into: &mut Vec<u8>, params: &[Param], tokens: &Tokens) -> Result<(), Memory>
    ensures ok { OnOk result (into.new.items ≡ into.old.items ++ flat_map (param_bytes (number_in tokens.now)) (map param_tree params.now)) }
    ensures front { OnErr result (KeepsFront into.old.items into.new.items) }
{
    for param in params {
        put_param(into, param, tokens)?;
    }
    Ok(())
}

// Appends the signature of a method; a part of it after want of memory.
fn append_method(into: &mut Vec<u8>, sig: &Signature, tokens: &Tokens) -> Result<(), Memory>
    ensures ok { OnOk result (into.new.items ≡ into.old.items ++ method_bytes (number_in tokens.now) (signature_tree sig.now)) }
    ensures front { OnErr result (KeepsFront into.old.items into.new.items) }
{
    let params = sig.params.as_slice();
    into.push(0x20)?;
    put_number(into, params.len())?;
    put_result(into, &sig.result, tokens)?;
    put_params(into, params, tokens)
}

/// Appends the signature of a method of an instance (II.23.2.1).
pub fn put_method(into: &mut Vec<u8>, sig: &Signature, tokens: &Tokens) -> Result<(), Memory>
    ensures ok { OnOk result (into.new.items ≡ into.old.items ++ method_bytes (number_in tokens.now) (signature_tree sig.now)) }
    ensures unchanged { OnErr result (into.new.items ≡ into.old.items) }
{
    let length = into.len();
    let answer = append_method(into, sig, tokens);
    cut_back(into, length, answer)
}
