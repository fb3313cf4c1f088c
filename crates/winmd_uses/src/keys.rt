//! Keys by which uses are looked up.

ghost use Rattle.std.specs.Prelude.{◌≡◌, ◌∷◌, ◌++◌, [], OnOk};
ghost use Rattle.wr_base.specs.Trees as trees;
ghost use Rattle.wr_base.specs.Trees.{tree_of};
ghost use Rattle.winmd_uses.specs.Keys.{key_of, marked};

use ranked::Memory;
use wr_base::{Base, TypeUse};

fn base_number(base: Base) -> u8
    ensures { result ≡ trees.base_number base }
{
    match base {
        Base::Boolean => 0,
        Base::Char => 1,
        Base::U8 => 2,
        Base::I16 => 3,
        Base::U16 => 4,
        Base::I32 => 5,
        Base::U32 => 6,
        Base::I64 => 7,
        Base::U64 => 8,
        Base::Text => 9,
        Base::Guid => 10,
        Base::Object => 11,
    }
}

fn put_byte(into: &mut Vec<u8>, byte: u8) -> Result<(), Memory>
    ensures { OnOk result (into.new.items ≡ into.old.items ++ 1 ∷ byte ∷ []) }
{
    into.push(1)?;
    into.push(byte)?;
    Ok(())
}

fn put_marked(into: &mut Vec<u8>, name: &[u8]) -> Result<(), Memory>
    ensures { OnOk result (into.new.items ≡ into.old.items ++ marked name.now) }
{
    for byte in name {
        put_byte(into, *byte)?;
    }
    into.push(0)?;
    Ok(())
}

fn put_named(into: &mut Vec<u8>, sort: u8, name: &str) -> Result<(), Memory>
    ensures { OnOk result (into.new.items ≡ into.old.items ++ sort ∷ marked name.now) }
{
    into.push(sort)?;
    put_marked(into, name.as_bytes())
}

fn put_base(into: &mut Vec<u8>, base: Base) -> Result<(), Memory>
    ensures { OnOk result (into.new.items ≡ into.old.items ++ key_of (trees.plain base)) }
{
    into.push(1)?;
    into.push(base_number(base))?;
    Ok(())
}

/// Appends the key of a use.
#[tactic(auto, using(wr_base::proofs::TreeLaws::tree_Plain, wr_base::proofs::TreeLaws::tree_Value, wr_base::proofs::TreeLaws::tree_Reference))]
pub fn put_key(into: &mut Vec<u8>, ty: &TypeUse) -> Result<(), Memory>
    ensures { OnOk result (into.new.items ≡ into.old.items ++ key_of (tree_of ty.now)) }
{
    match ty {
        TypeUse::Plain(base) => put_base(into, *base),
        TypeUse::Value(name) => put_named(into, 2, name.as_str()),
        TypeUse::Reference(name) => put_named(into, 3, name.as_str()),
        TypeUse::Inst(name, arguments) => {
            put_named(into, 4, name.as_str())?;
            for argument in arguments.as_slice() {
                put_key(into, argument)?;
            }
            into.push(0)?;
            Ok(())
        }
    }
}
