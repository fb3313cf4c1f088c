//! Type uses as they are written (ECMA-335 II.23.2.12). After want of memory a part may stand at the end.

ghost use Rattle.std.specs.Prelude.{◌≡◌, ◌++◌, OnOk, OnErr};
ghost use Rattle.sig_blobs.specs.Appending.{KeepsFront};
ghost use Rattle.sig_blobs.specs.Numbers.{number_in};
ghost use Rattle.sig_blobs.specs.Writing.{use_bytes};
ghost use Rattle.wr_base.specs.Trees.{tree_of};

use crate::put::{put_base, put_template, put_token};
use crate::tokens::Tokens;
use ranked::Memory;
use wr_base::TypeUse;

/// Appends a use.
#[tactic(auto, using(wr_base::proofs::TreeLaws::tree_Plain, wr_base::proofs::TreeLaws::tree_Value, wr_base::proofs::TreeLaws::tree_Reference))]
pub(crate) fn put_use(into: &mut Vec<u8>, ty: &TypeUse, tokens: &Tokens) -> Result<(), Memory>
    ensures ok { OnOk result (into.new.items ≡ into.old.items ++ use_bytes (number_in tokens.now) (tree_of ty.now)) }
    ensures front { OnErr result (KeepsFront into.old.items into.new.items) }
{
    match ty {
        TypeUse::Plain(base) => put_base(into, *base, tokens),
        TypeUse::Value(name) => put_token(into, 0x11, name.as_str(), tokens),
        TypeUse::Reference(name) => put_token(into, 0x12, name.as_str(), tokens),
        TypeUse::Inst(name, arguments) => {
            let list = arguments.as_slice();
            put_template(into, name, list.len(), tokens)?;
            for argument in list {
                put_use(into, argument, tokens)?;
            }
            Ok(())
        }
    }
}
