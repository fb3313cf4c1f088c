//! Methods (ECMA-335 II.22.26), with the names of their slots in the ABI where these differ or the name was there before.

ghost use Rattle.std.specs.Prelude.{◌≡◌, ◌++◌, ◌∷◌, ◌||◌, [], OnOk, bytes_eq, not};
ghost use Rattle.kind_rows.specs.Said.{said};
ghost use Rattle.md_schema.specs.declared.table.Table.TheVariants as tables;
ghost use Rattle.part_rows.specs.Grown.{with_line, with_lines};
ghost use Rattle.winmd_lines.specs.Makers as makers;
ghost use Rattle.winmd_sets.specs.Members.{attribute, when};
ghost use Rattle.winmd_sets.specs.Values.{words_argument};
ghost use Rattle.winmd_uses.specs.Earlier.{method_lines_if};
ghost use Rattle.wr_base.specs.Trees.{signature_tree};

use kind_rows::{Maker, Out, Referred, put_on, put_signature};
use md_schema::Table;
use ranked::{Memory, Name};
use sig_blobs::Argument;
use wr_base::Signature;

// Whether a method has an Overload attribute: its name isn't that of its slot, or was there before.
fn has_overload(name: &Name, abi: &Name, repeated: bool) -> bool
    ensures { result ≡ (not (bytes_eq abi.now name.now) || repeated) }
{
    *abi != *name || repeated
}

fn put_overload<N: Referred>(out: &mut Out, names: &N, abi: &Name) -> Result<(), Memory>
    ensures { OnOk result (said out.new ≡ with_line (N.names names.now) (attribute tables.MethodDef makers.Overload (words_argument abi.now)) (said out.old)) }
{
    let arguments = [Argument::Words(abi.clone()?)];
    put_on(out, names, Table::MethodDef, Maker::Overload, &arguments)
}

fn put_overload_if<N: Referred>(
    out: &mut Out,
    names: &N,
    test: bool,
    abi: &Name,
) -> Result<(), Memory>
    ensures { OnOk result (said out.new ≡ with_lines (N.names names.now) (when test (attribute tables.MethodDef makers.Overload (words_argument abi.now) ∷ [])) (said out.old)) }
{
    if !test {
        return Ok(());
    }
    put_overload(out, names, abi)
}

/// A method of the last type, where it is known whether its name was there before.
pub fn put_method<N: Referred>(
    out: &mut Out,
    names: &N,
    name: &Name,
    abi: &Name,
    sig: &Signature,
    repeated: bool,
) -> Result<(), Memory>
    ensures { OnOk result (said out.new ≡ with_lines (N.names names.now) (method_lines_if repeated name.now abi.now (signature_tree sig.now)) (said out.old)) }
{
    put_signature(out, names, 0x05C6, 0, name.as_str().as_bytes(), sig)?;
    put_overload_if(out, names, has_overload(name, abi, repeated), abi)
}
