//! How long the names in a use or a signature are.

ghost use Rattle.std.specs.Prelude.{◌≡◌, ◌&&◌, map, option_map};
ghost use Rattle.std.specs.List.{list_all, flat_map};
ghost use Rattle.wr_base.specs.Paths.{is_short_name};
ghost use Rattle.wr_base.specs.Trees.{tree_of, param_tree, signature_tree};
ghost use Rattle.winmd_cells.specs.Given.{Gives};
ghost use Rattle.winmd_sets.specs.Blobs.{limited, paths_in, paths_of, paths_of_result};

use md_schema::{ImageFault, ImageKind};
use ranked::Stop;
use winmd_source::refused;
use wr_base::{Param, Signature, TypeUse};

fn both(a: bool, b: bool) -> bool
    ensures { result ≡ (a && b) }
{
    a && b
}

fn is_short(ty: &TypeUse) -> bool
    ensures { result ≡ list_all is_short_name (paths_in (tree_of ty.now)) }
{
    match ty {
        TypeUse::Plain(_) => true,
        TypeUse::Value(name) => name.is_short(),
        TypeUse::Reference(name) => name.is_short(),
        TypeUse::Inst(name, arguments) => {
            let mut short = name.is_short();
            for argument in arguments.as_slice() {
                short = both(short, is_short(argument));
            }
            short
        }
    }
}

fn is_short_result(returned: &Option<TypeUse>) -> bool
    ensures { result ≡ list_all is_short_name (paths_of_result (option_map tree_of returned.now)) }
{
    match returned {
        None => true,
        Some(ty) => is_short(ty),
    }
}

fn are_short(params: &[Param]) -> bool
    ensures { result ≡ list_all is_short_name (flat_map (λ param. paths_in param.kind) (map param_tree params.now)) }
{
    let mut short = true;
    for param in params {
        short = both(short, is_short(&param.ty));
    }
    short
}

fn is_short_signature(signature: &Signature) -> bool
    ensures { result ≡ list_all is_short_name (paths_of (signature_tree signature.now)) }
{
    both(
        is_short_result(&signature.result),
        are_short(signature.params.as_slice()),
    )
}

/// A use whose names are short. Refused with PastLimit at an offset.
pub(crate) fn limited_use(offset: u64, ty: TypeUse) -> Result<TypeUse, Stop<ImageFault>>
    ensures { Gives tree_of result (limited offset (paths_in (tree_of ty)) (tree_of ty)) }
{
    if is_short(&ty) {
        Ok(ty)
    } else {
        Err(refused(ImageKind::PastLimit, offset))
    }
}

/// A signature whose names are short. Refused with PastLimit at an offset.
pub(crate) fn limited_signature(
    offset: u64,
    signature: Signature,
) -> Result<Signature, Stop<ImageFault>>
    ensures { Gives signature_tree result (limited offset (paths_of (signature_tree signature)) (signature_tree signature)) }
{
    if is_short_signature(&signature) {
        Ok(signature)
    } else {
        Err(refused(ImageKind::PastLimit, offset))
    }
}
