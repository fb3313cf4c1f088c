//! Uses with their texts.

ghost use Rattle.std.specs.Prelude.{◌≡◌, string_bytes};
ghost use Rattle.wr_base.specs.Uses.{text_of};

use wr_base::TypeUse;

/// A use with its text.
#[derive(Drop)]
pub(crate) struct Texted {
    pub(crate) text: String,
    pub(crate) ty: TypeUse,
    ghost agree: { string_bytes text ≡ text_of ty },
}
