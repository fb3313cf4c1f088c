//! What `wrap` makes, `unwrap` takes apart.

ghost use Rattle.std.specs.Prelude.{◌≡◌, Ok};
ghost use Rattle.winmd_image.specs.Laws.{slices_of};
ghost use Rattle.winmd_image.specs.Parts.{Parts, Small};
ghost use Rattle.winmd_image.specs.Slices.{unwrapped};
ghost use Rattle.winmd_image.specs.Spelled.{image_bytes};

/// Of the image that is written around streams of less than 2^31 bytes together, the same streams are taken out.
pub fn wrapped_is_unwrapped()
    ensures { (parts : Parts) → Small parts → unwrapped (image_bytes parts) ≡ Ok (slices_of parts) }
{}
