//! Enums in `System` and in `Windows.Foundation.Metadata`.

ghost use Rattle.std.specs.Prelude.{◌≡◌, [], ◌∷◌, codes, Ok};
ghost use Rattle.winmd_examples.specs.Outside.{enum_named, system_image, enum_image, metadata_image, version_image};
ghost use Rattle.winmd_examples.specs.Layouts.{one_section};
ghost use Rattle.winmd_examples.specs.Size.{size};
ghost use Rattle.winmd_examples.specs.Spelling.{image_of_set};
ghost use Rattle.winmd_sets.specs.Mix.{mix, mix_image};
ghost use Rattle.winmd_sets.specs.Shop.{shop, shop_image};
ghost use Rattle.winmd_strict.specs.Reading.{TypesOf};

/// The image of a set, whose heaps hold each text and blob in the order of first use, is what was laid out by hand; of two sets of all kinds it is what another program wrote.
pub fn images_are_by_hand()
    ensures size { image_of_set (size ∷ []) ≡ one_section }
    ensures shop { image_of_set shop ≡ shop_image }
    ensures mix { image_of_set mix ≡ mix_image }
    ensures system { image_of_set (enum_named (codes "System.E") ∷ []) ≡ system_image }
    ensures system_enum { image_of_set (enum_named (codes "System.Enum") ∷ []) ≡ enum_image }
    ensures metadata { image_of_set (enum_named (codes "Windows.Foundation.Metadata.E") ∷ []) ≡ metadata_image }
    ensures version { image_of_set (enum_named (codes "Windows.Foundation.Metadata.VersionAttribute") ∷ []) ≡ version_image }
{}

/// Each is read back.
pub fn outside_is_read()
    ensures system { TypesOf system_image ≡ Ok (enum_named (codes "System.E") ∷ []) }
    ensures system_enum { TypesOf enum_image ≡ Ok (enum_named (codes "System.Enum") ∷ []) }
    ensures metadata { TypesOf metadata_image ≡ Ok (enum_named (codes "Windows.Foundation.Metadata.E") ∷ []) }
    ensures version { TypesOf version_image ≡ Ok (enum_named (codes "Windows.Foundation.Metadata.VersionAttribute") ∷ []) }
{}
