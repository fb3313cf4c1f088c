//! What images state is what the rules are asked of, and what images state again.

ghost use Rattle.std.specs.Prelude.{◌≡◌, ◌<◌, ◌≤◌, ◌^◌, List, length};
ghost use Rattle.std.specs.List.{All};
ghost use Rattle.md_merge.specs.Merged.{IsSet};
ghost use Rattle.md_merge.specs.Unions.{all_of, IsUnion};
ghost use Rattle.wr_base.specs.Places.{total};
ghost use Rattle.wr_base.specs.declared.declaration.Declaration.{Declaration};
ghost use Rattle.writable_sets.specs.Stated.{HasWidths, IsStated, NoGuid};
ghost use Rattle.read_sets.specs.Images.{IsImageSet};

/// Sets that images state can be merged.
pub fn image_sets_can_be_merged()
    // Their names are identifiers and paths within the limits, uses are shallow, instances have arguments, and lists are in order.
    ensures each { (sets : List (List Declaration)) → All IsImageSet sets → All IsSet sets }
    // The sets of 256 images have fewer than 2^32 declarations and parts together.
    ensures few { (sets : List (List Declaration)) → All IsImageSet sets → length sets ≤ 256 → total (all_of sets) < 2 ^ 32 }
{}

/// Of a set that an image states rows can state each declaration, and no use is a value of `System.Guid`.
pub fn image_set_is_stated()
    ensures stated { (types : List Declaration) → IsImageSet types → All HasWidths types → All (IsStated types) types }
    ensures no_guid { (types : List Declaration) → IsImageSet types → NoGuid types }
{}

/// The same of the union of sets that images state.
pub fn union_is_stated()
    ensures stated { (sets : List (List Declaration)) (types : List Declaration) → All IsImageSet sets → IsUnion sets types → All HasWidths types → All (IsStated types) types }
    ensures no_guid { (sets : List (List Declaration)) (types : List Declaration) → All IsImageSet sets → IsUnion sets types → NoGuid types }
{}
