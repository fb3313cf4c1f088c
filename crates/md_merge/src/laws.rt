//! What holds of unions alone.

ghost use Rattle.std.specs.Prelude.{◌≡◌, ◌<◌, ◌≤◌, ◌^◌, List, length};
ghost use Rattle.std.specs.List.{All};
ghost use Rattle.wr_base.specs.Places.{total};
ghost use Rattle.wr_base.specs.declared.declaration.Declaration.{Declaration};
ghost use Rattle.md_merge.specs.Merged.{IsMerged, IsRefusalOf};
ghost use Rattle.md_merge.specs.Unions.{all_of, IsUnion};
ghost use Rattle.md_merge.specs.declared.refusal.MergeRefusal.{MergeRefusal};

/// Sets have one union.
pub fn one_union()
    ensures { (sets : List (List Declaration)) (one other : List Declaration) → IsUnion sets one → IsUnion sets other → one ≡ other }
{}

/// Merging has one outcome: one union that is accepted, or one refusal.
pub fn one_outcome()
    ensures sets { (sets : List (List Declaration)) (one other : List Declaration) → IsMerged sets one → IsMerged sets other → one ≡ other }
    ensures refused { (sets : List (List Declaration)) (types : List Declaration) (refusal : MergeRefusal) → IsMerged sets types → ¬ (IsRefusalOf sets refusal) }
    ensures refusals { (sets : List (List Declaration)) (one other : MergeRefusal) → IsRefusalOf sets one → IsRefusalOf sets other → one ≡ other }
{}

/// At most 256 sets of at most 520,000 declarations and parts have fewer than 2^32 together.
pub fn few_together()
    ensures { (sets : List (List Declaration)) → length sets ≤ 256 → All (λ set. total set ≤ 520000) sets → total (all_of sets) < 2 ^ 32 }
{}
