//! Full types are proper.

ghost use Rattle.std.specs.Prelude.{◌<◌, ◌^◌, ℕ, List, length};
ghost use Rattle.std.specs.List.{All};
ghost use Rattle.class_synthesis.specs.Full.{IsFull};
ghost use Rattle.midl_names.specs.Declares.{Declares};
ghost use Rattle.midl_names.specs.Items.{Source};
ghost use Rattle.midl_tree.specs.Trees.{SourceTree};
ghost use Rattle.placed_items.specs.Applied.{AreApplied};
ghost use Rattle.placed_items.specs.Named.{AreNamed};
ghost use Rattle.proper_sources.specs.Spelled.{IsSpelled, AreSpelled};
ghost use Rattle.source_set.specs.Events.{Begins};
ghost use Rattle.source_set.specs.Found.{Read};
ghost use Rattle.source_set.specs.Phases.{HasTree};
ghost use Rattle.wr_base.specs.declared.declaration.Declaration.{Declaration};
ghost use Rattle.wr_base.specs.declared.places.DeclPlaces.{DeclPlaces};
ghost use Rattle.wr_rules.specs.Accepted.{Proper};

/// The full types of what files declare are proper: each name but a type's is an identifier within its limit, each use is within its depth, and each instance has an argument.
pub fn full_types_are_proper()
    ensures { (sources : List Source) (types : List Declaration) (places : List DeclPlaces) → AreSpelled sources → AreNamed (Declares sources) → AreApplied (Declares sources) → IsFull (Declares sources) types places → Proper types }
{}

/// The trees of files that were read are spelled by tokens, fewer than 2^64.
pub fn read_trees_are_spelled()
    // One that is read of its bytes is.
    ensures one { (bytes : List ℕ) (tree : SourceTree) → length bytes < 2 ^ 64 → HasTree bytes tree → IsSpelled tree }
    // Those of the first files of a source set are.
    ensures all_ { (words : List (List ℕ)) (reads : List Read) → Begins words reads → All (λ (r : Read). IsSpelled r.tree) reads }
{}
