//! No full type is `System.Guid`.

ghost use Rattle.std.specs.Prelude.{◌≡◌, ℕ, List, None};
ghost use Rattle.std.specs.List.{All};
ghost use Rattle.class_synthesis.specs.Full.{IsFull};
ghost use Rattle.declared_names.specs.Worded.{IsWorded, AreWorded};
ghost use Rattle.midl_names.specs.Declares.{Declares};
ghost use Rattle.midl_names.specs.Items.{Source};
ghost use Rattle.midl_tree.specs.Trees.{SourceTree};
ghost use Rattle.sig_blobs.specs.Elements.{system_guid};
ghost use Rattle.source_set.specs.Events.{Begins};
ghost use Rattle.source_set.specs.Found.{Read};
ghost use Rattle.source_set.specs.Phases.{HasTree};
ghost use Rattle.wr_base.specs.Declarations.{declared_as};
ghost use Rattle.wr_base.specs.declared.declaration.Declaration.{Declaration};
ghost use Rattle.wr_base.specs.declared.places.DeclPlaces.{DeclPlaces};

/// No full type of what files declare is called `System.Guid`: the grammar lets no declaration have the word `Guid` as its name, and the name of an interface that is made begins with `I` (MIDL 3.0 reference, Type system).
pub fn no_guid_is_declared()
    ensures { (sources : List Source) (types : List Declaration) (places : List DeclPlaces) → AreWorded sources → IsFull (Declares sources) types places → declared_as types system_guid ≡ None }
{}

/// The trees of files that were read are spelled by tokens that have the kinds of their texts.
pub fn read_trees_are_worded()
    // One that is read of its bytes is.
    ensures one { (bytes : List ℕ) (tree : SourceTree) → HasTree bytes tree → IsWorded tree }
    // Those of the first files of a source set are.
    ensures all_ { (words : List (List ℕ)) (reads : List Read) → Begins words reads → All (λ (r : Read). IsWorded r.tree) reads }
{}
