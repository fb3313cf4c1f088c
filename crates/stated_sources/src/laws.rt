//! Full types are stated.

ghost use Rattle.std.specs.Prelude.{List};
ghost use Rattle.std.specs.List.{All};
ghost use Rattle.class_synthesis.specs.Full.{IsFull};
ghost use Rattle.midl_names.specs.Declares.{Declares};
ghost use Rattle.midl_names.specs.Items.{Source};
ghost use Rattle.placed_items.specs.Named.{ArePathed};
ghost use Rattle.wr_base.specs.declared.declaration.Declaration.{Declaration};
ghost use Rattle.wr_base.specs.declared.places.DeclPlaces.{DeclPlaces};
ghost use Rattle.writable_sets.specs.Stated.{HasWidths, IsStated};

/// Of the full types of what files declare each has a path as its name, lists in the order of texts, and a declared owner, if it has one.
pub fn full_types_are_stated()
    ensures { (sources : List Source) (types : List Declaration) (places : List DeclPlaces) → ArePathed (Declares sources) → IsFull (Declares sources) types places → All HasWidths types → All (IsStated types) types }
{}
