//! A set is accepted, or isn't, wherever its declarations stand.

ghost use Rattle.std.specs.Prelude.{List};
ghost use Rattle.ranked.specs.First.{Clear};
ghost use Rattle.wr_base.specs.declared.declaration.Declaration.{Declaration};
ghost use Rattle.wr_base.specs.declared.places.DeclPlaces.{DeclPlaces};
ghost use Rattle.wr_rules.specs.Accepted.{Accepted, Broken, Proper};
ghost use Rattle.place_laws.specs.Shapes.{FitPlaces};

/// Where nothing is broken in a set, nothing is at any other places that fit it.
pub fn places_do_not_count()
    ensures { (types : List Declaration) (places others : List DeclPlaces) → FitPlaces types places → FitPlaces types others → Clear (Broken types places) → Clear (Broken types others) }
{}

/// An accepted set is one of proper names in which nothing is broken, at any places that fit it.
pub fn accepted_anywhere()
    ensures clear { (types : List Declaration) (places : List DeclPlaces) → FitPlaces types places → Accepted types → Clear (Broken types places) }
    ensures accepted { (types : List Declaration) (places : List DeclPlaces) → FitPlaces types places → Proper types → Clear (Broken types places) → Accepted types }
{}
