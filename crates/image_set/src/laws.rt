//! What holds of images alone, where the store tells what it holds.

ghost use Rattle.std.specs.Prelude.{◌≡◌, ℕ, List, Some};
ghost use Rattle.wr_base.specs.declared.declaration.Declaration.{Declaration};
ghost use Rattle.wr_outside.specs.Files.{Files};
ghost use Rattle.image_set.specs.Images.{AreTaken, Event, FirstEvent};

/// Images have one outcome: one list of sets, or one event at one name.
pub fn one_outcome()
    ensures sets { (files : Files) (words : List (List ℕ)) (one other : List (List Declaration)) → AreTaken (Some files) words one → AreTaken (Some files) words other → one ≡ other }
    ensures event { (files : Files) (words : List (List ℕ)) (sets : List (List Declaration)) (name : List ℕ) (event : Event) → AreTaken (Some files) words sets → ¬ (FirstEvent (Some files) words name event) }
    ensures events { (files : Files) (words : List (List ℕ)) (name place : List ℕ) (event other : Event) → FirstEvent (Some files) words name event → FirstEvent (Some files) words place other → (name ≡ place) × (event ≡ other) }
{}
