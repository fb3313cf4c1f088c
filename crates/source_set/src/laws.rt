//! What holds of the definitions alone.

ghost use Rattle.std.specs.Prelude.{◌≡◌, ℕ, List};
ghost use Rattle.wr_outside.specs.Files.{Files};
ghost use Rattle.source_set.specs.Found.{Read};
ghost use Rattle.source_set.specs.Events.{Event, FirstEvent, NoEvent};

/// A set of names over files has one outcome: either no event and one list of files, or one first event, at one file.
pub fn one_outcome()
    // The files of a set without an event are determined.
    ensures files { (words : List (List ℕ)) (files : Files) (a b : List Read) → NoEvent words files a → NoEvent words files b → a ≡ b }
    // A set without an event has no first one.
    ensures none { (words : List (List ℕ)) (files : Files) (reads : List Read) (name : List ℕ) (event : Event) → NoEvent words files reads → ¬ (FirstEvent words files name event) }
    // The first event and the file at which it stands are determined.
    ensures first { (words : List (List ℕ)) (files : Files) (a b : List ℕ) (e f : Event) → FirstEvent words files a e → FirstEvent words files b f → (a ≡ b) × (e ≡ f) }
{}
