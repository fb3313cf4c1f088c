//! What is canonical spells, and a blob spells at most one item.

ghost use Rattle.std.specs.Prelude.{◌≡◌, ◌∷◌, ℕ, List};
ghost use Rattle.sig_blobs.specs.CanonicalValues.{kind_of, ArgumentFits, CanonicalValue, SpellsFirst};
ghost use Rattle.sig_blobs.specs.declared.argument.Argument.{Argument};
ghost use Rattle.wr_base.specs.Trees.{UseTree, SignatureTree};
ghost use Rattle.sig_blobs.specs.Uses.{Meanings};
ghost use Rattle.sig_blobs.specs.Writing.{Numbers};
ghost use Rattle.sig_blobs.specs.Canonical.{UseFits, SignatureFits, without_names, CanonicalField, CanonicalProperty, CanonicalSpec, CanonicalMethod, SpellsField, SpellsProperty, SpellsSpec, SpellsMethod};

use md_heaps::compressed_again;

/// The canonical blob of a type use that fits spells it; so does that of a signature, but for the names of its parameters.
pub fn canonical_spells()
    ensures field { (token : Numbers) (names : Meanings) (blob : List ℕ) (u : UseTree) → UseFits token names 16 u → CanonicalField token blob u → SpellsField names blob u }
    ensures property { (token : Numbers) (names : Meanings) (blob : List ℕ) (u : UseTree) → UseFits token names 16 u → CanonicalProperty token blob u → SpellsProperty names blob u }
    ensures spec { (token : Numbers) (names : Meanings) (blob : List ℕ) (u : UseTree) → UseFits token names 16 u → CanonicalSpec token blob u → SpellsSpec names blob u }
    ensures method { (token : Numbers) (names : Meanings) (blob : List ℕ) (sig : SignatureTree) → SignatureFits token names sig → CanonicalMethod token blob sig → SpellsMethod names blob (without_names sig) }
{
    compressed_again();
}

/// A blob spells at most one type use or signature.
pub fn spells_one()
    ensures field { (names : Meanings) (blob : List ℕ) (a b : UseTree) → SpellsField names blob a → SpellsField names blob b → a ≡ b }
    ensures property { (names : Meanings) (blob : List ℕ) (a b : UseTree) → SpellsProperty names blob a → SpellsProperty names blob b → a ≡ b }
    ensures spec { (names : Meanings) (blob : List ℕ) (a b : UseTree) → SpellsSpec names blob a → SpellsSpec names blob b → a ≡ b }
    ensures method { (names : Meanings) (blob : List ℕ) (a b : SignatureTree) → SpellsMethod names blob a → SpellsMethod names blob b → a ≡ b }
{}

/// The canonical value of an attribute whose first argument fits is read as it, and spells at most one argument of a kind.
pub fn value_spells()
    ensures first { (blob : List ℕ) (argument : Argument) (args : List Argument) → ArgumentFits argument → CanonicalValue blob (argument ∷ args) → SpellsFirst blob argument }
    ensures one { (blob : List ℕ) (a b : Argument) → kind_of a ≡ kind_of b → SpellsFirst blob a → SpellsFirst blob b → a ≡ b }
{
    compressed_again();
}
