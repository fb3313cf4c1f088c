//! What strict images state, and which images aren't strict.

ghost use Rattle.std.specs.Prelude.{◌≡◌, ◌<◌, ℕ, List, [], ◌∷◌, ◌++◌, length, Ok};
ghost use Rattle.md_schema.specs.declared.column.Column.TheVariants.{Texts};
ghost use Rattle.md_schema.specs.declared.table.Table.{Table};
ghost use Rattle.winmd_rows.specs.Values.{Value, Offsets, stated};
ghost use Rattle.winmd_sets.specs.Fits.{Fits};
ghost use Rattle.winmd_sets.specs.Rows.{rows_of};
ghost use Rattle.winmd_strict.specs.One.{one_image};
ghost use Rattle.winmd_strict.specs.Placed.{Heaped, Placed, Holds, numbers_in_row};
ghost use Rattle.winmd_strict.specs.Reading.{RowsOf, TypesOf};
ghost use Rattle.winmd_strict.specs.Strict.{Strict};
ghost use Rattle.winmd_strict.specs.Wrong.{one, further_row, wrong_flag, unsorted};

/// A strict image has the rows of its declarations, and states them where they are a set that fits, to a reader that knows nothing of how
/// the image was written.
pub fn strict_states()
    ensures rows { (bytes : List ℕ) (strict : Strict bytes) → (offset : Offsets) × (RowsOf bytes ≡ Ok (record { rows = stated (rows_of strict.declared); offset = offset })) }
    ensures set { (bytes : List ℕ) (strict : Strict bytes) → Fits strict.declared → TypesOf bytes ≡ Ok strict.declared }
{}

/// There are strict images: this one of one struct, which states it.
pub fn one_is_strict()
    ensures strict { Strict one_image }
    ensures states { TypesOf one_image ≡ Ok one }
{}

/// What no strict image has: no bytes at all, bytes behind its section, a heap of texts that doesn't begin with a zero, two indices for one
/// text; and no strict image of a set that fits a row that nothing asks for, a wrong flag, a table out of order.
pub fn not_strict()
    ensures empty { Strict [] → ⊥ }
    ensures slack { (bytes slack : List ℕ) → 0 < length slack → Strict bytes → Strict (bytes ++ slack) → ⊥ }
    ensures heap { (rest : List ℕ) (index : List ℕ → ℕ) (blobs : Placed) (rows : Table → List (List Value))
        → Holds (record { texts = record { bytes = 65 ∷ rest; index = index }; blobs = blobs }) rows → ⊥ }
    ensures index { (heaps : Heaped) (text : List ℕ) (a b : ℕ) → numbers_in_row heaps (Texts ∷ Texts ∷ []) (Value.Text text ∷ Value.Text text ∷ []) ≡ a ∷ b ∷ [] → a ≡ b }
    ensures further { (offset : Offsets) (bytes : List ℕ) → RowsOf bytes ≡ Ok (record { rows = further_row; offset = offset }) → (strict : Strict bytes) → Fits strict.declared → ⊥ }
    ensures flag { (offset : Offsets) (bytes : List ℕ) → RowsOf bytes ≡ Ok (record { rows = wrong_flag; offset = offset }) → (strict : Strict bytes) → Fits strict.declared → ⊥ }
    ensures unsorted { (offset : Offsets) (bytes : List ℕ) → RowsOf bytes ≡ Ok (record { rows = unsorted; offset = offset }) → (strict : Strict bytes) → Fits strict.declared → ⊥ }
{}
