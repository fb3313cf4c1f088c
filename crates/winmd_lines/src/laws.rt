//! The laws that find the rows of a line again.

ghost use Rattle.std.specs.Prelude.{◌≡◌, ◌==◌, ℕ, suc, true, false, List, ◌∷◌, ◌++◌, map, Ok};
ghost use Rattle.md_schema.specs.declared.table.Table.{Table};
ghost use Rattle.md_schema.specs.Schema.{place_of};
ghost use Rattle.winmd_rows.specs.Values.{stated_row};
ghost use Rattle.winmd_lines.specs.Cells.{Tables, numbered, list_of, rows_of_owner};
ghost use Rattle.winmd_lines.specs.Lines.{Line, Next};
ghost use Rattle.winmd_lines.specs.Names.{Names, none, is_in, behind, written};
ghost use Rattle.winmd_lines.specs.Positions.{Plain, behind_all, cell_of, NoneIn, Carries, Apart, AllOwned, owned};

/// The list of a row is what the lines between its line and the next of its table write. (Two columns of a table may begin lists.)
pub fn lists_are_written()
    ensures { (t : Tables) (names : Names) (lines pre : List Line) (l : Line) (own post : List Line) (table : Table) (column : ℕ) (member : Table)
        → Plain t names lines table → Plain t names lines member → lines ≡ pre ++ l ∷ (own ++ post) → is_in table l ≡ true → is_in member l ≡ false
        → cell_of l column ≡ Next member → NoneIn table own → Carries table column member post
        → list_of t table column member (suc (behind_all none pre table))
        ≡ Ok (numbered (suc (behind_all none pre member)) (map stated_row (written names (behind (behind_all none pre) l) own member))) }
{}

/// In a table that isn't sorted, the rows that lead to the row of a line are those that the lines behind it write for it, in their order.
pub fn rows_lead_to_owners()
    ensures { (t : Tables) (names : Names) (lines pre : List Line) (l : Line) (own post : List Line) (keyed : Table) (column : ℕ) (owner : Table)
        → Plain t names lines keyed → Plain t names lines owner → lines ≡ pre ++ l ∷ (own ++ post) → is_in owner l ≡ true
        → (place_of keyed == place_of owner) ≡ false → AllOwned keyed column lines → NoneIn owner own → Apart keyed column owner post
        → owned names (behind (behind_all none pre) l) keyed column owner own ≡ written names (behind (behind_all none pre) l) own keyed
        → rows_of_owner t keyed column owner (suc (behind_all none pre owner))
        ≡ numbered (suc (behind_all none pre keyed)) (map stated_row (written names (behind (behind_all none pre) l) own keyed)) }
{}
