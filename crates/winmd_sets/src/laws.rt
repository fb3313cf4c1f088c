//! The law between what is written and what is read.

ghost use Rattle.std.specs.Prelude.{◌≡◌, ℕ, List, Ok};
ghost use Rattle.winmd_rows.specs.Values.{Offsets, stated};
ghost use Rattle.wr_base.specs.Trees.{DeclTree, name_of};
ghost use Rattle.winmd_lines.specs.Orders.{Rising, set_by};
ghost use Rattle.winmd_sets.specs.Fits.{Fits};
ghost use Rattle.winmd_sets.specs.Rows.{rows_of};
ghost use Rattle.winmd_sets.specs.Types.{types_of};

/// The rows of a set state that set, in the order of full names, to a reader that knows nothing of how they were written.
pub fn rows_state()
    ensures set { (declared : List DeclTree) (offset : Offsets) → Fits declared → types_of (record { rows = stated (rows_of declared); offset = offset }) ≡ Ok (set_by name_of declared) }
    ensures ordered { (declared : List DeclTree) (offset : Offsets) → Fits declared → Rising name_of declared → types_of (record { rows = stated (rows_of declared); offset = offset }) ≡ Ok declared }
{}
