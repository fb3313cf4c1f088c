//! Lines that are added one by one.

ghost use Rattle.std.specs.Prelude.{◌≡◌, List, ◌++◌};
ghost use Rattle.row_writer.specs.Known.{Values};
ghost use Rattle.row_writer.specs.Lines.{no_rows};
ghost use Rattle.winmd_lines.specs.Lines.{Line};
ghost use Rattle.winmd_lines.specs.Names.{Names, none, written};
ghost use Rattle.part_rows.specs.Grown.{with_lines};

/// Lines that are added one by one, from no rows on, are the rows that are written.
pub fn lines_are_written()
    ensures written { (names : Names) (lines : List Line) → with_lines names lines no_rows ≡ written names none lines }
    ensures further { (names : Names) (xs ys : List Line) (rows : Values) → with_lines names (xs ++ ys) rows ≡ with_lines names ys (with_lines names xs rows) }
{}
