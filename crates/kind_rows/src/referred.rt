//! Where the types, the instances and the constructors that rows refer to have their rows.

ghost use Rattle.std.specs.Prelude.{◌≡◌, suc, IsTrue, IfOk};
ghost use Rattle.kind_rows.specs.Makers.{maker_of};
ghost use Rattle.md_schema.specs.declared.column.CodedIndex.TheVariants.{MemberRefParent, TypeDefOrRef};
ghost use Rattle.md_schema.specs.declared.column.Column.TheVariants.{Coded};
ghost use Rattle.row_writer.specs.Lines.{takes_rows};
ghost use Rattle.sig_blobs.specs.Numbers.{number_in};
ghost use Rattle.winmd_lines.specs.Names.{Names, is_maker, named_row, place, token_of, type_value};
ghost use Rattle.winmd_rows.specs.Values.{To};
ghost use Rattle.wr_base.specs.Trees.{tree_of};

use crate::makers::Maker;
use part_rows::Target;
use ranked::Memory;
use sig_blobs::Tokens;
use wr_base::TypeUse;

/// The names of a set, by which rows are found.
pub trait Referred {
    // the names themselves
    ghost names: { Self → Names };

    /// The number of each type.
    fn tokens(&self) -> &Tokens
        ensures { number_in result.now ≡ token_of (names self.now) };

    /// The row of the type of this full name.
    fn named(&self, full: &str) -> Target
        ensures row { To result.table result.row ≡ named_row (names self.now) full.now }
        ensures fits { IsTrue (takes_rows result.table (Coded TypeDefOrRef)) }
        ensures owns { IsTrue (takes_rows result.table (Coded MemberRefParent)) };

    /// The row that a use leads to: of an instance, its TypeSpec's.
    fn led_to(&self, ty: &TypeUse) -> Result<Target, Memory>
        ensures row { IfOk result (λ target. To target.table target.row ≡ type_value (names self.now) (tree_of ty.now)) }
        ensures fits { IfOk result (λ target. IsTrue (takes_rows target.table (Coded TypeDefOrRef))) };

    /// The row of a constructor.
    fn maker_row(&self, maker: Maker) -> u32
        ensures { result ≡ suc (place (is_maker (maker_of maker)) (names self.now).makers) };
}
