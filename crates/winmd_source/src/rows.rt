//! Lists of at most one row, and those that belong to a row.

ghost use Rattle.std.specs.Prelude.{◌≡◌, ◌≤◌, ◌&&◌, IfOk, length, map, nat_le, option_map};
ghost use Rattle.md_schema.specs.declared.table.Table.TheVariants as tables;
ghost use Rattle.winmd_cells.specs.Given.{Gives};
ghost use Rattle.winmd_cells.specs.Seen.{row_seen, seen, tables_in};
ghost use Rattle.winmd_lines.specs.Cells as cells_as;
ghost use Rattle.winmd_rows.specs.Faults as faults_as;
ghost use Rattle.winmd_sets.specs.Attributes.{at_most_one, owner_of};

use crate::faults::refused;
use crate::source::Source;
use md_schema::{ImageFault, ImageKind, Table};
use ranked::Stop;
use winmd_cells::owned;

impl<'a> Source<'a> {
    fn has_row(&self, table: Table, n: u32) -> bool
        ensures { result ≡ (nat_le 1 n && nat_le n (length ((tables_in self.now.image).rows table))) }
    {
        1 <= n && n <= self.image.count(table)
    }

    /// The one row of a list. Refused with BadShape at an offset where there is none, or another.
    pub fn the_one(&self, table: Table, offset: u64, rows: &[u32]) -> Result<u32, Stop<ImageFault>>
        ensures { Gives (seen self.now.image table) result (faults_as.the_one ImageKind.BadShape offset (map (seen self.now.image table) rows.now)) }
    {
        match rows {
            [row] => Ok(*row),
            _ => Err(refused(ImageKind::BadShape, offset)),
        }
    }

    /// The row of a list that has at most one. Refused with BadShape at an offset where there is another.
    pub fn at_most_one(
        &self,
        table: Table,
        offset: u64,
        rows: &[u32],
    ) -> Result<Option<u32>, Stop<ImageFault>>
        ensures { Gives (option_map (seen self.now.image table)) result (at_most_one offset (map (seen self.now.image table) rows.now)) }
    {
        match rows {
            [] => Ok(None),
            [row] => Ok(Some(*row)),
            _ => Err(refused(ImageKind::BadShape, offset)),
        }
    }

    /// Whether a row is there, for a cell at an offset. Refused with RowRange where it isn't.
    pub fn check_row(&self, table: Table, n: u32, offset: u64) -> Result<(), Stop<ImageFault>>
        ensures row { Gives (λ x. row_seen self.now.image table n) result (cells_as.row_at (tables_in self.now.image) table n offset) }
        ensures within { IfOk result (λ x. n ≤ length ((tables_in self.now.image).rows table)) }
    {
        if self.has_row(table, n) {
            Ok(())
        } else {
            Err(refused(ImageKind::RowRange, offset))
        }
    }

    /// The constants of a field.
    pub fn constants_of(&self, field: u32) -> &'a [u32]
        ensures { map (seen self.now.image tables.Constant) result.now ≡ cells_as.rows_of_owner (tables_in self.now.image) tables.Constant 2 tables.Field field }
    {
        owned(self.parts.constants.as_slice(), field)
    }

    /// The interfaces of a type.
    pub fn interfaces_of(&self, n: u32) -> &'a [u32]
        ensures { map (seen self.now.image tables.InterfaceImpl) result.now ≡ cells_as.rows_of_owner (tables_in self.now.image) tables.InterfaceImpl 0 tables.TypeDef n }
    {
        owned(self.parts.interfaces.as_slice(), n)
    }

    /// What a method is an accessor of.
    pub fn semantics_of(&self, n: u32) -> &'a [u32]
        ensures { map (seen self.now.image tables.MethodSemantics) result.now ≡ cells_as.rows_of_owner (tables_in self.now.image) tables.MethodSemantics 1 tables.MethodDef n }
    {
        owned(self.parts.semantics.as_slice(), n)
    }

    /// Where a type stands within another.
    pub fn nested_of(&self, n: u32) -> &'a [u32]
        ensures { map (seen self.now.image tables.NestedClass) result.now ≡ cells_as.rows_of_owner (tables_in self.now.image) tables.NestedClass 0 tables.TypeDef n }
    {
        owned(self.parts.nested.as_slice(), n)
    }

    /// The attributes of a type.
    pub fn attributes_of_type(&self, n: u32) -> &'a [u32]
        ensures { map (seen self.now.image tables.CustomAttribute) result.now ≡ cells_as.rows_of_owner (tables_in self.now.image) tables.CustomAttribute 0 tables.TypeDef n }
    {
        owned(self.attributes.of_types.as_slice(), n)
    }

    /// The attributes of a method.
    pub fn attributes_of_method(&self, n: u32) -> &'a [u32]
        ensures { map (seen self.now.image tables.CustomAttribute) result.now ≡ cells_as.rows_of_owner (tables_in self.now.image) tables.CustomAttribute 0 tables.MethodDef n }
    {
        owned(self.attributes.of_methods.as_slice(), n)
    }

    /// The attributes of an interface of a type.
    pub fn attributes_of_interface(&self, n: u32) -> &'a [u32]
        ensures { map (seen self.now.image tables.CustomAttribute) result.now ≡ cells_as.rows_of_owner (tables_in self.now.image) tables.CustomAttribute 0 tables.InterfaceImpl n }
    {
        owned(self.attributes.of_interfaces.as_slice(), n)
    }

    /// The type whose list holds a method that there is.
    pub fn owner_of(&self, n: u32) -> u32
        requires { n ≤ length ((tables_in self.now.image).rows tables.MethodDef) }
        ensures { result ≡ owner_of (tables_in self.now.image) n }
    {
        match self.attributes.owners.get(n as usize) {
            Some(owner) => *owner,
            None => 0,
        }
    }
}
