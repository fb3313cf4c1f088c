//! An image, and what is found once of all its rows.

ghost use Rattle.std.specs.Prelude.{◌≡◌, ◌≤◌, ℕ, get_or, length};
ghost use Rattle.md_schema.specs.declared.table.Table.TheVariants as tables;
ghost use Rattle.sig_blobs.specs.Tokens.{meaning_in};
ghost use Rattle.winmd_cells.specs.Indexed.{IsIndex};
ghost use Rattle.winmd_cells.specs.Seen.{tables_in};
ghost use Rattle.winmd_sets.specs.Attributes.{owner_of};
ghost use Rattle.winmd_sets.specs.Blobs.{meanings};

use sig_blobs::TokenNames;
use winmd_cells::Image;

/// The rows of parts by the row to which they belong, as lists by its number.
#[derive(Drop)]
pub struct PartRows {
    /// Constants by their field (ECMA-335 II.22.9).
    pub constants: Vec<Vec<u32>>,
    /// InterfaceImpl by the type (II.22.23).
    pub interfaces: Vec<Vec<u32>>,
    /// MethodSemantics by the method (II.22.28).
    pub semantics: Vec<Vec<u32>>,
    /// NestedClass by the inner type (II.22.32).
    pub nested: Vec<Vec<u32>>,
}

/// The rows of CustomAttribute by the row that has the attribute (II.22.10), and the type of each method by the method's row.
#[derive(Drop)]
pub struct AttributeRows {
    pub of_types: Vec<Vec<u32>>,
    pub of_methods: Vec<Vec<u32>>,
    pub of_interfaces: Vec<Vec<u32>>,
    pub owners: Vec<u32>,
}

/// An image that is read.
#[derive(Clone, Copy)]
pub struct Source<'a> {
    pub image: Image<'a>,
    /// What the tokens of signatures stand for.
    pub names: &'a TokenNames,
    pub parts: &'a PartRows,
    pub attributes: &'a AttributeRows,
    pub ghost named: { meaning_in names.now ≡ meanings (tables_in image) },
    pub ghost constants: { IsIndex image tables.Constant 2 tables.Field parts.now.constants.items },
    pub ghost interfaces: { IsIndex image tables.InterfaceImpl 0 tables.TypeDef parts.now.interfaces.items },
    pub ghost semantics: { IsIndex image tables.MethodSemantics 1 tables.MethodDef parts.now.semantics.items },
    pub ghost nested: { IsIndex image tables.NestedClass 0 tables.TypeDef parts.now.nested.items },
    pub ghost of_types: { IsIndex image tables.CustomAttribute 0 tables.TypeDef attributes.now.of_types.items },
    pub ghost of_methods: { IsIndex image tables.CustomAttribute 0 tables.MethodDef attributes.now.of_methods.items },
    pub ghost of_interfaces: { IsIndex image tables.CustomAttribute 0 tables.InterfaceImpl attributes.now.of_interfaces.items },
    pub ghost owned: { (n : ℕ) → n ≤ length ((tables_in image).rows tables.MethodDef) → get_or attributes.now.owners.items n 0 ≡ owner_of (tables_in image) n },
}
