//! The type that each number stands for where signatures are read.

ghost use Rattle.std.specs.Prelude.{◌≡◌, ◌++◌, ◌∷◌, [], OnOk, OnErr};
ghost use Rattle.sig_blobs.specs.Given.{Finds};
ghost use Rattle.sig_blobs.specs.Tokens.{meaning_in, row_name};

use md_schema::{CodedIndex, ImageKind, Table, decode};
use ranked::{Memory, Name};
use std::alloc::Global;
use std::marker::Model;

/// A row's full name, or why it has none that can be read.
pub type RowName = Result<Name, ImageKind>;

/// The full names in the rows of TypeDef and TypeRef, by which TypeDefOrRef coded indices are understood (ECMA-335 II.24.2.6).
#[derive(Drop)]
pub struct TokenNames {
    defs: Vec<RowName>,
    refs: Vec<RowName>,
}

impl Model for TokenNames {
    ghost use Rattle.sig_blobs.specs.Tokens.{Named};

    ghost Value = { Named };

    ghost view = { λ n. record { defs = n.defs.items; refs = n.refs.items } };
}

// The name in a row, counted from 1.
fn row_name(rows: &[RowName], row: u32) -> Result<&str, ImageKind>
    ensures { Finds (λ x. x.now) result (row_name rows.now row) }
{
    if row == 0 {
        return Err(ImageKind::RowRange);
    }
    match rows.get(row as usize - 1) {
        None => Err(ImageKind::RowRange),
        Some(Err(kind)) => Err(*kind),
        Some(Ok(name)) => Ok(name.as_str()),
    }
}

impl TokenNames {
    /// Two tables without rows.
    pub fn new(alloc: Global) -> TokenNames
        ensures { result ≡ record { defs = []; refs = [] } }
    {
        TokenNames {
            defs: Vec::new(alloc),
            refs: Vec::new(alloc),
        }
    }

    /// The next row of TypeDef.
    pub fn push_def(&mut self, name: RowName) -> Result<(), Memory>
        ensures ok { OnOk result (self.new ≡ record self.old { defs = self.old.defs ++ name ∷ [] }) }
        ensures unchanged { OnErr result (self.new ≡ self.old) }
    {
        self.defs.push(name)?;
        Ok(())
    }

    /// The next row of TypeRef.
    pub fn push_ref(&mut self, name: RowName) -> Result<(), Memory>
        ensures ok { OnOk result (self.new ≡ record self.old { refs = self.old.refs ++ name ∷ [] }) }
        ensures unchanged { OnErr result (self.new ≡ self.old) }
    {
        self.refs.push(name)?;
        Ok(())
    }

    /// The full name of the type that the number stands for: RowRange past the tables, BadTag for the tag of none, SigElement for a
    /// TypeSpec.
    pub fn name(&self, token: u32) -> Result<&str, ImageKind>
        ensures { Finds (λ x. x.now) result (meaning_in self.now token) }
    {
        match decode(CodedIndex::TypeDefOrRef, token) {
            Err(_) => Err(ImageKind::BadTag),
            Ok((Table::TypeDef, row)) => row_name(self.defs.as_slice(), row),
            Ok((Table::TypeRef, row)) => row_name(self.refs.as_slice(), row),
            Ok(_) => Err(ImageKind::SigElement),
        }
    }
}
