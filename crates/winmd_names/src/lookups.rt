//! Where names, instances and constructors have their rows.

ghost use Rattle.std.specs.Prelude.{◌≡◌, suc, IfOk, map, string_bytes};
ghost use Rattle.md_schema.specs.declared.table.Table.TheVariants as tables;
ghost use Rattle.sig_blobs.specs.Numbers.{number_in};
ghost use Rattle.wr_base.specs.Trees.{same_use, tree_of};
ghost use Rattle.winmd_rows.specs.Values.{To};
ghost use Rattle.winmd_lines.specs.Names as names;
ghost use Rattle.winmd_uses.specs.Makers.{maker_of};
ghost use Rattle.winmd_names.specs.Seen.{seen};

use crate::makers::place_of;
use crate::set_names::SetNames;
use md_schema::{CodedIndex, Table, decode};
use ranked::Memory;
use sig_blobs::Tokens;
use winmd_uses::{Maker, put_key};
use wr_base::TypeUse;

impl SetNames {
    /// The number of each name: the TypeDefOrRef of its row.
    pub fn tokens(&self) -> &Tokens
        ensures { number_in result.now ≡ names.token_of (seen self.now) }
    {
        &self.tokens
    }

    /// The full names of TypeRefs, in the order of their rows.
    pub fn refs(&self) -> &[String]
        ensures { map string_bytes result.now ≡ (seen self.now).refs }
    {
        self.types.refs.as_slice()
    }

    /// The uses that TypeSpecs spell, in the order of their rows.
    pub fn specs(&self) -> &[TypeUse]
        ensures { map tree_of result.now ≡ (seen self.now).specs }
    {
        self.instances.list.as_slice()
    }

    /// The constructors that MemberRefs name, in the order of their rows.
    pub fn makers(&self) -> &[Maker]
        ensures { map maker_of result.now ≡ (seen self.now).makers }
    {
        self.makers.as_slice()
    }

    /// The row of the MemberRef of a constructor.
    pub fn maker_row(&self, maker: Maker) -> u32
        ensures { result ≡ suc (names.place (names.is_maker (maker_of maker)) (seen self.now).makers) }
    {
        place_of(self.makers.as_slice(), maker) as u32 + 1
    }

    /// The row of the type of this full name: of its TypeDef or its TypeRef.
    pub fn named_row(&self, name: &str) -> (Table, u32)
        ensures { To result.0 result.1 ≡ names.named_row (seen self.now) name.now }
    {
        match decode(CodedIndex::TypeDefOrRef, self.tokens.number(name)) {
            Ok(row) => row,
            Err(_) => (Table::TypeDef, 0),
        }
    }

    // The row of the TypeSpec of an instance.
    fn instance_row(&self, ty: &TypeUse) -> Result<u32, Memory>
        ensures { IfOk result (λ row. row ≡ suc (names.place (same_use (tree_of ty.now)) (seen self.now).specs)) }
    {
        let mut key = Vec::new(self.alloc);
        put_key(&mut key, ty)?;
        match self.instances.rows.get(key.as_slice()) {
            Some(row) => Ok(*row),
            None => Ok(self.instances.list.len() as u32 + 1),
        }
    }

    /// The row that a cell with this type leads to: of its TypeDef, its TypeRef or, of an instance, its TypeSpec. Err is want of memory.
    pub fn type_row(&self, ty: &TypeUse) -> Result<(Table, u32), Memory>
        ensures { IfOk result (λ row. To row.0 row.1 ≡ names.type_value (seen self.now) (tree_of ty.now)) }
    {
        match ty {
            TypeUse::Plain(_) => Ok((Table::TypeDef, 0)),
            TypeUse::Value(name) => Ok(self.named_row(name.as_str())),
            TypeUse::Reference(name) => Ok(self.named_row(name.as_str())),
            TypeUse::Inst(_, _) => Ok((Table::TypeSpec, self.instance_row(ty)?)),
        }
    }
}
