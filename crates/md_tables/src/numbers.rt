//! The tables by number, and each table's place in their order.

ghost use Rattle.std.specs.Prelude.{◌≡◌, ◌<◌, None, get_or};
ghost use Rattle.md_schema.specs.Schema.{place_of};
ghost use Rattle.md_tables.specs.Numbers.{by_number, is_known};

use md_schema::Table;

/// The tables by number, from 0.
const BY_NUMBER: [Option<Table>; 45] = [
    Some(Table::Module),
    Some(Table::TypeRef),
    Some(Table::TypeDef),
    None,
    Some(Table::Field),
    None,
    Some(Table::MethodDef),
    None,
    Some(Table::Param),
    Some(Table::InterfaceImpl),
    Some(Table::MemberRef),
    Some(Table::Constant),
    Some(Table::CustomAttribute),
    Some(Table::FieldMarshal),
    Some(Table::DeclSecurity),
    Some(Table::ClassLayout),
    Some(Table::FieldLayout),
    Some(Table::StandAloneSig),
    Some(Table::EventMap),
    None,
    Some(Table::Event),
    Some(Table::PropertyMap),
    None,
    Some(Table::Property),
    Some(Table::MethodSemantics),
    Some(Table::MethodImpl),
    Some(Table::ModuleRef),
    Some(Table::TypeSpec),
    Some(Table::ImplMap),
    Some(Table::FieldRva),
    None,
    None,
    Some(Table::Assembly),
    Some(Table::AssemblyProcessor),
    Some(Table::AssemblyOs),
    Some(Table::AssemblyRef),
    Some(Table::AssemblyRefProcessor),
    Some(Table::AssemblyRefOs),
    Some(Table::File),
    Some(Table::ExportedType),
    Some(Table::ManifestResource),
    Some(Table::NestedClass),
    Some(Table::GenericParam),
    Some(Table::MethodSpec),
    Some(Table::GenericParamConstraint),
];

/// The table of a number below 45, if it has one.
pub fn table_at(n: usize) -> Option<Table>
    requires { n < 45 }
    ensures { result ≡ get_or by_number n None }
{
    BY_NUMBER[n]
}

/// Whether the number is that of a table.
pub fn is_table_number(n: u32) -> bool
    ensures { result ≡ is_known n }
{
    if n >= 45 {
        return false;
    }
    table_at(n as usize).is_some()
}

/// Where a table stands in the order of the numbers.
pub fn place(table: Table) -> usize
    ensures value { result ≡ place_of table }
    ensures small { result < 38 }
{
    match table {
        Table::Module => 0,
        Table::TypeRef => 1,
        Table::TypeDef => 2,
        Table::Field => 3,
        Table::MethodDef => 4,
        Table::Param => 5,
        Table::InterfaceImpl => 6,
        Table::MemberRef => 7,
        Table::Constant => 8,
        Table::CustomAttribute => 9,
        Table::FieldMarshal => 10,
        Table::DeclSecurity => 11,
        Table::ClassLayout => 12,
        Table::FieldLayout => 13,
        Table::StandAloneSig => 14,
        Table::EventMap => 15,
        Table::Event => 16,
        Table::PropertyMap => 17,
        Table::Property => 18,
        Table::MethodSemantics => 19,
        Table::MethodImpl => 20,
        Table::ModuleRef => 21,
        Table::TypeSpec => 22,
        Table::ImplMap => 23,
        Table::FieldRva => 24,
        Table::Assembly => 25,
        Table::AssemblyProcessor => 26,
        Table::AssemblyOs => 27,
        Table::AssemblyRef => 28,
        Table::AssemblyRefProcessor => 29,
        Table::AssemblyRefOs => 30,
        Table::File => 31,
        Table::ExportedType => 32,
        Table::ManifestResource => 33,
        Table::NestedClass => 34,
        Table::GenericParam => 35,
        Table::MethodSpec => 36,
        Table::GenericParamConstraint => 37,
    }
}
