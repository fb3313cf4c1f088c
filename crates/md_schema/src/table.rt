//! The tables of metadata, by their numbers.

ghost use Rattle.std.specs.Prelude.{◌≡◌, ◌≢◌, IfSome, IfNone};
ghost use Rattle.md_schema.specs.declared.table.Table.{Table};
ghost use Rattle.md_schema.specs.Schema.{number_of};

/// A table of metadata (ECMA-335 II.22).
#[derive(Clone, Copy, Debug, PartialEq, Eq)]
pub enum Table {
    /// II.22.30, number 0.
    Module,
    /// II.22.38, number 1.
    TypeRef,
    /// II.22.37, number 2.
    TypeDef,
    /// II.22.15, number 4.
    Field,
    /// II.22.26, number 6.
    MethodDef,
    /// II.22.33, number 8.
    Param,
    /// II.22.23, number 9.
    InterfaceImpl,
    /// II.22.25, number 10.
    MemberRef,
    /// II.22.9, number 11.
    Constant,
    /// II.22.10, number 12.
    CustomAttribute,
    /// II.22.17, number 13.
    FieldMarshal,
    /// II.22.11, number 14.
    DeclSecurity,
    /// II.22.8, number 15.
    ClassLayout,
    /// II.22.16, number 16.
    FieldLayout,
    /// II.22.36, number 17.
    StandAloneSig,
    /// II.22.12, number 18.
    EventMap,
    /// II.22.13, number 20.
    Event,
    /// II.22.35, number 21.
    PropertyMap,
    /// II.22.34, number 23.
    Property,
    /// II.22.28, number 24.
    MethodSemantics,
    /// II.22.27, number 25.
    MethodImpl,
    /// II.22.31, number 26.
    ModuleRef,
    /// II.22.39, number 27.
    TypeSpec,
    /// II.22.22, number 28.
    ImplMap,
    /// II.22.18, number 29.
    FieldRva,
    /// II.22.2, number 32.
    Assembly,
    /// II.22.4, number 33.
    AssemblyProcessor,
    /// II.22.3, number 34.
    AssemblyOs,
    /// II.22.5, number 35.
    AssemblyRef,
    /// II.22.7, number 36.
    AssemblyRefProcessor,
    /// II.22.6, number 37.
    AssemblyRefOs,
    /// II.22.19, number 38.
    File,
    /// II.22.14, number 39.
    ExportedType,
    /// II.22.24, number 40.
    ManifestResource,
    /// II.22.32, number 41.
    NestedClass,
    /// II.22.20, number 42.
    GenericParam,
    /// II.22.29, number 43.
    MethodSpec,
    /// II.22.21, number 44.
    GenericParamConstraint,
}

/// All tables, in the order of their numbers, which is that of their rows in an image.
pub const TABLES: [Table; 38] = [
    Table::Module,
    Table::TypeRef,
    Table::TypeDef,
    Table::Field,
    Table::MethodDef,
    Table::Param,
    Table::InterfaceImpl,
    Table::MemberRef,
    Table::Constant,
    Table::CustomAttribute,
    Table::FieldMarshal,
    Table::DeclSecurity,
    Table::ClassLayout,
    Table::FieldLayout,
    Table::StandAloneSig,
    Table::EventMap,
    Table::Event,
    Table::PropertyMap,
    Table::Property,
    Table::MethodSemantics,
    Table::MethodImpl,
    Table::ModuleRef,
    Table::TypeSpec,
    Table::ImplMap,
    Table::FieldRva,
    Table::Assembly,
    Table::AssemblyProcessor,
    Table::AssemblyOs,
    Table::AssemblyRef,
    Table::AssemblyRefProcessor,
    Table::AssemblyRefOs,
    Table::File,
    Table::ExportedType,
    Table::ManifestResource,
    Table::NestedClass,
    Table::GenericParam,
    Table::MethodSpec,
    Table::GenericParamConstraint,
];

impl Table {
    /// The table of this number. `None` where the number is that of no table.
    pub fn from_number(n: u8) -> Option<Table>
        ensures named { IfSome result (λ table. number_of table ≡ n) }
        ensures none { IfNone result ((table : Table) → number_of table ≢ n) }
    {
        match n {
            0 => Some(Table::Module),
            1 => Some(Table::TypeRef),
            2 => Some(Table::TypeDef),
            4 => Some(Table::Field),
            6 => Some(Table::MethodDef),
            8 => Some(Table::Param),
            9 => Some(Table::InterfaceImpl),
            10 => Some(Table::MemberRef),
            11 => Some(Table::Constant),
            12 => Some(Table::CustomAttribute),
            13 => Some(Table::FieldMarshal),
            14 => Some(Table::DeclSecurity),
            15 => Some(Table::ClassLayout),
            16 => Some(Table::FieldLayout),
            17 => Some(Table::StandAloneSig),
            18 => Some(Table::EventMap),
            20 => Some(Table::Event),
            21 => Some(Table::PropertyMap),
            23 => Some(Table::Property),
            24 => Some(Table::MethodSemantics),
            25 => Some(Table::MethodImpl),
            26 => Some(Table::ModuleRef),
            27 => Some(Table::TypeSpec),
            28 => Some(Table::ImplMap),
            29 => Some(Table::FieldRva),
            32 => Some(Table::Assembly),
            33 => Some(Table::AssemblyProcessor),
            34 => Some(Table::AssemblyOs),
            35 => Some(Table::AssemblyRef),
            36 => Some(Table::AssemblyRefProcessor),
            37 => Some(Table::AssemblyRefOs),
            38 => Some(Table::File),
            39 => Some(Table::ExportedType),
            40 => Some(Table::ManifestResource),
            41 => Some(Table::NestedClass),
            42 => Some(Table::GenericParam),
            43 => Some(Table::MethodSpec),
            44 => Some(Table::GenericParamConstraint),
            _ => None,
        }
    }

    /// The number of the table, its bit in the header of the tables' stream (ECMA-335 II.22, II.24.2.6).
    pub fn number(self) -> u8
        ensures { result ≡ number_of self }
    {
        match self {
            Table::Module => 0,
            Table::TypeRef => 1,
            Table::TypeDef => 2,
            Table::Field => 4,
            Table::MethodDef => 6,
            Table::Param => 8,
            Table::InterfaceImpl => 9,
            Table::MemberRef => 10,
            Table::Constant => 11,
            Table::CustomAttribute => 12,
            Table::FieldMarshal => 13,
            Table::DeclSecurity => 14,
            Table::ClassLayout => 15,
            Table::FieldLayout => 16,
            Table::StandAloneSig => 17,
            Table::EventMap => 18,
            Table::Event => 20,
            Table::PropertyMap => 21,
            Table::Property => 23,
            Table::MethodSemantics => 24,
            Table::MethodImpl => 25,
            Table::ModuleRef => 26,
            Table::TypeSpec => 27,
            Table::ImplMap => 28,
            Table::FieldRva => 29,
            Table::Assembly => 32,
            Table::AssemblyProcessor => 33,
            Table::AssemblyOs => 34,
            Table::AssemblyRef => 35,
            Table::AssemblyRefProcessor => 36,
            Table::AssemblyRefOs => 37,
            Table::File => 38,
            Table::ExportedType => 39,
            Table::ManifestResource => 40,
            Table::NestedClass => 41,
            Table::GenericParam => 42,
            Table::MethodSpec => 43,
            Table::GenericParamConstraint => 44,
        }
    }
}
