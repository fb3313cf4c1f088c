//! The coded indices: which tables each may name.

ghost use Rattle.std.specs.Prelude.{◌≡◌, ◌≤◌, ◌^◌, length};
ghost use Rattle.std.specs.Result.{result_ok};
ghost use Rattle.md_schema.specs.Codes.{target_of, code_of};
ghost use Rattle.md_schema.specs.Schema.{choices_of, bits_of};

use crate::coded::{BadTag, Coded, decode_among, encode_among};
use crate::column::CodedIndex;
use crate::table::Table;

const TYPE_DEF_OR_REF_TABLES: [Option<Table>; 3] = [
    Some(Table::TypeDef),
    Some(Table::TypeRef),
    Some(Table::TypeSpec),
];

const HAS_CONSTANT_TABLES: [Option<Table>; 3] = [
    Some(Table::Field),
    Some(Table::Param),
    Some(Table::Property),
];

const HAS_CUSTOM_ATTRIBUTE_TABLES: [Option<Table>; 22] = [
    Some(Table::MethodDef),
    Some(Table::Field),
    Some(Table::TypeRef),
    Some(Table::TypeDef),
    Some(Table::Param),
    Some(Table::InterfaceImpl),
    Some(Table::MemberRef),
    Some(Table::Module),
    Some(Table::DeclSecurity),
    Some(Table::Property),
    Some(Table::Event),
    Some(Table::StandAloneSig),
    Some(Table::ModuleRef),
    Some(Table::TypeSpec),
    Some(Table::Assembly),
    Some(Table::AssemblyRef),
    Some(Table::File),
    Some(Table::ExportedType),
    Some(Table::ManifestResource),
    Some(Table::GenericParam),
    Some(Table::GenericParamConstraint),
    Some(Table::MethodSpec),
];

const HAS_FIELD_MARSHAL_TABLES: [Option<Table>; 2] = [Some(Table::Field), Some(Table::Param)];

const HAS_DECL_SECURITY_TABLES: [Option<Table>; 3] = [
    Some(Table::TypeDef),
    Some(Table::MethodDef),
    Some(Table::Assembly),
];

const MEMBER_REF_PARENT_TABLES: [Option<Table>; 5] = [
    Some(Table::TypeDef),
    Some(Table::TypeRef),
    Some(Table::ModuleRef),
    Some(Table::MethodDef),
    Some(Table::TypeSpec),
];

const HAS_SEMANTICS_TABLES: [Option<Table>; 2] = [Some(Table::Event), Some(Table::Property)];

const METHOD_DEF_OR_REF_TABLES: [Option<Table>; 2] = [
    Some(Table::MethodDef),
    Some(Table::MemberRef),
];

const MEMBER_FORWARDED_TABLES: [Option<Table>; 2] = [Some(Table::Field), Some(Table::MethodDef)];

const IMPLEMENTATION_TABLES: [Option<Table>; 3] = [
    Some(Table::File),
    Some(Table::AssemblyRef),
    Some(Table::ExportedType),
];

const CUSTOM_ATTRIBUTE_TYPE_TABLES: [Option<Table>; 5] = [
    None,
    None,
    Some(Table::MethodDef),
    Some(Table::MemberRef),
    None,
];

const RESOLUTION_SCOPE_TABLES: [Option<Table>; 4] = [
    Some(Table::Module),
    Some(Table::ModuleRef),
    Some(Table::AssemblyRef),
    Some(Table::TypeRef),
];

const TYPE_OR_METHOD_DEF_TABLES: [Option<Table>; 2] = [
    Some(Table::TypeDef),
    Some(Table::MethodDef),
];

/// TypeDefOrRef.
pub const TYPE_DEF_OR_REF: Coded<3> = Coded {
    bits: 2,
    tables: TYPE_DEF_OR_REF_TABLES,
};

/// HasConstant.
pub const HAS_CONSTANT: Coded<3> = Coded {
    bits: 2,
    tables: HAS_CONSTANT_TABLES,
};

/// HasCustomAttribute.
pub const HAS_CUSTOM_ATTRIBUTE: Coded<22> = Coded {
    bits: 5,
    tables: HAS_CUSTOM_ATTRIBUTE_TABLES,
};

/// HasFieldMarshal.
pub const HAS_FIELD_MARSHAL: Coded<2> = Coded {
    bits: 1,
    tables: HAS_FIELD_MARSHAL_TABLES,
};

/// HasDeclSecurity.
pub const HAS_DECL_SECURITY: Coded<3> = Coded {
    bits: 2,
    tables: HAS_DECL_SECURITY_TABLES,
};

/// MemberRefParent.
pub const MEMBER_REF_PARENT: Coded<5> = Coded {
    bits: 3,
    tables: MEMBER_REF_PARENT_TABLES,
};

/// HasSemantics.
pub const HAS_SEMANTICS: Coded<2> = Coded {
    bits: 1,
    tables: HAS_SEMANTICS_TABLES,
};

/// MethodDefOrRef.
pub const METHOD_DEF_OR_REF: Coded<2> = Coded {
    bits: 1,
    tables: METHOD_DEF_OR_REF_TABLES,
};

/// MemberForwarded.
pub const MEMBER_FORWARDED: Coded<2> = Coded {
    bits: 1,
    tables: MEMBER_FORWARDED_TABLES,
};

/// Implementation.
pub const IMPLEMENTATION: Coded<3> = Coded {
    bits: 2,
    tables: IMPLEMENTATION_TABLES,
};

/// CustomAttributeType.
pub const CUSTOM_ATTRIBUTE_TYPE: Coded<5> = Coded {
    bits: 3,
    tables: CUSTOM_ATTRIBUTE_TYPE_TABLES,
};

/// ResolutionScope.
pub const RESOLUTION_SCOPE: Coded<4> = Coded {
    bits: 2,
    tables: RESOLUTION_SCOPE_TABLES,
};

/// TypeOrMethodDef.
pub const TYPE_OR_METHOD_DEF: Coded<2> = Coded {
    bits: 1,
    tables: TYPE_OR_METHOD_DEF_TABLES,
};

/// The tables that a coded index may name, by tag; a tag without a table has `None`.
pub fn choices(coded: CodedIndex) -> &'static [Option<Table>]
    ensures value { result.now ≡ choices_of coded }
    ensures fits { length result.now ≤ 2 ^ bits_of coded }
{
    match coded {
        CodedIndex::TypeDefOrRef => &TYPE_DEF_OR_REF_TABLES,
        CodedIndex::HasConstant => &HAS_CONSTANT_TABLES,
        CodedIndex::HasCustomAttribute => &HAS_CUSTOM_ATTRIBUTE_TABLES,
        CodedIndex::HasFieldMarshal => &HAS_FIELD_MARSHAL_TABLES,
        CodedIndex::HasDeclSecurity => &HAS_DECL_SECURITY_TABLES,
        CodedIndex::MemberRefParent => &MEMBER_REF_PARENT_TABLES,
        CodedIndex::HasSemantics => &HAS_SEMANTICS_TABLES,
        CodedIndex::MethodDefOrRef => &METHOD_DEF_OR_REF_TABLES,
        CodedIndex::MemberForwarded => &MEMBER_FORWARDED_TABLES,
        CodedIndex::Implementation => &IMPLEMENTATION_TABLES,
        CodedIndex::CustomAttributeType => &CUSTOM_ATTRIBUTE_TYPE_TABLES,
        CodedIndex::ResolutionScope => &RESOLUTION_SCOPE_TABLES,
        CodedIndex::TypeOrMethodDef => &TYPE_OR_METHOD_DEF_TABLES,
    }
}

/// How many bits the tag of a coded index has.
pub fn bits(coded: CodedIndex) -> u32
    ensures value { result ≡ bits_of coded }
    ensures small { result ≤ 5 }
{
    match coded {
        CodedIndex::TypeDefOrRef => 2,
        CodedIndex::HasConstant => 2,
        CodedIndex::HasCustomAttribute => 5,
        CodedIndex::HasFieldMarshal => 1,
        CodedIndex::HasDeclSecurity => 2,
        CodedIndex::MemberRefParent => 3,
        CodedIndex::HasSemantics => 1,
        CodedIndex::MethodDefOrRef => 1,
        CodedIndex::MemberForwarded => 1,
        CodedIndex::Implementation => 2,
        CodedIndex::CustomAttributeType => 3,
        CodedIndex::ResolutionScope => 2,
        CodedIndex::TypeOrMethodDef => 1,
    }
}

/// The table and the row that a number names. Refused where its low bits are the tag of no table.
pub fn decode(coded: CodedIndex, raw: u32) -> Result<(Table, u32), BadTag>
    ensures { result_ok result ≡ target_of (bits_of coded) (choices_of coded) raw }
{
    decode_among(bits(coded), choices(coded), raw)
}

/// The number that names a row of a table. `None` where the coded index can't name this table.
pub fn encode(coded: CodedIndex, table: Table, row: u32) -> Option<u32>
    requires { row ≤ 2 ^ 24 }
    ensures { result ≡ code_of (bits_of coded) (choices_of coded) table row }
{
    encode_among(bits(coded), choices(coded), table, row)
}
