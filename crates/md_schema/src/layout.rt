//! The columns of each table.

ghost use Rattle.std.specs.Prelude.{◌≡◌};
ghost use Rattle.md_schema.specs.Schema.{columns_of};

use crate::column::{CodedIndex, Column};
use crate::table::Table;

/// The columns of Module (ECMA-335 II.22.30).
pub const MODULE: [Column; 5] = [
    Column::Two,
    Column::Texts,
    Column::Guids,
    Column::Guids,
    Column::Guids,
];

/// The columns of TypeRef (ECMA-335 II.22.38).
pub const TYPE_REF: [Column; 3] = [
    Column::Coded(CodedIndex::ResolutionScope),
    Column::Texts,
    Column::Texts,
];

/// The columns of TypeDef (ECMA-335 II.22.37).
pub const TYPE_DEF: [Column; 6] = [
    Column::Four,
    Column::Texts,
    Column::Texts,
    Column::Coded(CodedIndex::TypeDefOrRef),
    Column::Index(Table::Field),
    Column::Index(Table::MethodDef),
];

/// The columns of Field (ECMA-335 II.22.15).
pub const FIELD: [Column; 3] = [Column::Two, Column::Texts, Column::Blobs];

/// The columns of MethodDef (ECMA-335 II.22.26).
pub const METHOD_DEF: [Column; 6] = [
    Column::Four,
    Column::Two,
    Column::Two,
    Column::Texts,
    Column::Blobs,
    Column::Index(Table::Param),
];

/// The columns of Param (ECMA-335 II.22.33).
pub const PARAM: [Column; 3] = [Column::Two, Column::Two, Column::Texts];

/// The columns of InterfaceImpl (ECMA-335 II.22.23).
pub const INTERFACE_IMPL: [Column; 2] = [
    Column::Index(Table::TypeDef),
    Column::Coded(CodedIndex::TypeDefOrRef),
];

/// The columns of MemberRef (ECMA-335 II.22.25).
pub const MEMBER_REF: [Column; 3] = [
    Column::Coded(CodedIndex::MemberRefParent),
    Column::Texts,
    Column::Blobs,
];

/// The columns of Constant (ECMA-335 II.22.9).
pub const CONSTANT: [Column; 4] = [
    Column::One,
    Column::One,
    Column::Coded(CodedIndex::HasConstant),
    Column::Blobs,
];

/// The columns of CustomAttribute (ECMA-335 II.22.10).
pub const CUSTOM_ATTRIBUTE: [Column; 3] = [
    Column::Coded(CodedIndex::HasCustomAttribute),
    Column::Coded(CodedIndex::CustomAttributeType),
    Column::Blobs,
];

/// The columns of FieldMarshal (ECMA-335 II.22.17).
pub const FIELD_MARSHAL: [Column; 2] = [Column::Coded(CodedIndex::HasFieldMarshal), Column::Blobs];

/// The columns of DeclSecurity (ECMA-335 II.22.11).
pub const DECL_SECURITY: [Column; 3] = [
    Column::Two,
    Column::Coded(CodedIndex::HasDeclSecurity),
    Column::Blobs,
];

/// The columns of ClassLayout (ECMA-335 II.22.8).
pub const CLASS_LAYOUT: [Column; 3] = [Column::Two, Column::Four, Column::Index(Table::TypeDef)];

/// The columns of FieldLayout (ECMA-335 II.22.16).
pub const FIELD_LAYOUT: [Column; 2] = [Column::Four, Column::Index(Table::Field)];

/// The columns of StandAloneSig (ECMA-335 II.22.36).
pub const STAND_ALONE_SIG: [Column; 1] = [Column::Blobs];

/// The columns of EventMap (ECMA-335 II.22.12).
pub const EVENT_MAP: [Column; 2] = [Column::Index(Table::TypeDef), Column::Index(Table::Event)];

/// The columns of Event (ECMA-335 II.22.13).
pub const EVENT: [Column; 3] = [
    Column::Two,
    Column::Texts,
    Column::Coded(CodedIndex::TypeDefOrRef),
];

/// The columns of PropertyMap (ECMA-335 II.22.35).
pub const PROPERTY_MAP: [Column; 2] = [
    Column::Index(Table::TypeDef),
    Column::Index(Table::Property),
];

/// The columns of Property (ECMA-335 II.22.34).
pub const PROPERTY: [Column; 3] = [Column::Two, Column::Texts, Column::Blobs];

/// The columns of MethodSemantics (ECMA-335 II.22.28).
pub const METHOD_SEMANTICS: [Column; 3] = [
    Column::Two,
    Column::Index(Table::MethodDef),
    Column::Coded(CodedIndex::HasSemantics),
];

/// The columns of MethodImpl (ECMA-335 II.22.27).
pub const METHOD_IMPL: [Column; 3] = [
    Column::Index(Table::TypeDef),
    Column::Coded(CodedIndex::MethodDefOrRef),
    Column::Coded(CodedIndex::MethodDefOrRef),
];

/// The columns of ModuleRef (ECMA-335 II.22.31).
pub const MODULE_REF: [Column; 1] = [Column::Texts];

/// The columns of TypeSpec (ECMA-335 II.22.39).
pub const TYPE_SPEC: [Column; 1] = [Column::Blobs];

/// The columns of ImplMap (ECMA-335 II.22.22).
pub const IMPL_MAP: [Column; 4] = [
    Column::Two,
    Column::Coded(CodedIndex::MemberForwarded),
    Column::Texts,
    Column::Index(Table::ModuleRef),
];

/// The columns of FieldRva (ECMA-335 II.22.18).
pub const FIELD_RVA: [Column; 2] = [Column::Four, Column::Index(Table::Field)];

/// The columns of Assembly (ECMA-335 II.22.2).
pub const ASSEMBLY: [Column; 9] = [
    Column::Four,
    Column::Two,
    Column::Two,
    Column::Two,
    Column::Two,
    Column::Four,
    Column::Blobs,
    Column::Texts,
    Column::Texts,
];

/// The columns of AssemblyProcessor (ECMA-335 II.22.4).
pub const ASSEMBLY_PROCESSOR: [Column; 1] = [Column::Four];

/// The columns of AssemblyOs (ECMA-335 II.22.3).
pub const ASSEMBLY_OS: [Column; 3] = [Column::Four, Column::Four, Column::Four];

/// The columns of AssemblyRef (ECMA-335 II.22.5).
pub const ASSEMBLY_REF: [Column; 9] = [
    Column::Two,
    Column::Two,
    Column::Two,
    Column::Two,
    Column::Four,
    Column::Blobs,
    Column::Texts,
    Column::Texts,
    Column::Blobs,
];

/// The columns of AssemblyRefProcessor (ECMA-335 II.22.7).
pub const ASSEMBLY_REF_PROCESSOR: [Column; 2] = [Column::Four, Column::Index(Table::AssemblyRef)];

/// The columns of AssemblyRefOs (ECMA-335 II.22.6).
pub const ASSEMBLY_REF_OS: [Column; 4] = [
    Column::Four,
    Column::Four,
    Column::Four,
    Column::Index(Table::AssemblyRef),
];

/// The columns of File (ECMA-335 II.22.19).
pub const FILE: [Column; 3] = [Column::Four, Column::Texts, Column::Blobs];

/// The columns of ExportedType (ECMA-335 II.22.14).
pub const EXPORTED_TYPE: [Column; 5] = [
    Column::Four,
    Column::Four,
    Column::Texts,
    Column::Texts,
    Column::Coded(CodedIndex::Implementation),
];

/// The columns of ManifestResource (ECMA-335 II.22.24).
pub const MANIFEST_RESOURCE: [Column; 4] = [
    Column::Four,
    Column::Four,
    Column::Texts,
    Column::Coded(CodedIndex::Implementation),
];

/// The columns of NestedClass (ECMA-335 II.22.32).
pub const NESTED_CLASS: [Column; 2] = [
    Column::Index(Table::TypeDef),
    Column::Index(Table::TypeDef),
];

/// The columns of GenericParam (ECMA-335 II.22.20).
pub const GENERIC_PARAM: [Column; 4] = [
    Column::Two,
    Column::Two,
    Column::Coded(CodedIndex::TypeOrMethodDef),
    Column::Texts,
];

/// The columns of MethodSpec (ECMA-335 II.22.29).
pub const METHOD_SPEC: [Column; 2] = [Column::Coded(CodedIndex::MethodDefOrRef), Column::Blobs];

/// The columns of GenericParamConstraint (ECMA-335 II.22.21).
pub const GENERIC_PARAM_CONSTRAINT: [Column; 2] = [
    Column::Index(Table::GenericParam),
    Column::Coded(CodedIndex::TypeDefOrRef),
];

/// The columns of a table, in the order in which its rows have them (ECMA-335 II.22).
pub fn columns(table: Table) -> &'static [Column]
    ensures { result.now ≡ columns_of table }
{
    match table {
        Table::Module => &MODULE,
        Table::TypeRef => &TYPE_REF,
        Table::TypeDef => &TYPE_DEF,
        Table::Field => &FIELD,
        Table::MethodDef => &METHOD_DEF,
        Table::Param => &PARAM,
        Table::InterfaceImpl => &INTERFACE_IMPL,
        Table::MemberRef => &MEMBER_REF,
        Table::Constant => &CONSTANT,
        Table::CustomAttribute => &CUSTOM_ATTRIBUTE,
        Table::FieldMarshal => &FIELD_MARSHAL,
        Table::DeclSecurity => &DECL_SECURITY,
        Table::ClassLayout => &CLASS_LAYOUT,
        Table::FieldLayout => &FIELD_LAYOUT,
        Table::StandAloneSig => &STAND_ALONE_SIG,
        Table::EventMap => &EVENT_MAP,
        Table::Event => &EVENT,
        Table::PropertyMap => &PROPERTY_MAP,
        Table::Property => &PROPERTY,
        Table::MethodSemantics => &METHOD_SEMANTICS,
        Table::MethodImpl => &METHOD_IMPL,
        Table::ModuleRef => &MODULE_REF,
        Table::TypeSpec => &TYPE_SPEC,
        Table::ImplMap => &IMPL_MAP,
        Table::FieldRva => &FIELD_RVA,
        Table::Assembly => &ASSEMBLY,
        Table::AssemblyProcessor => &ASSEMBLY_PROCESSOR,
        Table::AssemblyOs => &ASSEMBLY_OS,
        Table::AssemblyRef => &ASSEMBLY_REF,
        Table::AssemblyRefProcessor => &ASSEMBLY_REF_PROCESSOR,
        Table::AssemblyRefOs => &ASSEMBLY_REF_OS,
        Table::File => &FILE,
        Table::ExportedType => &EXPORTED_TYPE,
        Table::ManifestResource => &MANIFEST_RESOURCE,
        Table::NestedClass => &NESTED_CLASS,
        Table::GenericParam => &GENERIC_PARAM,
        Table::MethodSpec => &METHOD_SPEC,
        Table::GenericParamConstraint => &GENERIC_PARAM_CONSTRAINT,
    }
}
