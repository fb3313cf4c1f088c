//! What a column holds.

use crate::table::Table;

/// A coded index (ECMA-335 II.24.2.6): an index into one of several tables, which its low bits choose.
#[derive(Clone, Copy, Debug, PartialEq, Eq)]
pub enum CodedIndex {
    TypeDefOrRef,
    HasConstant,
    HasCustomAttribute,
    HasFieldMarshal,
    HasDeclSecurity,
    MemberRefParent,
    HasSemantics,
    MethodDefOrRef,
    MemberForwarded,
    Implementation,
    CustomAttributeType,
    ResolutionScope,
    TypeOrMethodDef,
}

/// What a column of a table holds (ECMA-335 II.22, II.24.2.6).
#[derive(Clone, Copy, Debug, PartialEq, Eq)]
pub enum Column {
    /// A number of one byte.
    One,
    /// A number of two bytes.
    Two,
    /// A number of four bytes.
    Four,
    /// An index into `#Strings`.
    Texts,
    /// An index into `#GUID`.
    Guids,
    /// An index into `#Blob`.
    Blobs,
    /// An index to a row of one table.
    Index(Table),
    /// An index to a row of one of several tables.
    Coded(CodedIndex),
}
