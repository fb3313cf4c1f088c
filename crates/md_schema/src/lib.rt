//! The tables of ECMA-335 metadata: their columns, how wide those are, what coded indices name, and the faults of an image.
#![tactic(auto)]

mod choice;
mod coded;
mod column;
mod faults;
mod indices;
mod laws;
mod layout;
mod row;
mod sizes;
mod table;

pub use coded::{BadTag, Coded};
pub use column::{CodedIndex, Column};
pub use faults::{ImageFault, ImageKind};
pub use indices::{
    CUSTOM_ATTRIBUTE_TYPE, HAS_CONSTANT, HAS_CUSTOM_ATTRIBUTE, HAS_DECL_SECURITY,
    HAS_FIELD_MARSHAL, HAS_SEMANTICS, IMPLEMENTATION, MEMBER_FORWARDED, MEMBER_REF_PARENT,
    METHOD_DEF_OR_REF, RESOLUTION_SCOPE, TYPE_DEF_OR_REF, TYPE_OR_METHOD_DEF, bits, choices,
    decode, encode,
};
pub use laws::{decoded_is_encoded, encoded_is_decoded, written_is_read};
pub use layout::{
    ASSEMBLY, ASSEMBLY_OS, ASSEMBLY_PROCESSOR, ASSEMBLY_REF, ASSEMBLY_REF_OS,
    ASSEMBLY_REF_PROCESSOR, CLASS_LAYOUT, CONSTANT, CUSTOM_ATTRIBUTE, DECL_SECURITY, EVENT,
    EVENT_MAP, EXPORTED_TYPE, FIELD, FIELD_LAYOUT, FIELD_MARSHAL, FIELD_RVA, FILE, GENERIC_PARAM,
    GENERIC_PARAM_CONSTRAINT, IMPL_MAP, INTERFACE_IMPL, MANIFEST_RESOURCE, MEMBER_REF, METHOD_DEF,
    METHOD_IMPL, METHOD_SEMANTICS, METHOD_SPEC, MODULE, MODULE_REF, NESTED_CLASS, PARAM, PROPERTY,
    PROPERTY_MAP, STAND_ALONE_SIG, TYPE_DEF, TYPE_REF, TYPE_SPEC, columns,
};
pub use row::Row;
pub use sizes::{Sizes, width};
pub use table::{TABLES, Table};
