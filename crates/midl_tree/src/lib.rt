//! The trees of MIDL files: tokens as the grammar sees them, and a node for each production.
//!
//! A node is made of tokens, names and numbers that hold what lexing knows of them: a name is an identifier of at most 255 bytes, a number is below 2^64.
#![tactic(auto)]

mod ident;
mod kind;
mod nodes;
mod numeral;
mod terminal;

pub use ident::Ident;
pub use kind::Kind;
pub use nodes::{
    AttributeNode, CaseNode, ClassMemberNode, ClassNode, DeclNode, DelegateNode, EnumNode,
    FieldsNode, File, InterfaceNode, ItemNode, MemberNode, ParamNode, StructNode, TypeNode, Value,
};
pub use numeral::Numeral;
pub use terminal::Terminal;
