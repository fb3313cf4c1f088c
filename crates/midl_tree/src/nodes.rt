//! The nodes of a file: one kind for each production of the grammar.

use crate::ident::Ident;
use crate::numeral::Numeral;
use crate::terminal::Terminal;
use wr_base::Base;

/// A number behind `=`, and whether it is negated.
#[derive(Debug, Drop)]
pub struct Value {
    pub negated: bool,
    pub number: Numeral,
}

/// A case of an enum, with its value where one is written.
#[derive(Debug, Drop)]
pub struct CaseNode {
    pub name: Ident,
    pub value: Option<Value>,
}

/// An enum.
#[derive(Debug, Drop)]
pub struct EnumNode {
    pub name: Ident,
    pub cases: Vec<CaseNode>,
}

/// A type's use: a fundamental type, or a dotted name with its arguments.
#[derive(Debug, Drop)]
pub enum TypeNode {
    Base(Base),
    Named(Vec<Ident>, Vec<TypeNode>),
}

/// An attribute, by its word.
#[derive(Debug, Drop)]
pub enum AttributeNode {
    Uuid(Terminal, Terminal),
    Version(Terminal, Numeral),
    Flags(Terminal),
    DefaultInterface(Terminal),
}

/// Fields of one type.
#[derive(Debug, Drop)]
pub struct FieldsNode {
    pub kind: TypeNode,
    pub names: Vec<Ident>,
}

#[derive(Debug, Drop)]
pub struct StructNode {
    pub name: Ident,
    pub fields: Vec<FieldsNode>,
}

#[derive(Debug, Drop)]
pub struct ParamNode {
    pub out: bool,
    pub kind: TypeNode,
    pub name: Ident,
}

/// A delegate, with no type where it returns nothing.
#[derive(Debug, Drop)]
pub struct DelegateNode {
    pub outcome: Option<TypeNode>,
    pub name: Ident,
    pub params: Vec<ParamNode>,
}

#[derive(Debug, Drop)]
pub enum MemberNode {
    /// A method, with no type where it returns nothing.
    Method(Option<TypeNode>, Ident, Vec<ParamNode>),
    Event(TypeNode, Ident),
    /// Properties of one type without accessors.
    Properties(TypeNode, Vec<Ident>),
    /// A property with accessors, and whether it has a set.
    Property(TypeNode, Ident, bool),
}

#[derive(Debug, Drop)]
pub struct InterfaceNode {
    pub name: Ident,
    pub required: Vec<TypeNode>,
    pub members: Vec<MemberNode>,
}

#[derive(Debug, Drop)]
pub enum ClassMemberNode {
    /// A member, and whether it is static.
    Member(bool, MemberNode),
    Constructor(Ident, Vec<ParamNode>),
}

#[derive(Debug, Drop)]
pub struct ClassNode {
    pub fixed: bool,
    pub name: Ident,
    pub bases: Vec<TypeNode>,
    pub members: Vec<ClassMemberNode>,
}

#[derive(Debug, Drop)]
pub enum DeclNode {
    Enum(EnumNode),
    Struct(StructNode),
    Delegate(DelegateNode),
    Interface(InterfaceNode),
    Class(ClassNode),
}

#[derive(Debug, Drop)]
pub enum ItemNode {
    Namespace(Vec<Ident>, Vec<ItemNode>),
    /// A declaration behind its groups of attributes.
    Declared(Vec<Vec<AttributeNode>>, DeclNode),
}

/// A file: its number in its set, its imports, and its namespaces.
#[derive(Debug, Drop)]
pub struct File {
    pub number: u32,
    pub imports: Vec<Vec<Terminal>>,
    pub items: Vec<ItemNode>,
}
