//! A file's tree as a text that is short enough to be written by hand.

use crate::said::push_all;
use midl_tree::{
    AttributeNode, CaseNode, ClassMemberNode, ClassNode, DeclNode, DelegateNode, EnumNode,
    FieldsNode, File, Ident, InterfaceNode, ItemNode, MemberNode, ParamNode, StructNode, Terminal,
    TypeNode, Value,
};
use std::alloc::AllocError;
use wr_base::Base;

/// Idents, with a text between each two.
fn idents(out: &mut String, parts: &[Ident], between: &str) -> Result<(), AllocError> {
    let mut is_first = true;
    for part in parts {
        if !is_first {
            out.push_str(between)?;
        }
        is_first = false;
        out.push_str(part.as_str())?;
    }
    Ok(())
}

fn terminals(out: &mut String, parts: &[Terminal]) -> Result<(), AllocError> {
    for part in parts {
        out.push_str(part.as_str())?;
    }
    Ok(())
}

fn base_word(base: &Base) -> &'static str {
    match base {
        Base::Boolean => "Boolean",
        Base::Char => "Char",
        Base::U8 => "UInt8",
        Base::I16 => "Int16",
        Base::U16 => "UInt16",
        Base::I32 => "Int32",
        Base::U32 => "UInt32",
        Base::I64 => "Int64",
        Base::U64 => "UInt64",
        Base::Text => "String",
        Base::Guid => "Guid",
        Base::Object => "Object",
    }
}

/// `Int32`, or `A.B<Int32,C>`.
fn type_use(out: &mut String, node: &TypeNode) -> Result<(), AllocError> {
    match node {
        TypeNode::Base(base) => out.push_str(base_word(base))?,
        TypeNode::Named(path, types) => {
            idents(out, path, ".")?;
            if types.is_empty() {
                return Ok(());
            }
            out.push_str("<")?;
            for argument in types {
                type_use(out, argument)?;
                out.push_str(",")?;
            }
            out.push_str(">")?;
        }
    }
    Ok(())
}

fn type_uses(out: &mut String, types: &[TypeNode]) -> Result<(), AllocError> {
    for node in types {
        out.push_str(":")?;
        type_use(out, node)?;
    }
    Ok(())
}

fn outcome(out: &mut String, node: &Option<TypeNode>) -> Result<(), AllocError> {
    match node {
        None => out.push_str("void")?,
        Some(node) => type_use(out, node)?,
    }
    out.push_str(" ")
}

fn version(out: &mut String, word: &str, number: u64) -> Result<(), AllocError> {
    let text = if number == 7 { " 7;" } else { " other;" };
    push_all(out, &[word, text])
}

fn attribute(out: &mut String, node: &AttributeNode) -> Result<(), AllocError> {
    match node {
        AttributeNode::Uuid(word, id) => push_all(out, &[word.as_str(), " ", id.as_str(), ";"]),
        AttributeNode::Version(word, number) => version(out, word.as_str(), number.value()),
        AttributeNode::Flags(word) => push_all(out, &[word.as_str(), ";"]),
        AttributeNode::DefaultInterface(word) => push_all(out, &[word.as_str(), ";"]),
    }
}

fn group(out: &mut String, nodes: &[AttributeNode]) -> Result<(), AllocError> {
    out.push_str("[")?;
    for node in nodes {
        attribute(out, node)?;
    }
    out.push_str("]")
}

fn value(out: &mut String, value: &Value) -> Result<(), AllocError> {
    let sign = if value.negated { "=-" } else { "=" };
    let number = if value.number.value() == 5 {
        "5"
    } else {
        "other"
    };
    push_all(out, &[sign, number])
}

fn case(out: &mut String, node: &CaseNode) -> Result<(), AllocError> {
    out.push_str(node.name.as_str())?;
    if let Some(stated) = &node.value {
        value(out, stated)?;
    }
    out.push_str(",")
}

/// `enum E(A,B=5,)`.
fn enumeration(out: &mut String, node: &EnumNode) -> Result<(), AllocError> {
    push_all(out, &["enum ", node.name.as_str(), "("])?;
    for part in &node.cases {
        case(out, part)?;
    }
    out.push_str(")")
}

fn properties(out: &mut String, kind: &TypeNode, names: &[Ident]) -> Result<(), AllocError> {
    type_use(out, kind)?;
    out.push_str(" ")?;
    idents(out, names, ",")
}

fn field_list(out: &mut String, fields: &[FieldsNode]) -> Result<(), AllocError> {
    for one in fields {
        properties(out, &one.kind, &one.names)?;
        out.push_str(";")?;
    }
    Ok(())
}

/// `struct S(Int32 X,Y;)`.
fn structure(out: &mut String, node: &StructNode) -> Result<(), AllocError> {
    push_all(out, &["struct ", node.name.as_str(), "("])?;
    field_list(out, &node.fields)?;
    out.push_str(")")
}

fn param(out: &mut String, node: &ParamNode) -> Result<(), AllocError> {
    out.push_str(if node.out { "out " } else { "" })?;
    type_use(out, &node.kind)?;
    push_all(out, &[" ", node.name.as_str(), ","])
}

/// `(out Int32 a,)`.
fn params(out: &mut String, nodes: &[ParamNode]) -> Result<(), AllocError> {
    out.push_str("(")?;
    for node in nodes {
        param(out, node)?;
    }
    out.push_str(")")
}

/// `void M(Int32 a,)`.
fn method(
    out: &mut String,
    returned: &Option<TypeNode>,
    name: &str,
    nodes: &[ParamNode],
) -> Result<(), AllocError> {
    outcome(out, returned)?;
    out.push_str(name)?;
    params(out, nodes)
}

/// `delegate void D(Int32 a,)`.
fn delegate(out: &mut String, node: &DelegateNode) -> Result<(), AllocError> {
    out.push_str("delegate ")?;
    method(out, &node.outcome, node.name.as_str(), &node.params)
}

fn event(out: &mut String, kind: &TypeNode, name: &str) -> Result<(), AllocError> {
    out.push_str("event ")?;
    type_use(out, kind)?;
    push_all(out, &[" ", name])
}

fn property(out: &mut String, kind: &TypeNode, name: &str, put: bool) -> Result<(), AllocError> {
    type_use(out, kind)?;
    push_all(out, &[" ", name, if put { "{get set}" } else { "{get}" }])
}

fn one_member(out: &mut String, node: &MemberNode) -> Result<(), AllocError> {
    match node {
        MemberNode::Method(returned, name, nodes) => method(out, returned, name.as_str(), nodes),
        MemberNode::Event(kind, name) => event(out, kind, name.as_str()),
        MemberNode::Properties(kind, names) => properties(out, kind, names),
        MemberNode::Property(kind, name, put) => property(out, kind, name.as_str(), *put),
    }
}

/// `void M();`, `event T E;`, `Int32 A,B;` or `Int32 A{get set};`.
fn member(out: &mut String, node: &MemberNode) -> Result<(), AllocError> {
    one_member(out, node)?;
    out.push_str(";")
}

/// `interface I:R(void M();)`.
fn interface(out: &mut String, node: &InterfaceNode) -> Result<(), AllocError> {
    push_all(out, &["interface ", node.name.as_str()])?;
    type_uses(out, &node.required)?;
    out.push_str("(")?;
    for part in &node.members {
        member(out, part)?;
    }
    out.push_str(")")
}

fn constructor(out: &mut String, name: &str, nodes: &[ParamNode]) -> Result<(), AllocError> {
    push_all(out, &["new ", name])?;
    params(out, nodes)?;
    out.push_str(";")
}

fn class_member(out: &mut String, node: &ClassMemberNode) -> Result<(), AllocError> {
    match node {
        ClassMemberNode::Member(fixed, part) => {
            out.push_str(if *fixed { "static " } else { "" })?;
            member(out, part)
        }
        ClassMemberNode::Constructor(name, nodes) => constructor(out, name.as_str(), nodes),
    }
}

/// `static class C:I(new C();)`.
fn class(out: &mut String, node: &ClassNode) -> Result<(), AllocError> {
    let kind = if node.fixed {
        "static class "
    } else {
        "class "
    };
    push_all(out, &[kind, node.name.as_str()])?;
    type_uses(out, &node.bases)?;
    out.push_str("(")?;
    for part in &node.members {
        class_member(out, part)?;
    }
    out.push_str(")")
}

fn declaration(out: &mut String, node: &DeclNode) -> Result<(), AllocError> {
    match node {
        DeclNode::Enum(node) => enumeration(out, node),
        DeclNode::Struct(node) => structure(out, node),
        DeclNode::Delegate(node) => delegate(out, node),
        DeclNode::Interface(node) => interface(out, node),
        DeclNode::Class(node) => class(out, node),
    }
}

fn groups(out: &mut String, list: &[Vec<AttributeNode>]) -> Result<(), AllocError> {
    for nodes in list {
        group(out, nodes)?;
    }
    Ok(())
}

fn declared(
    out: &mut String,
    list: &[Vec<AttributeNode>],
    tree: &DeclNode,
) -> Result<(), AllocError> {
    groups(out, list)?;
    declaration(out, tree)
}

/// `A.B{..}`, or a declaration behind its groups of attributes.
fn item(out: &mut String, node: &ItemNode) -> Result<(), AllocError> {
    match node {
        ItemNode::Namespace(name, items) => {
            idents(out, name, ".")?;
            out.push_str("{")?;
            for inner in items {
                item(out, inner)?;
            }
            out.push_str("}")?;
        }
        ItemNode::Declared(list, tree) => declared(out, list, tree)?,
    }
    Ok(())
}

fn import(out: &mut String, files: &[Terminal]) -> Result<(), AllocError> {
    out.push_str("import ")?;
    terminals(out, files)?;
    out.push_str(";")
}

/// The file's tree: `import "a""b";`, and then its namespaces.
pub fn file_text(out: &mut String, file: &File) -> Result<(), AllocError> {
    for files in &file.imports {
        import(out, files)?;
    }
    for node in &file.items {
        item(out, node)?;
    }
    Ok(())
}
