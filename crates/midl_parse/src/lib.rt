//! MIDL text: the grammar's productions over tokens, read to trees.
//!
//! `parse` reads a file's tokens: it answers their tree exactly where they have one, and else refuses with the first token at which no file goes on.
#![tactic(auto)]

mod attributes;
mod classes;
mod enums;
mod files;
mod imports;
mod items;
mod lists;
mod members;
mod parsing;
mod refusal;
mod signatures;
mod structs;
mod types;
mod unique;

pub use files::parse;
pub use unique::{one_tree, tree_or_fault};
