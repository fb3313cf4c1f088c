//! The phase of names: what a set of files declares.
//!
//! `resolve` answers the declarations of the files with each use resolved, exactly where no name is broken, and else the first entry that is.
#![tactic(auto)]

mod abi;
mod attributes;
mod cases;
mod constructors;
mod duplicates;
mod faults;
mod files;
mod hit;
mod index;
mod items;
mod lookup;
mod marks;
mod members;
mod parts;
mod paths;
mod refuse;
mod resolved;
mod resolving;
mod scope;
mod scoped;
mod sort;
mod use_faults;
mod uses;
mod written;

pub use resolving::resolve;
