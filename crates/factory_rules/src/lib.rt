//! The rules on the factories of a class: methods that make it, each with a number of parameters of its own (C++/WinRT, constructors).
#![tactic(auto)]

mod arity;
mod members;
mod shape;

pub use arity::ConstructorArity;
pub use shape::FactoryShape;
