//! What a set of files declares once its uses are resolved: declarations and classes as they are written, each with its id and its places. Types alone, between the phase of names and what is made of classes.
#![tactic(auto)]

mod placed;

pub use placed::{Placed, PlacedItem, Signatures, Written, WrittenClass};
