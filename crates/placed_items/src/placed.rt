use wr_base::{DeclPlaces, Declaration, FullName, Listed, Members, Signature, Uses};

/// Constructors' parameters, in order; a constructor has no result.
pub type Signatures = Listed<Signature>;

/// A class as it is written, without the interfaces that are made from it.
#[derive(Debug, Drop)]
pub struct WrittenClass {
    pub name: FullName,
    pub version: u32,
    /// Whether it is a `static runtimeclass`.
    pub fixed: bool,
    /// Whether `[default_interface]` stands before it.
    pub marked: bool,
    /// The interfaces that it lists, as they are written.
    pub listed: Uses,
    pub constructors: Signatures,
    /// The instance members.
    pub members: Members,
    pub statics: Members,
}

/// A declaration with its uses resolved.
#[derive(Debug, Drop)]
pub enum Written {
    Done(Declaration),
    Class(WrittenClass),
}

/// A declaration, the id of its `[uuid]`, and where it and its parts stand. An interface's and a delegate's own id is that id, or 0 without one. The parts of a class are its members, statics and constructors, in this order.
#[derive(Debug, Drop)]
pub struct PlacedItem {
    pub item: Written,
    pub id: Option<u128>,
    pub places: DeclPlaces,
}

/// The declarations of a set of files, in the order of the source.
pub type Placed = Listed<PlacedItem>;
