//! Declarations where they stand.

ghost use Rattle.std.specs.Prelude.{◌≡◌, IfOk};

use std::alloc::AllocError;
use wr_base::{DeclPlaces, Declaration};

/// A declaration with the places of it and of its parts.
#[derive(Debug, Drop)]
pub struct PlacedDeclaration {
    pub declaration: Declaration,
    pub places: DeclPlaces,
}
