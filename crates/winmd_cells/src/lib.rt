//! What the rows of an image say (ECMA-335 II.22, II.24.2): any cell with its index followed, the list of rows that a row begins, and the
//! rows that lead to a row, each exactly as it is defined, or its fault where it stands.
#![tactic(auto)]

mod cells;
mod image;
mod indexes;
mod lists;
mod making;
mod named;
mod names;
mod offsets;
mod sizes;
mod starts;

pub use cells::{Value, has_flag};
pub use image::{Image, Places};
pub use indexes::{index, owned};
pub use making::places_of;
pub use named::{is_named, joined};
pub use names::{TypeName, identifier_of, path_of};
