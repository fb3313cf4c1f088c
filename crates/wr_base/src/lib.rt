//! The types of declarations that the tools speak of: names, type uses, the five kinds of declaration, sets of them in
//! order, the codes of refusals, places, and ids by text.
#![tactic(auto)]

mod class_lists;
mod code;
mod copies;
mod declaration;
mod full_name;
mod ids;
mod laws;
mod listed;
mod lower;
mod places;
mod same;
mod same_declaration;
mod sets;
mod type_use;
mod types;

pub use code::{Code, Refusal};
pub use declaration::{
    Case, Cases, Declaration, Field, Fields, FullNames, Member, Members, Param, Params, Signature,
};
pub use full_name::{FullName, tests_identifier, tests_short_name, tests_short_part};
pub use ids::{Ids, UseId};
pub use laws::{told_by_trees, words_of_bases};
pub use listed::Listed;
pub use lower::lowered;
pub use places::{DeclPlaces, PlaceList, PlacedTypes, Places};
pub use ranked::{Memory, Name, Place, Rank, Stop};
pub use same::Same;
pub use type_use::{Base, TypeUse, Uses, copy_uses};
pub use types::Types;
