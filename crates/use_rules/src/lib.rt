//! The nine rules on single uses, each on the uses of one declaration.
#![tactic(auto)]

mod depths;
mod exclusive;
mod gathered;
mod kinds;
mod passes;
mod questions;
mod stands;
mod types_used;

pub use depths::{ExclusiveUse, ReferenceArgument, Unresolved, UseKind, WrongKind};
pub use gathered::{BothOnUses, OnUses, SiteUses, UsesRule};
pub use stands::{EventDelegate, EventType, FieldType, InterfaceWanted};
