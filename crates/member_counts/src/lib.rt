//! Rules on members of one name: names that differ in ASCII case alone, and members of one name that aren't all
//! methods. Few members are compared in pairs, many by counts of names.
#![tactic(auto)]

mod member_case;
mod names;
mod overload_kind;
mod pairs;
mod tally;

pub use member_case::MemberCase;
pub use names::Lower;
pub use overload_kind::OverloadKind;
pub use pairs::{FEW, Relation, first_paired, same_but_for_case};
pub use tally::{Counted, count_in, tally_of};
