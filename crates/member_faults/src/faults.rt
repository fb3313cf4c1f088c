//! The first broken entry of the rules on members of one name and on the members of factories.

ghost use Rattle.std.specs.Prelude.{IfOk};
ghost use Rattle.ranked.specs.First.{IsFirst};
ghost use Rattle.wr_rules.specs.Sites.{sites_of};
ghost use Rattle.member_faults.specs.MemberFaults.{MemberFaults};

use accessor_clash::AccessorClash;
use factory_rules::{ConstructorArity, FactoryShape};
use member_counts::{MemberCase, OverloadKind};
use placed_sites::{Both, first_in};
use std::alloc::{AllocError, Global};
use wr_base::{PlacedTypes, Refusal};

/// The first entry that one of five rules on one declaration breaks: members of one name that aren't all methods, names
/// that differ in case alone, names of members that are ABI names, and what factories of a class hold.
pub fn first_member_fault(
    alloc: Global,
    placed: &PlacedTypes,
) -> Result<Option<Refusal>, AllocError>
    ensures { IfOk result (IsFirst (MemberFaults placed.now.types (sites_of placed.now.types placed.now.places))) }
{
    let types = placed;
    let rules = Both {
        first: OverloadKind,
        second: Both {
            first: MemberCase,
            second: Both {
                first: AccessorClash,
                second: Both {
                    first: ConstructorArity { types },
                    second: FactoryShape { types },
                },
            },
        },
    };
    first_in(alloc, &rules, placed)
}
