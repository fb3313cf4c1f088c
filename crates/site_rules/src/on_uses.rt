//! The rules on the uses of one declaration.

use std::alloc::{AllocError, Global};
use use_rules::{
    BothOnUses, EventDelegate, EventType, ExclusiveUse, FieldType, InterfaceWanted,
    ReferenceArgument, SiteUses, Unresolved, UseKind, UsesRule, WrongKind,
};
use wr_base::{Refusal, Types};

/// The rules on uses at any depth.
#[derive(Clone, Copy, Debug)]
pub(crate) struct AtDepth<'t> {
    pub(crate) types: &'t Types,
}

impl<'t> UsesRule for AtDepth<'t> {
    ghost use Rattle.site_rules.specs.SiteRules.{Depths};

    ghost broken = { λ rules. Depths rules.types.now };

    fn first_of(&self, alloc: Global, gathered: &SiteUses) -> Result<Option<Refusal>, AllocError> {
        let types = self.types;
        let rules = BothOnUses {
            first: Unresolved { types },
            second: BothOnUses {
                first: WrongKind { types },
                second: BothOnUses {
                    first: ReferenceArgument { types },
                    second: BothOnUses {
                        first: UseKind { types },
                        second: ExclusiveUse { types },
                    },
                },
            },
        };
        rules.first_of(alloc, gathered)
    }
}

/// The rules on uses as they stand.
#[derive(Clone, Copy, Debug)]
pub(crate) struct AsStanding<'t> {
    pub(crate) types: &'t Types,
}

impl<'t> UsesRule for AsStanding<'t> {
    ghost use Rattle.site_rules.specs.SiteRules.{Stands};

    ghost broken = { λ rules. Stands rules.types.now };

    fn first_of(&self, alloc: Global, gathered: &SiteUses) -> Result<Option<Refusal>, AllocError> {
        let types = self.types;
        let rules = BothOnUses {
            first: FieldType { types },
            second: BothOnUses {
                first: EventType { types },
                second: BothOnUses {
                    first: EventDelegate { types },
                    second: InterfaceWanted { types },
                },
            },
        };
        rules.first_of(alloc, gathered)
    }
}
