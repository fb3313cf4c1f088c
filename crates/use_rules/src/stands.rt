//! The rules on uses as they stand.

use crate::exclusive::gives_back;
use crate::gathered::{SiteUses, UsesRule};
use crate::kinds::{names_delegate, names_interface};
use crate::passes::{EachUse, UsedTest, first_use};
use crate::questions::{is_event, is_field, is_listed, no_field_type};
use site_uses::Used;
use std::alloc::{AllocError, Global};
use wr_base::{Code, Refusal, Types};

/// Refuses fields of another type than a fundamental one, an enum or a struct.
#[derive(Clone, Copy, Debug)]
pub struct FieldType<'t> {
    pub types: &'t Types,
}

impl<'t> UsesRule for FieldType<'t> {
    ghost use Rattle.wr_rules.specs.UseRules.{IsFieldType};

    ghost broken = { λ rule. IsFieldType rule.types.now };

    fn first_of(&self, alloc: Global, gathered: &SiteUses) -> Result<Option<Refusal>, AllocError> {
        let rule = EachUse {
            test: *self,
            code: Code::FieldType,
        };
        first_use(alloc, &rule, gathered)
    }
}

impl<'t> UsedTest for FieldType<'t> {
    ghost use Rattle.std.specs.Prelude.{◌&&◌, not};
    ghost use Rattle.wr_rules.specs.UseRules.{is_field, no_field_type};

    ghost meets = { λ rule u. is_field u.role && no_field_type rule.types.now u.use_ };

    fn meets(&self, used: &Used) -> bool {
        is_field(used.role) && no_field_type(self.types, &used.shape)
    }
}

/// Refuses events of another type than a delegate.
#[derive(Clone, Copy, Debug)]
pub struct EventType<'t> {
    pub types: &'t Types,
}

impl<'t> UsesRule for EventType<'t> {
    ghost use Rattle.wr_rules.specs.UseRules.{IsEventType};

    ghost broken = { λ rule. IsEventType rule.types.now };

    fn first_of(&self, alloc: Global, gathered: &SiteUses) -> Result<Option<Refusal>, AllocError> {
        let rule = EachUse {
            test: *self,
            code: Code::EventType,
        };
        first_use(alloc, &rule, gathered)
    }
}

impl<'t> UsedTest for EventType<'t> {
    ghost use Rattle.std.specs.Prelude.{◌&&◌, not};
    ghost use Rattle.wr_rules.specs.Kinds.{kind_used};
    ghost use Rattle.wr_rules.specs.UseRules.{is_event, has_kind, is_delegate};

    ghost meets = { λ rule u. is_event u.role && not (has_kind is_delegate (kind_used rule.types.now u.use_)) };

    fn meets(&self, used: &Used) -> bool {
        is_event(used.role) && !names_delegate(self.types, &used.shape)
    }
}

/// Refuses events of a delegate that gives something back.
#[derive(Clone, Copy, Debug)]
pub struct EventDelegate<'t> {
    pub types: &'t Types,
}

impl<'t> UsesRule for EventDelegate<'t> {
    ghost use Rattle.wr_rules.specs.UseRules.{IsEventDelegate};

    ghost broken = { λ rule. IsEventDelegate rule.types.now };

    fn first_of(&self, alloc: Global, gathered: &SiteUses) -> Result<Option<Refusal>, AllocError> {
        let rule = EachUse {
            test: *self,
            code: Code::EventDelegate,
        };
        first_use(alloc, &rule, gathered)
    }
}

impl<'t> UsedTest for EventDelegate<'t> {
    ghost use Rattle.std.specs.Prelude.{◌&&◌, not};
    ghost use Rattle.wr_rules.specs.Kinds.{used};
    ghost use Rattle.wr_rules.specs.UseRules.{is_event, gives_back};

    ghost meets = { λ rule u. is_event u.role && gives_back rule.types.now (used rule.types.now u.use_) };

    fn meets(&self, used: &Used) -> bool {
        is_event(used.role) && gives_back(&crate::types_used::used(self.types, &used.shape))
    }
}

/// Refuses what is listed and is no interface.
#[derive(Clone, Copy, Debug)]
pub struct InterfaceWanted<'t> {
    pub types: &'t Types,
}

impl<'t> UsesRule for InterfaceWanted<'t> {
    ghost use Rattle.wr_rules.specs.UseRules.{IsInterfaceWanted};

    ghost broken = { λ rule. IsInterfaceWanted rule.types.now };

    fn first_of(&self, alloc: Global, gathered: &SiteUses) -> Result<Option<Refusal>, AllocError> {
        let rule = EachUse {
            test: *self,
            code: Code::InterfaceWanted,
        };
        first_use(alloc, &rule, gathered)
    }
}

impl<'t> UsedTest for InterfaceWanted<'t> {
    ghost use Rattle.std.specs.Prelude.{◌&&◌, not};
    ghost use Rattle.wr_rules.specs.Kinds.{kind_used};
    ghost use Rattle.wr_rules.specs.UseRules.{is_listed, has_kind, is_interface};

    ghost meets = { λ rule u. is_listed u.role && not (has_kind is_interface (kind_used rule.types.now u.use_)) };

    fn meets(&self, used: &Used) -> bool {
        is_listed(used.role) && !names_interface(self.types, &used.shape)
    }
}
