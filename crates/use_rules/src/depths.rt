//! The rules on uses at any depth, and within instances.

use crate::exclusive::{is_class_here, lacks_default, owner_of};
use crate::gathered::{SiteUses, UsesRule};
use crate::passes::{EachInside, EachUse, EachWithin, UsedRule, UsedTest, first_use};
use crate::questions::{
    is_by_name, is_listed, is_passed, refers_to_object, unresolved, wrong_kind,
};
use crate::types_used::used;
use placed_sites::refuse_if;
use ranked::earlier;
use site_uses::{Shape, UseTest, Used, any_within};
use std::alloc::{AllocError, Global};
use wr_base::{Code, Declaration, Refusal, Types};

/// Refuses uses of names that mean no type of so many arguments, at any depth.
#[derive(Clone, Copy, Debug)]
pub struct Unresolved<'t> {
    pub types: &'t Types,
}

impl<'t> UsesRule for Unresolved<'t> {
    ghost use Rattle.wr_rules.specs.UseRules.{IsUnresolved};

    ghost broken = { λ rule. IsUnresolved rule.types.now };

    fn first_of(&self, alloc: Global, gathered: &SiteUses) -> Result<Option<Refusal>, AllocError> {
        let rule = EachWithin {
            test: *self,
            code: Code::Unresolved,
        };
        first_use(alloc, &rule, gathered)
    }
}

impl<'t> UseTest for Unresolved<'t> {
    ghost use Rattle.wr_rules.specs.UseRules.{unresolved};

    ghost passes = { λ rule. unresolved rule.types.now };

    fn passes(&self, shape: &Shape) -> bool {
        unresolved(self.types, shape)
    }
}

/// Refuses `IReference` of an object, at any depth.
#[derive(Clone, Copy, Debug)]
pub struct ReferenceArgument<'t> {
    pub types: &'t Types,
}

impl<'t> UsesRule for ReferenceArgument<'t> {
    ghost use Rattle.wr_rules.specs.UseRules.{IsReferenceArgument};

    ghost broken = { λ rule. IsReferenceArgument rule.types.now };

    fn first_of(&self, alloc: Global, gathered: &SiteUses) -> Result<Option<Refusal>, AllocError> {
        let rule = EachWithin {
            test: *self,
            code: Code::ReferenceArgument,
        };
        first_use(alloc, &rule, gathered)
    }
}

impl<'t> UseTest for ReferenceArgument<'t> {
    ghost use Rattle.wr_rules.specs.UseRules.{refers_to_object};

    ghost passes = { λ rule. refers_to_object rule.types.now };

    fn passes(&self, shape: &Shape) -> bool {
        refers_to_object(self.types, shape)
    }
}
// A name that has another kind than its use says, besides the names of factories and statics.
#[derive(Drop)]
struct OtherKind<'t> {
    types: &'t Types,
    by_name: bool,
}

impl<'t> UseTest for OtherKind<'t> {
    ghost use Rattle.std.specs.Prelude.{◌&&◌, not};
    ghost use Rattle.wr_rules.specs.UseRules.{wrong_kind};

    ghost passes = { λ test v. not test.by_name && wrong_kind test.types.now v };

    fn passes(&self, shape: &Shape) -> bool {
        !self.by_name && wrong_kind(self.types, shape)
    }
}

/// Refuses values that name no enum or struct, and references that do, at any depth.
#[derive(Clone, Copy, Debug)]
pub struct WrongKind<'t> {
    pub types: &'t Types,
}

impl<'t> UsedRule for WrongKind<'t> {
    ghost use Rattle.std.specs.Prelude.{◌&&◌, not};
    ghost use Rattle.ranked.specs.First.{Among};
    ghost use Rattle.wr_base.specs.Trees.{within};
    ghost use Rattle.wr_base.specs.declared.code.Code.TheVariants as codes;
    ghost use Rattle.wr_rules.specs.Sites.{If};
    ghost use Rattle.wr_rules.specs.UseRules.{is_by_name, wrong_kind};

    ghost broken = { λ rule u. Among (within u.use_) (λ v. If (not (is_by_name u.role) && wrong_kind rule.types.now v) codes.WrongKind u.spot) };

    fn first_at(&self, alloc: Global, used: &Used) -> Result<Option<Refusal>, AllocError> {
        let test = OtherKind {
            types: self.types,
            by_name: is_by_name(used.role),
        };
        refuse_if(
            alloc,
            &used.spot,
            any_within(&test, &used.shape),
            Code::WrongKind,
        )
    }
}

impl<'t> UsesRule for WrongKind<'t> {
    ghost use Rattle.wr_rules.specs.UseRules.{IsWrongKind};

    ghost broken = { λ rule. IsWrongKind rule.types.now };

    fn first_of(&self, alloc: Global, gathered: &SiteUses) -> Result<Option<Refusal>, AllocError> {
        first_use(alloc, self, gathered)
    }
}

/// Refuses classes without default as types that are passed, and as arguments.
#[derive(Clone, Copy, Debug)]
pub struct UseKind<'t> {
    pub types: &'t Types,
}

impl<'t> UseTest for UseKind<'t> {
    ghost use Rattle.wr_rules.specs.UseRules.{is_bare};

    ghost passes = { λ rule. is_bare rule.types.now };

    fn passes(&self, shape: &Shape) -> bool {
        lacks_default(&used(self.types, shape))
    }
}

impl<'t> UsedTest for UseKind<'t> {
    ghost use Rattle.std.specs.Prelude.{◌&&◌};
    ghost use Rattle.wr_rules.specs.UseRules.{is_bare, is_passed};

    ghost meets = { λ rule u. is_passed u.role && is_bare rule.types.now u.use_ };

    fn meets(&self, used: &Used) -> bool {
        is_passed(used.role) && self.passes(&used.shape)
    }
}

impl<'t> UsesRule for UseKind<'t> {
    ghost use Rattle.wr_rules.specs.UseRules.{IsUseKind};

    ghost broken = { λ rule. IsUseKind rule.types.now };

    fn first_of(&self, alloc: Global, gathered: &SiteUses) -> Result<Option<Refusal>, AllocError> {
        let passed = EachUse {
            test: *self,
            code: Code::UseKind,
        };
        let inside = EachInside {
            test: *self,
            code: Code::UseKind,
        };
        let first = first_use(alloc, &passed, gathered)?;
        let second = first_use(alloc, &inside, gathered)?;
        Ok(earlier(first, second))
    }
}

// An interface with an owner, used elsewhere than in the lists of that class.
#[derive(Drop)]
struct UsedElsewhere<'t> {
    types: &'t Types,
    declaration: &'t Declaration,
}

impl<'t> UsedTest for UsedElsewhere<'t> {
    ghost use Rattle.std.specs.Prelude.{◌&&◌};
    ghost use Rattle.wr_rules.specs.Kinds.{used};
    ghost use Rattle.wr_rules.specs.UseRules.{is_class_here, is_listed, owned_elsewhere};

    ghost meets = { λ test u. owned_elsewhere test.types.now (λ owner. is_listed u.role && is_class_here test.types.now test.declaration.now owner) (used test.types.now u.use_) };

    fn meets(&self, used: &Used) -> bool {
        match owner_of(crate::types_used::used(self.types, &used.shape)) {
            None => false,
            Some(owner) => !(is_listed(used.role) && is_class_here(self.declaration, owner)),
        }
    }
}

/// Refuses interfaces that have an owner elsewhere than in the lists of that class.
#[derive(Clone, Copy, Debug)]
pub struct ExclusiveUse<'t> {
    pub types: &'t Types,
}

impl<'t> UseTest for ExclusiveUse<'t> {
    ghost use Rattle.std.specs.Prelude.{false};
    ghost use Rattle.wr_rules.specs.Kinds.{used};
    ghost use Rattle.wr_rules.specs.UseRules.{owned_elsewhere};

    ghost passes = { λ rule v. owned_elsewhere rule.types.now (λ owner. false) (used rule.types.now v) };

    fn passes(&self, shape: &Shape) -> bool {
        owner_of(used(self.types, shape)).is_some()
    }
}

impl<'t> UsesRule for ExclusiveUse<'t> {
    ghost use Rattle.wr_rules.specs.UseRules.{IsExclusiveUse};

    ghost broken = { λ rule. IsExclusiveUse rule.types.now };

    fn first_of(&self, alloc: Global, gathered: &SiteUses) -> Result<Option<Refusal>, AllocError> {
        let elsewhere = EachUse {
            test: UsedElsewhere {
                types: self.types,
                declaration: gathered.declaration(),
            },
            code: Code::ExclusiveUse,
        };
        let inside = EachInside {
            test: *self,
            code: Code::ExclusiveUse,
        };
        let first = first_use(alloc, &elsewhere, gathered)?;
        let second = first_use(alloc, &inside, gathered)?;
        Ok(earlier(first, second))
    }
}
