//! The lists of a class: what it has, its factories and its statics.

ghost use Rattle.std.specs.Prelude.{◌≡◌, IfOk};
ghost use Rattle.wr_base.specs.declared.declaration.Declaration.TheVariants.{Class};
ghost use Rattle.wr_base.specs.Sets.{set_by};
ghost use Rattle.wr_base.specs.Uses.{text_of};
ghost use Rattle.wr_base.specs.Normal.{names_in_order};

use crate::sets::{names_by_bytes, uses_in_order};
use crate::{Declaration, FullName, FullNames, TypeUse, Uses, copy_uses};
use std::alloc::{AllocError, Global};

/// The three lists, owned together.
#[derive(Drop)]
pub(crate) struct ClassLists {
    pub(crate) has: Uses,
    pub(crate) factories: FullNames,
    pub(crate) statics: FullNames,
}

impl ClassLists {
    /// Copies of three lists.
    pub(crate) fn copy(
        alloc: Global,
        has: &Uses,
        factories: &FullNames,
        statics: &FullNames,
    ) -> Result<ClassLists, AllocError>
        ensures { IfOk result (λ lists. lists ≡ record { has = has.now; factories = factories.now; statics = statics.now }) }
    {
        let has = copy_uses(alloc, has)?;
        let factories = factories.clone()?;
        let statics = statics.clone()?;
        Ok(ClassLists {
            has,
            factories,
            statics,
        })
    }

    /// Each list in the order of texts, each text once.
    pub(crate) fn in_order(self, alloc: Global) -> Result<ClassLists, AllocError>
        ensures { IfOk result (λ lists. lists ≡ record { has = set_by text_of self.has; factories = names_in_order self.factories; statics = names_in_order self.statics }) }
    {
        let ClassLists {
            has,
            factories,
            statics,
        } = self;
        let has = uses_in_order(alloc, has)?;
        let factories = names_by_bytes(alloc, factories)?;
        let statics = names_by_bytes(alloc, statics)?;
        Ok(ClassLists {
            has,
            factories,
            statics,
        })
    }

    /// The class of these lists.
    pub(crate) fn into_class(
        self,
        name: FullName,
        version: u32,
        fixed: bool,
        default: Option<TypeUse>,
        direct: bool,
    ) -> Declaration
        ensures { result ≡ Class name version fixed default self.has direct self.factories self.statics }
    {
        let ClassLists {
            has,
            factories,
            statics,
        } = self;
        Declaration::Class {
            name,
            version,
            fixed,
            default,
            has,
            direct,
            factories,
            statics,
        }
    }
}
