//! Names, constructors and instances, taken one after the other.

ghost use Rattle.std.specs.Prelude.{◌≡◌, ◌∷◌, [], OnOk, map, string_bytes, true};
ghost use Rattle.wr_base.specs.Trees.{tree_of};
ghost use Rattle.winmd_lines.specs.Lines.{MadeBy};
ghost use Rattle.winmd_lines.specs.Makers.{maker_signature, maker_type};
ghost use Rattle.winmd_lines.specs.UsedNames.{names_in_signature};
ghost use Rattle.winmd_uses.specs.Makers.{maker_of};
ghost use Rattle.winmd_uses.specs.Takes.{IsEmpty, Takes, all_names, cell_says, has_maker, has_name, instances_of, is_foreign, maker_alone, names_alone, spec_alone};

use crate::declared::{is_declared, is_declared_text};
use crate::instances::Instances;
use crate::makers::Maker;
use crate::names::Names;
use crate::used::Used;
use ranked::Memory;
use std::alloc::Global;
use std::collections::BTreeSet;
use wr_base::{FullName, TypeUse, Types};

impl<'a> Used<'a> {
    pub(crate) fn new(alloc: Global, types: &'a Types) -> Used<'a>
        ensures empty { IsEmpty result }
        ensures types { result.types.now ≡ types.now }
    {
        Used {
            types,
            names: Names::new(alloc),
            makers: [false; 9],
            instances: Instances::new(alloc),
            alloc,
        }
    }

    /// The full names of the types that are named and that the set does not declare, in their order.
    pub fn names(&self) -> &BTreeSet<String>
        ensures { map string_bytes result.now.keys ≡ all_names self.now }
    {
        &self.names.set
    }

    /// Whether a type of this full name is among them.
    pub fn has_name(&self, name: &str) -> bool
        ensures { result ≡ has_name self.now name.now }
    {
        self.names.has(name)
    }

    /// Whether a constructor is used.
    pub fn has_maker(&self, maker: Maker) -> bool
        ensures { result ≡ has_maker self.now (maker_of maker) }
    {
        self.makers[maker.number()]
    }

    /// The instances, in the order in which they are first used.
    pub fn instances(&self) -> &[TypeUse]
        ensures { map tree_of result.now ≡ instances_of self.now }
    {
        self.instances.list.as_slice()
    }

    // A name that the set does not declare.
    pub(crate) fn take_foreign(&mut self, name: &str) -> Result<(), Memory>
        requires { is_foreign self.old name.now ≡ true }
        ensures { OnOk result (Takes (names_alone (name.now ∷ [])) self.old self.new) }
    {
        self.names.take(self.alloc, name)
    }

    pub(crate) fn take_full(&mut self, name: &FullName) -> Result<(), Memory>
        ensures { OnOk result (Takes (names_alone (name.now ∷ [])) self.old self.new) }
    {
        if is_declared(self.types, name) {
            return Ok(());
        }
        self.take_foreign(name.as_str())
    }

    /// The same of a text, which mostly is there already.
    pub(crate) fn take_name(&mut self, name: &str) -> Result<(), Memory>
        ensures { OnOk result (Takes (names_alone (name.now ∷ [])) self.old self.new) }
    {
        if self.names.knows(name) || is_declared_text(self.types, name) {
            return Ok(());
        }
        self.take_foreign(name)
    }

    // The constructor itself, without the names in its row.
    fn set_maker(&mut self, maker: Maker)
        ensures { Takes (maker_alone (maker_of maker)) self.old self.new }
    {
        self.makers[maker.number()] = true;
    }

    fn take_maker_names(&mut self, maker: Maker) -> Result<(), Memory>
        ensures { OnOk result (Takes (names_alone (maker_type (maker_of maker) ∷ names_in_signature (maker_signature (maker_of maker)))) self.old self.new) }
    {
        self.take_name(maker.type_name())?;
        if maker.takes_type() {
            return self.take_name("System.Type");
        }
        Ok(())
    }

    pub(crate) fn take_maker(&mut self, maker: Maker) -> Result<(), Memory>
        ensures { OnOk result (Takes (cell_says (MadeBy (maker_of maker))) self.old self.new) }
    {
        self.set_maker(maker);
        self.take_maker_names(maker)
    }

    // An instance itself, without the names in its row.
    pub(crate) fn take_instance(&mut self, ty: &TypeUse) -> Result<(), Memory>
        ensures { OnOk result (Takes (spec_alone (tree_of ty.now)) self.old self.new) }
    {
        self.instances.add(self.alloc, ty)
    }
}
