//! Uses and signatures.

ghost use Rattle.std.specs.Prelude.{◌≡◌, ◌∷◌, [], OnOk, map, option_map};
ghost use Rattle.std.specs.List.{flat_map};
ghost use Rattle.sig_blobs.specs.Templates as templates;
ghost use Rattle.wr_base.specs.Trees.{param_tree, signature_tree, tree_of};
ghost use Rattle.winmd_lines.specs.Lines.{Type_};
ghost use Rattle.winmd_lines.specs.UsedNames.{names_in_base, names_in_result, names_in_signature, names_in_use};
ghost use Rattle.winmd_uses.specs.Kinds.{nothing};
ghost use Rattle.winmd_uses.specs.Takes.{Takes, cell_says, names_alone};

use crate::used::Used;
use ranked::Memory;
use sig_blobs::template;
use wr_base::{Base, FullName, Param, Signature, TypeUse};

impl Used<'_> {
    fn take_base(&mut self, base: Base) -> Result<(), Memory>
        ensures { OnOk result (Takes (names_alone (names_in_base base)) self.old self.new) }
    {
        match base {
            Base::Guid => self.take_name("System.Guid"),
            _ => Ok(()),
        }
    }

    // Remembers a template that was taken, by its parts.
    fn form(&mut self, name: &FullName, count: usize, full: &str) -> Result<(), Memory>
        requires { full.now ≡ templates.template name.now count }
        ensures { OnOk result (Takes nothing self.old self.new) }
    {
        if self.names.knows(full) {
            return self.names.form(self.alloc, name.as_str(), count);
        }
        Ok(())
    }

    fn take_new_template(&mut self, name: &FullName, count: usize) -> Result<(), Memory>
        ensures { OnOk result (Takes (names_alone (templates.template name.now count ∷ [])) self.old self.new) }
    {
        let full = template(self.alloc, name, count)?;
        self.take_name(full.as_str())?;
        self.form(name, count, full.as_str())
    }

    fn take_template(&mut self, name: &FullName, count: usize) -> Result<(), Memory>
        ensures { OnOk result (Takes (names_alone (templates.template name.now count ∷ [])) self.old self.new) }
    {
        if self.names.has_formed(name.as_str(), count) {
            return Ok(());
        }
        self.take_new_template(name, count)
    }

    /// The names in a use.
    #[tactic(auto, using(wr_base::proofs::TreeLaws::tree_Plain, wr_base::proofs::TreeLaws::tree_Value, wr_base::proofs::TreeLaws::tree_Reference))]
    pub(crate) fn take_use(&mut self, ty: &TypeUse) -> Result<(), Memory>
        ensures { OnOk result (Takes (names_alone (names_in_use (tree_of ty.now))) self.old self.new) }
    {
        match ty {
            TypeUse::Plain(base) => self.take_base(*base),
            TypeUse::Value(name) => self.take_full(name),
            TypeUse::Reference(name) => self.take_full(name),
            TypeUse::Inst(name, arguments) => {
                let list = arguments.as_slice();
                self.take_template(name, list.len())?;
                for argument in list {
                    self.take_use(argument)?;
                }
                Ok(())
            }
        }
    }

    /// A type that a cell leads to: by its name, or an instance by its TypeSpec.
    #[tactic(auto, using(wr_base::proofs::TreeLaws::tree_Plain, wr_base::proofs::TreeLaws::tree_Value, wr_base::proofs::TreeLaws::tree_Reference))]
    pub(crate) fn take_cell(&mut self, ty: &TypeUse) -> Result<(), Memory>
        ensures { OnOk result (Takes (cell_says (Type_ (tree_of ty.now))) self.old self.new) }
    {
        match ty {
            TypeUse::Plain(_) => Ok(()),
            TypeUse::Value(name) => self.take_full(name),
            TypeUse::Reference(name) => self.take_full(name),
            TypeUse::Inst(_, _) => {
                self.take_instance(ty)?;
                self.take_use(ty)
            }
        }
    }

    fn take_result(&mut self, returned: &Option<TypeUse>) -> Result<(), Memory>
        ensures { OnOk result (Takes (names_alone (names_in_result (option_map tree_of returned.now))) self.old self.new) }
    {
        match returned {
            None => Ok(()),
            Some(ty) => self.take_use(ty),
        }
    }

    fn take_params(&mut self, params: &[Param]) -> Result<(), Memory>
        ensures { OnOk result (Takes (names_alone (flat_map (λ param. names_in_use param.kind) (map param_tree params.now))) self.old self.new) }
    {
        for param in params {
            self.take_use(&param.ty)?;
        }
        Ok(())
    }

    /// The names in a signature.
    pub(crate) fn take_signature(&mut self, sig: &Signature) -> Result<(), Memory>
        ensures { OnOk result (Takes (names_alone (names_in_signature (signature_tree sig.now))) self.old self.new) }
    {
        self.take_result(&sig.result)?;
        self.take_params(sig.params.as_slice())
    }
}
