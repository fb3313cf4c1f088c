//! Declarations of each kind.

ghost use Rattle.std.specs.Prelude.{◌≡◌, ◌∷◌, [], OnOk, bytes_eq, map, option_map, true};
ghost use Rattle.std.specs.List.{flat_map, list_any};
ghost use Rattle.wr_base.specs.Trees.{field_tree, member_tree, signature_tree, tree_of};
ghost use Rattle.winmd_lines.specs.UsedNames.{names_in_use};
ghost use Rattle.winmd_sets.specs.Declared as declared;
ghost use Rattle.winmd_uses.specs.Kinds.{base_says, class_says, delegate_says, enum_says, id_says, interface_says, made_if, makings_say, own_name, struct_says};
ghost use Rattle.winmd_uses.specs.Makers.{maker_of};
ghost use Rattle.winmd_uses.specs.Takes.{Takes, lines_say, names_alone, types_in};

use crate::declared::is_outside;
use crate::makers::Maker;
use crate::used::Used;
use ranked::Memory;
use wr_base::{Cases, Field, FullName, FullNames, Member, Signature, TypeUse};

fn is_default(default: &Option<TypeUse>, ty: &TypeUse) -> bool
    ensures { result ≡ declared.is_default (option_map tree_of default.now) (tree_of ty.now) }
{
    match default {
        None => false,
        Some(default) => default.is_same(ty),
    }
}

impl Used<'_> {
    pub(crate) fn take_maker_if(&mut self, test: bool, maker: Maker) -> Result<(), Memory>
        ensures { OnOk result (Takes (made_if test (maker_of maker)) self.old self.new) }
    {
        if test {
            return self.take_maker(maker);
        }
        Ok(())
    }

    fn take_kind(&mut self, base: &str) -> Result<(), Memory>
        ensures { OnOk result (Takes (base_says base.now) self.old self.new) }
    {
        self.take_name(base)?;
        self.take_maker(Maker::Version)
    }

    fn take_id(&mut self) -> Result<(), Memory>
        ensures { OnOk result (Takes id_says self.old self.new) }
    {
        self.take_maker(Maker::Guid)?;
        self.take_maker(Maker::Version)
    }

    // The name of a declaration of the set, which is looked up nowhere.
    fn take_own_name(&mut self, name: &FullName, cases: &Cases) -> Result<(), Memory>
        requires { list_any (bytes_eq name.now) (types_in self.old) ≡ true }
        ensures { OnOk result (Takes (own_name name.now cases.now) self.old self.new) }
    {
        if cases.is_empty() || !is_outside(name) {
            return Ok(());
        }
        self.take_foreign(name.as_str())
    }

    pub(crate) fn take_enum(
        &mut self,
        name: &FullName,
        flags: bool,
        cases: &Cases,
    ) -> Result<(), Memory>
        requires { list_any (bytes_eq name.now) (types_in self.old) ≡ true }
        ensures { OnOk result (Takes (enum_says name.now flags cases.now) self.old self.new) }
    {
        self.take_name("System.Enum")?;
        self.take_maker_if(flags, Maker::Flags)?;
        self.take_maker(Maker::Version)?;
        self.take_own_name(name, cases)
    }

    fn take_fields(&mut self, fields: &[Field]) -> Result<(), Memory>
        ensures { OnOk result (Takes (names_alone (flat_map (λ f. names_in_use f.kind) (map field_tree fields.now))) self.old self.new) }
    {
        for field in fields {
            self.take_use(&field.ty)?;
        }
        Ok(())
    }

    pub(crate) fn take_struct(&mut self, fields: &[Field]) -> Result<(), Memory>
        ensures { OnOk result (Takes (struct_says (map field_tree fields.now)) self.old self.new) }
    {
        self.take_kind("System.ValueType")?;
        self.take_fields(fields)
    }

    pub(crate) fn take_delegate(&mut self, invoke: &Signature) -> Result<(), Memory>
        ensures { OnOk result (Takes (delegate_says (signature_tree invoke.now)) self.old self.new) }
    {
        self.take_name("System.MulticastDelegate")?;
        self.take_id()?;
        self.take_signature(invoke)
    }

    fn take_interfaces(&mut self, uses: &[TypeUse]) -> Result<(), Memory>
        ensures { OnOk result (Takes (lines_say (map declared.interface_line (map tree_of uses.now))) self.old self.new) }
    {
        for ty in uses {
            self.take_cell(ty)?;
        }
        Ok(())
    }

    pub(crate) fn take_interface(
        &mut self,
        owner: &Option<FullName>,
        requires_: &[TypeUse],
        members: &[Member],
    ) -> Result<(), Memory>
        ensures { OnOk result (Takes (interface_says owner.now (map tree_of requires_.now) (map member_tree members.now)) self.old self.new) }
    {
        self.take_id()?;
        self.take_maker_if(owner.is_some(), Maker::ExclusiveTo)?;
        self.take_interfaces(requires_)?;
        self.take_members(members)
    }

    fn take_class_interface(
        &mut self,
        default: &Option<TypeUse>,
        ty: &TypeUse,
    ) -> Result<(), Memory>
        ensures { OnOk result (Takes (lines_say (declared.class_interface (option_map tree_of default.now) (tree_of ty.now))) self.old self.new) }
    {
        self.take_cell(ty)?;
        self.take_maker_if(is_default(default, ty), Maker::Default)
    }

    fn take_class_interfaces(
        &mut self,
        default: &Option<TypeUse>,
        uses: &[TypeUse],
    ) -> Result<(), Memory>
        ensures { OnOk result (Takes (lines_say (flat_map (declared.class_interface (option_map tree_of default.now)) (map tree_of uses.now))) self.old self.new) }
    {
        for ty in uses {
            self.take_class_interface(default, ty)?;
        }
        Ok(())
    }

    fn take_makings(
        &mut self,
        direct: bool,
        factories: &FullNames,
        statics: &FullNames,
    ) -> Result<(), Memory>
        ensures { OnOk result (Takes (makings_say direct factories.now statics.now) self.old self.new) }
    {
        self.take_maker_if(direct, Maker::Activatable)?;
        self.take_maker_if(!factories.is_empty(), Maker::Factory)?;
        self.take_maker_if(!statics.is_empty(), Maker::Static)
    }

    pub(crate) fn take_class(
        &mut self,
        default: &Option<TypeUse>,
        has: &[TypeUse],
        direct: bool,
        factories: &FullNames,
        statics: &FullNames,
    ) -> Result<(), Memory>
        ensures { OnOk result (Takes (class_says (option_map tree_of default.now) (map tree_of has.now) direct factories.now statics.now) self.old self.new) }
    {
        self.take_kind("System.Object")?;
        self.take_class_interfaces(default, has)?;
        self.take_makings(direct, factories, statics)
    }
}
