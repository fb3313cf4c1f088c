//! The constructors of the attributes that are written.

ghost use Rattle.std.specs.Prelude.{◌≡◌, ◌<◌, ◌∷◌, [], codes, if◌then◌else◌};
ghost use Rattle.winmd_lines.specs.Makers.{maker_number, maker_signature, maker_type};
ghost use Rattle.winmd_lines.specs.UsedNames.{names_in_signature};
ghost use Rattle.winmd_uses.specs.Makers.{maker_of};

/// A constructor of an attribute's type. `Activatable` is of a class that is made without parameters, `Factory` of one with a factory.
#[derive(Clone, Copy, Debug, PartialEq, Eq)]
pub enum Maker {
    Flags,
    Activatable,
    Factory,
    Default,
    ExclusiveTo,
    Guid,
    Overload,
    Static,
    Version,
}

impl Maker {
    /// Its place in the order of all.
    pub fn number(self) -> usize
        ensures number { result ≡ maker_number (maker_of self) }
        ensures within { result < 9 }
    {
        match self {
            Maker::Flags => 0,
            Maker::Activatable => 1,
            Maker::Factory => 2,
            Maker::Default => 3,
            Maker::ExclusiveTo => 4,
            Maker::Guid => 5,
            Maker::Overload => 6,
            Maker::Static => 7,
            Maker::Version => 8,
        }
    }

    /// The full name of the attribute's type.
    pub fn type_name(self) -> &'static str
        ensures { result.now ≡ maker_type (maker_of self) }
    {
        match self {
            Maker::Flags => "System.FlagsAttribute",
            Maker::Activatable => "Windows.Foundation.Metadata.ActivatableAttribute",
            Maker::Factory => "Windows.Foundation.Metadata.ActivatableAttribute",
            Maker::Default => "Windows.Foundation.Metadata.DefaultAttribute",
            Maker::ExclusiveTo => "Windows.Foundation.Metadata.ExclusiveToAttribute",
            Maker::Guid => "Windows.Foundation.Metadata.GuidAttribute",
            Maker::Overload => "Windows.Foundation.Metadata.OverloadAttribute",
            Maker::Static => "Windows.Foundation.Metadata.StaticAttribute",
            Maker::Version => "Windows.Foundation.Metadata.VersionAttribute",
        }
    }

    /// Whether a `System.Type` is among its parameters. No other parameter's type has a name.
    pub fn takes_type(self) -> bool
        ensures { names_in_signature (maker_signature (maker_of self)) ≡ (if result then codes "System.Type" ∷ [] else []) }
    {
        match self {
            Maker::Factory => true,
            Maker::ExclusiveTo => true,
            Maker::Static => true,
            _ => false,
        }
    }
}
