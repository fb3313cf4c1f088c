//! The attributes that are read, by name.

ghost use Rattle.std.specs.Prelude.{◌≡◌};
ghost use Rattle.winmd_attributes.specs.Words.{word_seen};
ghost use Rattle.winmd_lines.specs.Makers.{metadata};

/// An attribute that is read: its type's name without `Attribute`, in `Windows.Foundation.Metadata`.
#[derive(Clone, Copy)]
pub enum Word {
    Activatable,
    Default,
    ExclusiveTo,
    Guid,
    Overload,
    Static,
    Version,
}

/// The full name of its type.
pub(crate) fn type_of(word: Word) -> &'static [u8]
    ensures { result.now ≡ metadata (word_seen word) }
{
    match word {
        Word::Activatable => b"Windows.Foundation.Metadata.ActivatableAttribute",
        Word::Default => b"Windows.Foundation.Metadata.DefaultAttribute",
        Word::ExclusiveTo => b"Windows.Foundation.Metadata.ExclusiveToAttribute",
        Word::Guid => b"Windows.Foundation.Metadata.GuidAttribute",
        Word::Overload => b"Windows.Foundation.Metadata.OverloadAttribute",
        Word::Static => b"Windows.Foundation.Metadata.StaticAttribute",
        Word::Version => b"Windows.Foundation.Metadata.VersionAttribute",
    }
}
