//! Constructors, as names know them.

ghost use Rattle.std.specs.Prelude.{◌≡◌};
ghost use Rattle.kind_rows.specs.Makers as rows;
ghost use Rattle.winmd_uses.specs.Makers as uses;

use kind_rows::Maker;

/// The same constructor.
pub(crate) fn named_maker(maker: Maker) -> winmd_uses::Maker
    ensures { uses.maker_of result ≡ rows.maker_of maker }
{
    match maker {
        Maker::Flags => winmd_uses::Maker::Flags,
        Maker::Activatable => winmd_uses::Maker::Activatable,
        Maker::Factory => winmd_uses::Maker::Factory,
        Maker::Default => winmd_uses::Maker::Default,
        Maker::ExclusiveTo => winmd_uses::Maker::ExclusiveTo,
        Maker::Guid => winmd_uses::Maker::Guid,
        Maker::Overload => winmd_uses::Maker::Overload,
        Maker::Static => winmd_uses::Maker::Static,
        Maker::Version => winmd_uses::Maker::Version,
    }
}
