//! Constructors, as rows know them.

ghost use Rattle.std.specs.Prelude.{◌≡◌, IfOk, map};
ghost use Rattle.kind_rows.specs.Makers as rows;
ghost use Rattle.winmd_uses.specs.Makers as uses;

use kind_rows::Maker;
use ranked::Memory;
use std::alloc::Global;

/// The same constructor.
fn row_maker(maker: winmd_uses::Maker) -> Maker
    ensures { rows.maker_of result ≡ uses.maker_of maker }
{
    match maker {
        winmd_uses::Maker::Flags => Maker::Flags,
        winmd_uses::Maker::Activatable => Maker::Activatable,
        winmd_uses::Maker::Factory => Maker::Factory,
        winmd_uses::Maker::Default => Maker::Default,
        winmd_uses::Maker::ExclusiveTo => Maker::ExclusiveTo,
        winmd_uses::Maker::Guid => Maker::Guid,
        winmd_uses::Maker::Overload => Maker::Overload,
        winmd_uses::Maker::Static => Maker::Static,
        winmd_uses::Maker::Version => Maker::Version,
    }
}

/// The same constructors.
pub(crate) fn row_makers(alloc: Global, makers: &[winmd_uses::Maker]) -> Result<Vec<Maker>, Memory>
    ensures { IfOk result (λ all. map rows.maker_of all.items ≡ map uses.maker_of makers.now) }
{
    let mut all = Vec::new(alloc);
    for maker in makers {
        all.push(row_maker(*maker))?;
    }
    Ok(all)
}
