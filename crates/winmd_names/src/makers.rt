//! The constructors that are used.

ghost use Rattle.std.specs.Prelude.{◌≡◌, ◌≤◌, ◌++◌, ◌∷◌, [], IfOk, OnOk, if◌then◌else◌, length, map};
ghost use Rattle.std.specs.List.{filter};
ghost use Rattle.winmd_lines.specs.Makers.{all_makers};
ghost use Rattle.winmd_lines.specs.Names.{is_maker, place};
ghost use Rattle.winmd_uses.specs.Makers.{maker_of};
ghost use Rattle.winmd_uses.specs.Takes.{has_maker};

use ranked::Memory;
use std::alloc::Global;
use winmd_uses::{Maker, Used};

/// All constructors, in their order.
const ALL: [Maker; 9] = [
    Maker::Flags,
    Maker::Activatable,
    Maker::Factory,
    Maker::Default,
    Maker::ExclusiveTo,
    Maker::Guid,
    Maker::Overload,
    Maker::Static,
    Maker::Version,
];

fn add_used(makers: &mut Vec<Maker>, used: &Used<'_>, maker: Maker) -> Result<(), Memory>
    ensures { OnOk result (makers.new.items ≡ (if has_maker used.now (maker_of maker) then makers.old.items ++ maker ∷ [] else makers.old.items)) }
{
    if used.has_maker(maker) {
        makers.push(maker)?;
    }
    Ok(())
}

fn used_among(alloc: Global, used: &Used<'_>, all: &[Maker]) -> Result<Vec<Maker>, Memory>
    ensures makers { IfOk result (λ makers. map maker_of makers.items ≡ filter (has_maker used.now) (map maker_of all.now)) }
    ensures few { IfOk result (λ makers. length makers.items ≤ length all.now) }
{
    let mut makers = Vec::new(alloc);
    for maker in all {
        add_used(&mut makers, used, *maker)?;
    }
    Ok(makers)
}

/// Those that are used, in their order.
pub(crate) fn used_makers(alloc: Global, used: &Used<'_>) -> Result<Vec<Maker>, Memory>
    ensures makers { IfOk result (λ makers. map maker_of makers.items ≡ filter (has_maker used.now) all_makers) }
    ensures few { IfOk result (λ makers. length makers.items ≤ 9) }
{
    used_among(alloc, used, &ALL)
}

/// How many constructors stand before this one.
pub(crate) fn place_of(makers: &[Maker], maker: Maker) -> usize
    ensures place { result ≡ place (is_maker (maker_of maker)) (map maker_of makers.now) }
    ensures within { result ≤ length makers.now }
{
    for i in 0..makers.len() {
        if maker.number() == makers[i].number() {
            return i;
        }
    }
    makers.len()
}
