//! The constructors of the attributes that are used.

ghost use Rattle.std.specs.Prelude.{◌≡◌, ◌++◌, OnOk, IfOk, map};
ghost use Rattle.kind_rows.specs.Makers.{maker_of};
ghost use Rattle.kind_rows.specs.Said.{said};
ghost use Rattle.part_rows.specs.Grown.{with_line, with_lines};
ghost use Rattle.sig_blobs.specs.Numbers.{number_in};
ghost use Rattle.sig_blobs.specs.Writing.{method_bytes, use_bytes};
ghost use Rattle.winmd_lines.specs.Makers.{maker_signature, maker_type, system_type};
ghost use Rattle.winmd_sets.specs.Rows.{maker_line};
ghost use Rattle.wr_base.specs.Trees.{tree_of};

use kind_rows::{Maker, Out, Referred};
use part_rows::put_constructor_row;
use ranked::Memory;
use sig_blobs::{Tokens, put_spec};
use std::alloc::{AllocError, Global};
use wr_base::{FullName, TypeUse};

/// `System.Type`.
fn type_of_types(alloc: Global) -> Result<TypeUse, Memory>
    ensures { IfOk result (λ ty. tree_of ty ≡ system_type) }
{
    match FullName::new(String::from_str(alloc, "System.Type")?) {
        Some(name) => Ok(TypeUse::Reference(name)),
        None => Err(AllocError),
    }
}

// These bytes, `System.Type`, and these.
fn put_typed(
    blob: &mut Vec<u8>,
    alloc: Global,
    tokens: &Tokens,
    front: &[u8],
    back: &[u8],
) -> Result<(), Memory>
    ensures { OnOk result (blob.new.items ≡ front.now ++ use_bytes (number_in tokens.now) system_type ++ back.now) }
{
    let ty = type_of_types(alloc)?;
    blob.clear();
    blob.extend_from_slice(front)?;
    put_spec(blob, &ty, tokens)?;
    blob.extend_from_slice(back)
}

fn put_plain(blob: &mut Vec<u8>, bytes: &[u8]) -> Result<(), Memory>
    ensures { OnOk result (blob.new.items ≡ bytes.now) }
{
    blob.clear();
    blob.extend_from_slice(bytes)
}

// The signature of a constructor, in the buffer.
fn spell(blob: &mut Vec<u8>, alloc: Global, tokens: &Tokens, maker: Maker) -> Result<(), Memory>
    ensures { OnOk result (blob.new.items ≡ method_bytes (number_in tokens.now) (maker_signature (maker_of maker))) }
{
    match maker {
        Maker::Flags => put_plain(blob, &[0x20, 0, 1]),
        Maker::Activatable => put_plain(blob, &[0x20, 1, 1, 9]),
        Maker::Factory => put_typed(blob, alloc, tokens, &[0x20, 2, 1], &[9]),
        Maker::Default => put_plain(blob, &[0x20, 0, 1]),
        Maker::ExclusiveTo => put_typed(blob, alloc, tokens, &[0x20, 1, 1], &[]),
        Maker::Guid => put_plain(blob, &[0x20, 11, 1, 9, 7, 7, 5, 5, 5, 5, 5, 5, 5, 5]),
        Maker::Overload => put_plain(blob, &[0x20, 1, 1, 14]),
        Maker::Static => put_typed(blob, alloc, tokens, &[0x20, 2, 1], &[9]),
        Maker::Version => put_plain(blob, &[0x20, 1, 1, 9]),
    }
}

// The full name of the attribute's type.
fn type_name(maker: Maker) -> &'static str
    ensures { result.now ≡ maker_type (maker_of maker) }
{
    match maker {
        Maker::Flags => "System.FlagsAttribute",
        Maker::Activatable => "Windows.Foundation.Metadata.ActivatableAttribute",
        Maker::Factory => "Windows.Foundation.Metadata.ActivatableAttribute",
        Maker::Default => "Windows.Foundation.Metadata.DefaultAttribute",
        Maker::ExclusiveTo => "Windows.Foundation.Metadata.ExclusiveToAttribute",
        Maker::Guid => "Windows.Foundation.Metadata.GuidAttribute",
        Maker::Overload => "Windows.Foundation.Metadata.OverloadAttribute",
        Maker::Static => "Windows.Foundation.Metadata.StaticAttribute",
        Maker::Version => "Windows.Foundation.Metadata.VersionAttribute",
    }
}

fn put_maker<N: Referred>(out: &mut Out, names: &N, maker: Maker) -> Result<(), Memory>
    ensures { OnOk result (said out.new ≡ with_line (N.names names.now) (maker_line (maker_of maker)) (said out.old)) }
{
    spell(&mut out.blob, out.alloc, names.tokens(), maker)?;
    put_constructor_row(&mut out.writer, names.named(type_name(maker)), &out.blob)
}

/// The MemberRefs of these constructors, in their order.
pub fn put_makers<N: Referred>(out: &mut Out, names: &N, makers: &[Maker]) -> Result<(), Memory>
    ensures { OnOk result (said out.new ≡ with_lines (N.names names.now) (map maker_line (map maker_of makers.now)) (said out.old)) }
{
    for maker in makers {
        put_maker(out, names, *maker)?;
    }
    Ok(())
}
