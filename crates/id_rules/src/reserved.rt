//! The ids that neither a declaration nor an instance may have.

ghost use Rattle.std.specs.Prelude.{◌≡◌, ◌<◌, ℕ, Some, None, IfOk, OnOk, slice_get, nat_eq};
ghost use Rattle.std.specs.HashMap.{Updates};
ghost use Rattle.wr_rules.specs.NameRules.{reserved_ids};
ghost use Rattle.id_table.specs.Taken.{owner};
ghost use Rattle.id_rules.specs.Reserved.{OwnsReserved};

use std::alloc::{AllocError, Global};
use std::collections::HashMap;

// IUnknown, IInspectable and IActivationFactory, then the found types.
fn reserved_at(i: u32) -> u128
    requires { i < 8 }
    ensures { slice_get reserved_ids i ≡ Some result }
{
    match i {
        0 => 0xc000000000000046,
        1 => 0xaf86e2e0_b12d_4c6a_9c5a_d7aa65101e90,
        2 => 0x35_0000_0000_c000_000000000046,
        3 => 0x30d5a829_7fa4_4026_83bb_d75bae4ea99e,
        4 => 0x96369f54_8eb6_48f0_abce_c1b211e627c3,
        5 => 0x61c17706_2d65_11e0_9ae8_d48564015472,
        6 => 0x9de1c535_6ae1_11e0_84e1_18a905bcc53f,
        _ => 0x9de1c534_6ae1_11e0_84e1_18a905bcc53f,
    }
}

fn no_owners(alloc: Global) -> HashMap<u128, u32>
    ensures { (id : ℕ) → owner result id ≡ None }
{
    HashMap::new(alloc)
}

fn put_reserved(owners: &mut HashMap<u128, u32>, id: u128) -> Result<(), AllocError>
    ensures { OnOk result (Updates nat_eq owners.old owners.new id (Some 4294967295)) }
{
    match owners.insert(id, u32::MAX) {
        Ok(_) => Ok(()),
        Err(_) => Err(AllocError),
    }
}

/// The ids that neither a declaration nor an instance may have, under `u32::MAX`, which is the number of no text.
pub fn reserved_owners(alloc: Global) -> Result<HashMap<u128, u32>, AllocError>
    ensures { IfOk result (λ owners. OwnsReserved (owner owners)) }
{
    let mut owners = no_owners(alloc);
    for i in 0..8 {
        put_reserved(&mut owners, reserved_at(i))?;
    }
    Ok(owners)
}
