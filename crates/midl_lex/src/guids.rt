//! Guids.

ghost use Rattle.std.specs.Prelude.{◌≡◌, ◌-◌, ◌≤◌};
ghost use Rattle.midl_lex.specs.Guids.{guid_test, guid_from};

use crate::bytes::{Run, passes};

fn guid_test(place: usize, byte: u8) -> bool
    ensures { result ≡ guid_test place byte }
{
    if place == 8 || place == 13 || place == 18 || place == 23 {
        byte == b'-'
    } else {
        passes(Run::Hexadecimal, byte)
    }
}

fn guid_rest(place: usize, bytes: &[u8]) -> bool
    requires { place ≤ 36 }
    ensures { result ≡ guid_from (36 - place) place bytes.now }
{
    if place == 36 {
        return true;
    }
    match bytes {
        [] => false,
        [byte, rest @ ..] => {
            if !guid_test(place, *byte) {
                return false;
            }
            guid_rest(place + 1, rest)
        }
    }
}

/// Whether the front is a guid, 36 bytes.
pub(crate) fn begins_guid(bytes: &[u8]) -> bool
    ensures { result ≡ guid_from 36 0 bytes.now }
{
    guid_rest(0, bytes)
}
