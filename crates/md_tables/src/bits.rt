//! Bits of Valid.

ghost use Rattle.std.specs.Prelude.{◌≡◌, ◌≤◌, ◌<◌, ◌*◌, ◌^◌, length};
ghost use Rattle.md_schema.specs.Tables as tables;
ghost use Rattle.md_schema.specs.Written.{bits};
ghost use Rattle.md_tables.specs.Faults as faults;

use crate::numbers::is_table_number;

/// Whether a bit is set, from the lowest.
pub fn has_bit(value: u64, bit: u32) -> bool
    requires { bit < 64 }
    ensures { result ≡ tables.has_bit value bit }
{
    (value >> bit) % 2 == 1
}

/// How many of the low bits are set.
pub fn bit_count(value: u64, bits: u32) -> u32
    requires { bits ≤ 64 }
    ensures value { result ≡ tables.bits_set bits value }
    ensures small { result ≤ bits }
{
    let mut rest = value;
    let mut count = 0;
    for _ in 0..bits {
        count += (rest % 2) as u32;
        rest /= 2;
    }
    count
}

/// Whether a bit is set that is the number of no table.
pub fn has_unknown(valid: u64) -> bool
    ensures { result ≡ faults.has_unknown valid }
{
    for n in 0..64u32 {
        if is_unknown(valid, n) {
            return true;
        }
    }
    false
}

fn is_unknown(valid: u64, n: u32) -> bool
    requires { n < 64 }
    ensures { result ≡ faults.is_unknown valid n }
{
    has_bit(valid, n) && !is_table_number(n)
}

/// A bit for each table that has rows, the lowest for the table of number 0.
pub fn valid_bits(rows: &[u32]) -> u64
    requires { length rows.now ≤ 45 }
    ensures { result ≡ bits rows.now }
{
    let mut value = 0;
    let mut n = rows.len();
    while n > 0 {
        n -= 1;
        value = if rows[n] > 0 { 1 } else { 0 } + 2 * value;
    }
    value
}
