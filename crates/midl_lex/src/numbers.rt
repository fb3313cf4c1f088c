//! Numbers and their values.

ghost use Rattle.std.specs.Prelude.{◌≡◌, ◌+◌, ◌<◌, ◌^◌, SomeIff};
ghost use Rattle.std.specs.Char.{digit_value};
ghost use Rattle.std.specs.Str.Parse.{digits_value};
ghost use Rattle.midl_lex.specs.Numbers.{begins_hex, number_len, value_of};

use crate::bytes::{Run, passes, run_of};

fn begins_hex(bytes: &[u8]) -> bool
    ensures { result ≡ begins_hex bytes.now }
{
    match bytes {
        [b, x, d, ..] => {
            *b == b'0' && ((*x == b'x' || *x == b'X') && passes(Run::Hexadecimal, *d))
        }
        _ => false,
    }
}

/// The length of the number at the front, which begins with a digit.
pub(crate) fn number_len(bytes: &[u8]) -> usize
    ensures { result ≡ number_len bytes.now }
{
    if begins_hex(bytes) {
        return run_of(Run::Hexadecimal, &bytes[2..]) + 2;
    }
    run_of(Run::Decimal, bytes)
}

fn digit_value(byte: u8) -> u64
    ensures { result ≡ digit_value byte }
{
    match byte {
        b'0'..=b'9' => (byte - b'0') as u64,
        b'A'..=b'Z' => (byte - 55) as u64,
        b'a'..=b'z' => (byte - 87) as u64,
        _ => 36,
    }
}

/// What the digits stand for in the base, where that is below 2^64.
fn digits_value(base: u64, digits: &[u8]) -> Option<u64>
    requires { 0 < base }
    ensures { SomeIff result (digits_value base digits.now < 2 ^ 64) (digits_value base digits.now) }
{
    let mut value: u64 = 0;
    'more: for digit in digits {
        let Some(shifted) = value.checked_mul(base) else {
            return None;
        };
        let Some(sum) = shifted.checked_add(digit_value(*digit)) else {
            return None;
        };
        value = sum;
    }
    Some(value)
}

/// What a number's spelling stands for, where that is below 2^64: decimal digits, or `0x` or `0X` and hexadecimal
/// digits.
#[tactic(auto, unfolding(crate::specs::Numbers::value_of))]
pub fn try_number_value(text: &[u8]) -> Option<u64>
    ensures { SomeIff result (value_of text.now < 2 ^ 64) (value_of text.now) }
{
    if begins_hex(text) {
        return digits_value(16, &text[2..]);
    }
    digits_value(10, text)
}

/// What a number's spelling stands for, which is below 2^64, as it is in each token.
pub fn number_value(text: &[u8]) -> u64
    requires { value_of text.now < 2 ^ 64 }
    ensures { result ≡ value_of text.now }
{
    match try_number_value(text) {
        Some(value) => value,
        None => unreachable!(),
    }
}
