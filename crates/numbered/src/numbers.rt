//! Texts with their numbers.

ghost use Rattle.std.specs.Prelude.{◌≡◌, ◌+◌, ◌⊎◌, Some, None, List, ℕ, IfOk, OnOk, string_bytes};
ghost use Rattle.std.specs.HashMap.{Updates};
ghost use Rattle.std.specs.String.{string_eq};
ghost use Rattle.numbered.specs.Numbers.{number_in, IsNumbering, Kept};

use std::alloc::{AllocError, Global};
use std::collections::HashMap;

/// Texts with their numbers, which count from 0.
#[derive(Debug, Drop)]
pub struct Numbers {
    pub map: HashMap<String, u32>,
    pub count: u32,
}

/// No text has a number.
pub fn no_numbers(alloc: Global) -> Numbers
    ensures map { (text : List ℕ) → number_in result text ≡ None }
    ensures count { result.count ≡ 0 }
{
    Numbers {
        map: HashMap::new(alloc),
        count: 0,
    }
}

fn put(map: &mut HashMap<String, u32>, key: String, number: u32) -> Result<(), AllocError>
    ensures { OnOk result (Updates string_eq map.old map.new key (Some number)) }
{
    match map.insert(key, number) {
        Ok(_) => Ok(()),
        Err(_) => Err(AllocError),
    }
}

/// The number of a text that has one.
pub fn find(numbers: &Numbers, text: &str) -> Option<u32>
    ensures { result ≡ number_in numbers.now text.now }
{
    match numbers.map.get(text) {
        Some(number) => Some(*number),
        None => None,
    }
}

/// Gives a new text the next number. The last number of a `u32` isn't given; that is want of memory.
pub fn add(alloc: Global, numbers: &mut Numbers, text: &str) -> Result<u32, AllocError>
    requires numbering { IsNumbering (number_in numbers.old) numbers.old.count }
    requires new { number_in numbers.old text.now ≡ None }
    ensures numbering { OnOk result (IsNumbering (number_in numbers.new) numbers.new.count) }
    ensures here { IfOk result (λ k. number_in numbers.new text.now ≡ Some k) }
    ensures kept { OnOk result (Kept (number_in numbers.old) (number_in numbers.new)) }
    ensures next { IfOk result (λ k. k ≡ numbers.old.count) }
    ensures count { OnOk result (numbers.new.count ≡ numbers.old.count + 1) }
    ensures only { OnOk result ((q : List ℕ) → (k : ℕ) → number_in numbers.new q ≡ Some k → (text.now ≡ q) ⊎ (number_in numbers.old q ≡ Some k)) }
{
    let number = numbers.count;
    if number == u32::MAX {
        return Err(AllocError);
    }
    let key = String::from_str(alloc, text)?;
    put(&mut numbers.map, key, number)?;
    numbers.count = number + 1;
    Ok(number)
}

/// The number of a text, which is the next one where the text is new.
pub fn number(alloc: Global, numbers: &mut Numbers, text: &str) -> Result<u32, AllocError>
    requires numbering { IsNumbering (number_in numbers.old) numbers.old.count }
    ensures numbering { OnOk result (IsNumbering (number_in numbers.new) numbers.new.count) }
    ensures here { IfOk result (λ k. number_in numbers.new text.now ≡ Some k) }
    ensures kept { OnOk result (Kept (number_in numbers.old) (number_in numbers.new)) }
{
    match find(numbers, text) {
        Some(number) => Ok(number),
        None => add(alloc, numbers, text),
    }
}
