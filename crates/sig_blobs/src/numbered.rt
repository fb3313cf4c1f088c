//! How numbers of types are made known and looked up.

ghost use Rattle.std.specs.Prelude.{◌≡◌, ◌++◌, ℕ, List, OnOk, OnErr, string_bytes, bytes_eq, if◌then◌else◌};
ghost use Rattle.sig_blobs.specs.Numbers.{number_in};

use crate::tokens::Tokens;
use ranked::Memory;
use std::alloc::Global;
use std::collections::HashMap;

impl Tokens {
    /// One number stands for every type.
    pub fn new(alloc: Global, other: u32) -> Tokens
        ensures { (name : List ℕ) → number_in result name ≡ other }
    {
        Tokens {
            numbers: HashMap::new(alloc),
            other,
        }
    }

    /// From now on the number stands for the type of this name.
    pub fn add(&mut self, name: String, number: u32) -> Result<(), Memory>
        ensures ok { OnOk result ((other : List ℕ) → number_in self.new other ≡ (if bytes_eq other (string_bytes name) then number else number_in self.old other)) }
        ensures unchanged { OnErr result ((other : List ℕ) → number_in self.new other ≡ number_in self.old other) }
    {
        self.numbers.insert(name, number)?;
        Ok(())
    }

    /// The number of the type of this name.
    pub fn number(&self, name: &str) -> u32
        ensures { result ≡ number_in self.now name.now }
    {
        match self.numbers.get(name) {
            Some(number) => *number,
            None => self.other,
        }
    }
}
