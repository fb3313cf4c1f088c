//! Names, each once.

ghost use Rattle.std.specs.Prelude.{◌≡◌, ◌||◌, true, false, IsTrue, ℕ, List, Some, OnOk, OnErr, bytes_eq, string_bytes};
ghost use Rattle.std.specs.BTreeSet.{IsUnchanged, Updates, contains_text};
ghost use Rattle.std.specs.HashSet as hash;
ghost use Rattle.std.specs.String.{string_cmp, string_eq};
ghost use Rattle.std.specs.HashMap as counted;
ghost use Rattle.sig_blobs.specs.Templates.{template};
ghost use Rattle.winmd_uses.specs.Known.{AllFormed, AllThere};

use ranked::Memory;
use std::alloc::{AllocError, Global};
use std::collections::{BTreeSet, HashMap, HashSet};

/// A set of names in their order, and the same names by their hashes: most uses repeat one of them. Of a name with arguments, the number of
/// arguments with which it was taken last.
#[derive(Drop)]
pub struct Names {
    pub(crate) set: BTreeSet<String>,
    pub(crate) known: HashSet<String>,
    pub(crate) counts: HashMap<String, usize>,
    ghost there: { AllThere set known },
    ghost formed: { AllFormed set counts },
}

fn put(set: &mut BTreeSet<String>, name: String) -> Result<(), Memory>
    ensures added { OnOk result (Updates string_cmp set.old set.new name true) }
    ensures unchanged { OnErr result (IsUnchanged set.old set.new) }
{
    match set.insert(name) {
        Ok(_) => Ok(()),
        Err(_) => Err(AllocError),
    }
}

fn mark(known: &mut HashSet<String>, name: String) -> Result<(), Memory>
    ensures added { OnOk result (hash.Updates string_eq known.old known.new name true) }
    ensures unchanged { OnErr result (hash.IsUnchanged known.old known.new) }
{
    match known.insert(name) {
        Ok(_) => Ok(()),
        Err(_) => Err(AllocError),
    }
}

fn count(counts: &mut HashMap<String, usize>, name: String, number: usize) -> Result<(), Memory>
    ensures added { OnOk result (counted.Updates string_eq counts.old counts.new name (Some number)) }
    ensures unchanged { OnErr result (counted.IsUnchanged counts.old counts.new) }
{
    match counts.insert(name, number) {
        Ok(_) => Ok(()),
        Err(_) => Err(AllocError),
    }
}

impl Names {
    pub(crate) fn new(alloc: Global) -> Names
        ensures { (name : List ℕ) → contains_text result.set name ≡ false }
    {
        Names {
            set: BTreeSet::new(alloc),
            known: HashSet::new(alloc),
            counts: HashMap::new(alloc),
        }
    }

    /// Whether a name is among them.
    pub(crate) fn has(&self, name: &str) -> bool
        ensures { result ≡ contains_text self.now.set name.now }
    {
        self.set.contains(name)
    }

    /// The same by its hash, which may miss a name.
    pub(crate) fn knows(&self, name: &str) -> bool
        ensures { IsTrue result → contains_text self.now.set name.now ≡ true }
    {
        self.known.contains(name)
    }

    /// Whether the template of a name and so many arguments is known to be among them.
    pub(crate) fn has_formed(&self, name: &str, number: usize) -> bool
        ensures { IsTrue result → contains_text self.now.set (template name.now number) ≡ true }
    {
        match self.counts.get(name) {
            Some(count) => *count == number,
            None => false,
        }
    }

    /// Remembers that it is among them.
    pub(crate) fn form(&mut self, alloc: Global, name: &str, number: usize) -> Result<(), Memory>
        requires { contains_text self.old.set (template name.now number) ≡ true }
        ensures { self.new.set ≡ self.old.set }
    {
        count(&mut self.counts, String::from_str(alloc, name)?, number)
    }

    fn add(&mut self, name: String, again: String) -> Result<(), Memory>
        requires { string_bytes again ≡ string_bytes name }
        ensures { OnOk result ((other : List ℕ) → contains_text self.new.set other ≡ (bytes_eq other (string_bytes name) || contains_text self.old.set other)) }
    {
        put(&mut self.set, name)?;
        mark(&mut self.known, again)
    }

    /// Takes a name, unless it is there.
    pub(crate) fn take(&mut self, alloc: Global, name: &str) -> Result<(), Memory>
        ensures { OnOk result ((other : List ℕ) → contains_text self.new.set other ≡ (bytes_eq other name.now || contains_text self.old.set other)) }
    {
        if self.knows(name) {
            return Ok(());
        }
        self.add(
            String::from_str(alloc, name)?,
            String::from_str(alloc, name)?,
        )
    }
}
