//! Texts, each once.

ghost use Rattle.std.specs.Prelude.{◌≡◌, [], OnErr, OnOk, length, slice_get, string_bytes};
ghost use Rattle.std.specs.Option.{option_copied};
ghost use Rattle.source_set.specs.Found.{with_name};

use indexmap::IndexSet;
use std::alloc::{AllocError, Global};
use std::marker::Model;

/// Texts in the order in which they came first. Contracts see them as a list.
#[derive(Drop)]
pub(crate) struct Distinct {
    set: IndexSet<String>,
}

impl Model for Distinct {
    ghost use Rattle.std.specs.Prelude.{List, ℕ, map, string_bytes};
    ghost use Rattle.std.specs.Coded.{coded_ℕ, coded_list};

    ghost Value = { List (List ℕ) };

    ghost coded = { coded_list (coded_list coded_ℕ) };

    ghost view = { λ d. map string_bytes d.set.keys };
}

impl Distinct {
    pub(crate) fn new(alloc: Global) -> Distinct
        ensures { result ≡ [] }
    {
        Distinct {
            set: IndexSet::new(alloc),
        }
    }

    pub(crate) fn len(&self) -> usize
        ensures { result ≡ length self.now }
    {
        self.set.len()
    }

    /// The text at the place.
    pub(crate) fn at(&self, place: usize) -> Option<&str>
        ensures { option_copied result ≡ slice_get self.now place }
    {
        match self.set.get_index(place) {
            Some(text) => Some(text.as_str()),
            None => None,
        }
    }

    /// Puts the text behind the others, where it isn't among them.
    pub(crate) fn add(&mut self, text: String) -> Result<(), AllocError>
        ensures ok { OnOk result (self.new ≡ with_name self.old (string_bytes text)) }
        ensures err { OnErr result (self.new ≡ self.old) }
    {
        self.set.insert(text)?;
        Ok(())
    }
}
