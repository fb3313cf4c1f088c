//! The names of a source set.

ghost use Rattle.std.specs.Prelude.{◌≡◌, ◌≤◌, ◌==◌, [], OnOk, length, slice_get, string_bytes};
ghost use Rattle.std.specs.Option.{option_copied};
ghost use Rattle.source_set.specs.Found.{with_name, first_names};

use crate::distinct::Distinct;
use std::alloc::{AllocError, Global};
use std::marker::Model;

/// How many names are kept: the last of them is the one that is one too many.
const KEPT: usize = 257;

/// The first names in the order in which they were found, each once. Contracts see them as a list of texts.
#[derive(Drop)]
pub(crate) struct Names {
    names: Distinct,
}

impl Model for Names {
    ghost use Rattle.std.specs.Prelude.{List, ℕ, ◌≤◌, length};
    ghost use Rattle.std.specs.Coded.{coded_ℕ, coded_list};

    ghost Value = { List (List ℕ) };

    ghost coded = { coded_list (coded_list coded_ℕ) };

    ghost view = { λ n. n.names };

    ghost invariant = { λ n. length n.names ≤ 257 };
}

impl Names {
    pub(crate) fn new(alloc: Global) -> Names
        ensures { result ≡ [] }
    {
        Names {
            names: Distinct::new(alloc),
        }
    }

    /// Whether there are as many names as are kept.
    pub(crate) fn is_full(&self) -> bool
        ensures full { result ≡ (length self.now == 257) }
        ensures few { length self.now ≤ 257 }
    {
        self.names.len() == KEPT
    }

    /// The name at the place.
    pub(crate) fn at(&self, place: usize) -> Option<&str>
        ensures { option_copied result ≡ slice_get self.now place }
    {
        self.names.at(place)
    }

    /// Puts the name behind the others, where it isn't among them and there is room.
    pub(crate) fn add(&mut self, name: String) -> Result<(), AllocError>
        ensures { OnOk result (self.new ≡ first_names (with_name self.old (string_bytes name))) }
    {
        if self.is_full() {
            return Ok(());
        }
        self.names.add(name)?;
        Ok(())
    }
}
