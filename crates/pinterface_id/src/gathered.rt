//! Ids with the texts that are known already, so that the signature of an instance is made once.

ghost use Rattle.std.specs.Prelude.{◌≡◌, ◌∷◌, [], true, OnOk};
ghost use Rattle.std.specs.HashSet.{Updates, contains_text};
ghost use Rattle.std.specs.String.{string_eq};
ghost use Rattle.pinterface_id.specs.Gathering.{Gathers, Knows};

use std::alloc::{AllocError, Global};
use std::collections::HashSet;
use wr_base::{Name, UseId};

/// Ids that were found so far, and the texts that have one among them.
#[derive(Debug, Drop)]
pub(crate) struct Gathered {
    pub(crate) list: Vec<UseId>,
    pub(crate) known: HashSet<String>,
}

fn mark(known: &mut HashSet<String>, text: String) -> Result<(), AllocError>
    ensures { OnOk result (Updates string_eq known.old known.new text true) }
{
    match known.insert(text) {
        Ok(_) => Ok(()),
        Err(_) => Err(AllocError),
    }
}

impl Gathered {
    /// Nothing is found.
    pub(crate) fn new(alloc: Global) -> Gathered
        ensures list { result.list.items ≡ [] }
        ensures knows { Knows result }
    {
        Gathered {
            list: Vec::new(alloc),
            known: HashSet::new(alloc),
        }
    }

    /// Whether the text has an id already.
    pub(crate) fn knows(&self, text: &str) -> bool
        ensures { result ≡ contains_text self.now.known text.now }
    {
        self.known.contains(text)
    }

    /// Puts an id behind the others.
    pub(crate) fn put(&mut self, alloc: Global, text: &str, id: u128) -> Result<(), AllocError>
        ensures { OnOk result (Gathers (record { text = text.now; id = id } ∷ []) self.old self.new) }
    {
        mark(&mut self.known, String::from_str(alloc, text)?)?;
        self.list.push(UseId {
            text: Name::new(String::from_str(alloc, text)?),
            id,
        })?;
        Ok(())
    }
}
