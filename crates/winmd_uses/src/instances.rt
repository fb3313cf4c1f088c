//! Instances, each once, in the order in which they are first used.

ghost use Rattle.std.specs.Prelude.{◌≡◌, OnOk, true};
ghost use Rattle.std.specs.HashSet.{Updates};
ghost use Rattle.wr_base.specs.Trees.{tree_of};
ghost use Rattle.winmd_uses.specs.Instances.{Adds, HasNone, has_key};
ghost use Rattle.winmd_uses.specs.Known.{key_eq};

use crate::keys::put_key;
use ranked::Memory;
use std::alloc::{AllocError, Global};
use std::collections::HashSet;
use wr_base::TypeUse;

/// Uses, and the keys of those that are there.
#[derive(Drop)]
pub struct Instances {
    pub(crate) keys: HashSet<Vec<u8>>,
    pub(crate) list: Vec<TypeUse>,
}

fn mark(keys: &mut HashSet<Vec<u8>>, key: Vec<u8>) -> Result<(), Memory>
    ensures { OnOk result (Updates key_eq keys.old keys.new key true) }
{
    match keys.insert(key) {
        Ok(_) => Ok(()),
        Err(_) => Err(AllocError),
    }
}

impl Instances {
    pub(crate) fn new(alloc: Global) -> Instances
        ensures { HasNone result }
    {
        Instances {
            keys: HashSet::new(alloc),
            list: Vec::new(alloc),
        }
    }

    fn knows(&self, key: &[u8]) -> bool
        ensures { result ≡ has_key self.now key.now }
    {
        self.keys.contains(key)
    }

    /// Adds a use that isn't there yet.
    pub(crate) fn add(&mut self, alloc: Global, ty: &TypeUse) -> Result<(), Memory>
        ensures { OnOk result (Adds (tree_of ty.now) self.old self.new) }
    {
        let mut key = Vec::new(alloc);
        put_key(&mut key, ty)?;
        if self.knows(key.as_slice()) {
            return Ok(());
        }
        mark(&mut self.keys, key)?;
        self.list.push(ty.clone()?)?;
        Ok(())
    }
}
