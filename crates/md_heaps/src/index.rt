//! The index of a heap: by which number tables name a content, looked up by hash.
ghost use Rattle.std.specs.Prelude.{◌≡◌, ◌<◌, None, OnOk, OnErr};
ghost use Rattle.std.specs.FinMap.{get, insert, empty};
ghost use Rattle.md_heaps.specs.Index.{table_of};

use crate::content::{Content, Sought};
use indexmap::IndexMap;
use ranked::Memory;
use std::alloc::Global;
use std::array;
use std::hash::{FoldHasher, Hasher};
use std::marker::Model;

/// The number of each content. A hash table that has outgrown the processor's caches is slow to build anew, so there are sixteen, and
/// each grows by itself.
#[derive(Drop)]
pub struct Index {
    tables: [IndexMap<Content, u32>; 16],
}

impl Model for Index {
    ghost use Rattle.std.specs.Prelude.{◌≡◌, length, map};
    ghost use Rattle.std.specs.Coded.{coded_ℕ, coded_list};
    ghost use Rattle.std.specs.FinMap.{code};
    ghost use Rattle.md_heaps.specs.Heaps.{Indices};
    ghost use Rattle.md_heaps.specs.Index.{indices_of};

    ghost Value = { Indices };

    ghost coded = { code (coded_list coded_ℕ) coded_ℕ };

    ghost view = { λ i. indices_of (map (λ t. map (λ e. (e.0.bytes.items, e.1)) t.entries) i.tables) };

    ghost invariant = { λ i. length i.tables ≡ 16 };
}

// The number of the table for a content: the top four bits of its hash.
fn table_of(content: &[u8]) -> usize
    ensures number { result ≡ table_of content.now }
    ensures within { result < 16 }
{
    let mut hasher = FoldHasher::default();
    hasher.write(content);
    (hasher.finish() / (1 << 60)) as usize
}

impl Index {
    /// An index of nothing.
    pub(crate) fn new(alloc: Global) -> Index
        ensures { result ≡ empty }
    {
        Index {
            tables: array::from_fn(|_| IndexMap::new(alloc)),
        }
    }

    /// The number of a content that is there.
    pub(crate) fn find(&self, content: &[u8]) -> Option<u32>
        ensures { result ≡ get self.now content.now }
    {
        let table = &self.tables[table_of(content)];
        table.get(Sought { bytes: content }).copied()
    }

    /// Adds a content that isn't there.
    pub(crate) fn add(&mut self, bytes: Vec<u8>, number: u32) -> Result<(), Memory>
        requires { get self.old bytes.items ≡ None }
        ensures added { OnOk result (self.new ≡ insert self.old bytes.items number) }
        ensures unchanged { OnErr result (self.new ≡ self.old) }
    {
        let table = &mut self.tables[table_of(bytes.as_slice())];
        table.insert(Content { bytes }, number)?;
        Ok(())
    }
}
