// Named files in memory, which the stores in memory share.
ghost use Rattle.std.specs.Prelude.{◌≡◌, ◌≤◌, ◌++◌, OnOk, OnErr, length};
ghost use Rattle.std.specs.Option.{option_map, option_copied};
ghost use Rattle.std.specs.FinMap as map;
ghost use Rattle.wr_outside.specs.Files.{content_of, ReadsAt};

use std::alloc::{AllocError, Global};
use std::collections::BTreeMap;
use std::marker::Model;

/// Named files. Contracts see them as the finite map from the names' bytes to the files' bytes.
#[derive(Debug, Drop)]
pub struct NamedFiles {
    files: BTreeMap<String, Vec<u8>>,
}

impl Model for NamedFiles {
    ghost use Rattle.std.specs.Coded.{coded_ℕ, coded_list};
    ghost use Rattle.std.specs.FinMap as map;
    ghost use Rattle.wr_outside.specs.Files.{Files};

    ghost Value = { Files };

    ghost coded = { map.code (coded_list coded_ℕ) (coded_list coded_ℕ) };

    ghost use Rattle.wr_outside.specs.Named.{files_of};

    ghost view = { λ a. files_of a.files };
}

impl NamedFiles {
    /// No file.
    pub fn new(alloc: Global) -> NamedFiles
        ensures { result ≡ map.empty }
    {
        NamedFiles {
            files: BTreeMap::new(alloc),
        }
    }

    /// The bytes of a file, or None where the name isn't held.
    pub fn get(&self, name: &str) -> Option<&[u8]>
        ensures { option_copied result ≡ map.get self.now name.now }
    {
        match self.files.get(name) {
            Some(content) => Some(content.as_slice()),
            None => None,
        }
    }

    /// Holds a file of these bytes, in place of one of that name.
    pub fn insert(&mut self, alloc: Global, name: &str, bytes: Vec<u8>) -> Result<(), AllocError>
        ensures ok { OnOk result (self.new ≡ map.insert self.old name.now bytes.items) }
        ensures err { OnErr result (self.new ≡ self.old) }
    {
        let name = String::from_str(alloc, name)?;
        match self.files.insert(name, bytes) {
            Ok(_) => Ok(()),
            Err(_) => Err(AllocError),
        }
    }

    /// Puts bytes behind those of a file, which is made where the name isn't held.
    pub fn append(&mut self, alloc: Global, name: &str, bytes: &[u8]) -> Result<(), AllocError>
        ensures ok { OnOk result (self.new ≡ map.insert self.old name.now (content_of self.old name.now ++ bytes.now)) }
        ensures err { OnErr result (self.new ≡ self.old) }
    {
        match self.files.get_mut(name) {
            Some(content) => content.extend_from_slice(bytes)?,
            None => {
                let content = Vec::from_slice(alloc, bytes)?;
                self.insert(alloc, name, content)?;
            }
        }
        Ok(())
    }

    // The length of a file, or None where the name isn't held.
    pub(crate) fn size(&self, name: &str) -> Option<u64>
        ensures { result ≡ option_map length (map.get self.now name.now) }
    {
        match self.get(name) {
            Some(bytes) => Some(bytes.len() as u64),
            None => None,
        }
    }

    // Copies what the file has from there on, as far as there is room, and answers how much.
    pub(crate) fn read_at(&self, name: &str, at: u64, into: &mut [u8]) -> usize
        ensures fits { result ≤ length into.new }
        ensures told { ReadsAt (content_of self.now name.now) at into.new result }
    {
        let Some(bytes) = self.get(name) else {
            return 0;
        };
        if at >= bytes.len() as u64 {
            return 0;
        }
        let rest = &bytes[at as usize..];
        let count = rest.len().min(into.len());
        into[..count].copy_from_slice(&rest[..count]);
        count
    }
}
