//! Calls of the store of real files. A store is made for each line, so what a line leaves is what the folder has.

use std::alloc::{AllocError, Global};
use winrt_run::Disk;
use wr_outside::Store;

/// `size NAME`
pub fn size(alloc: Global, disk: &mut Disk, name: &str) -> Result<String, AllocError> {
    let size = disk.size(name);
    format!(in alloc; "{size:?}")
}

/// `read AT NAME` reads at most four bytes from there on, and prints them behind the answer.
pub fn read(alloc: Global, disk: &mut Disk, case: &str) -> Result<String, AllocError> {
    let (at, name) = case.split_once(' ').unwrap_or(("", case));
    let mut into = [0u8; 4];
    let count = disk.read_at(name, at.parse().unwrap_or(0), &mut into);
    let filled = count.unwrap_or(0).min(into.len());
    let bytes = std::str::from_utf8(&into[..filled]).unwrap_or("?");
    format!(in alloc; "{count:?} {bytes:?}")
}

/// `create NAME`
pub fn create(alloc: Global, disk: &mut Disk, name: &str) -> Result<String, AllocError> {
    let made = disk.create(name);
    format!(in alloc; "{made:?}")
}

/// `append NAME TEXT`
pub fn append(alloc: Global, disk: &mut Disk, case: &str) -> Result<String, AllocError> {
    let (name, text) = case.split_once(' ').unwrap_or((case, ""));
    let count = disk.append(name, text.as_bytes());
    format!(in alloc; "{count:?}")
}
