// The store of real files, by their paths. It tells nothing, and counts what fails.
ghost use Rattle.std.specs.Prelude.{◌≡◌, None, Ok, IsErr, IfOk, length, ◌≤◌, ◌<◌};
ghost use Rattle.std.specs.Fs.{IsFile, file_type, metadata_len};
ghost use Rattle.std.specs.IoError.{error_kind};
ghost use Rattle.winrt_run.specs.Faults.{disk_faults};
ghost use Rattle.winrt_run.specs.Names.{is_no_name};
ghost use Rattle.wr_outside.specs.Cause.{Rose};

use crate::stream::write_some;
use std::fs::{self, File, Metadata, OpenOptions};
use std::io::{self, ErrorKind};
use std::os::unix::fs::FileExt;
use wr_outside::{Store, StoreFault};

/// The files of the system. Their names are paths from the folder in which the program runs.
#[derive(Drop)]
pub struct Disk<'a> {
    rt: &'a HostRuntime,
    // How often a call failed; it stays at its last value.
    faults: u64,
}

impl<'a> Disk<'a> {
    /// The files as the process sees them, with no fault yet.
    pub fn new(rt: &'a HostRuntime) -> Disk<'a>
        ensures { disk_faults result ≡ 0 }
    {
        Disk { rt, faults: 0 }
    }

    // Counts a fault.
    fn failed(&mut self) -> StoreFault
        ensures is { result ≡ StoreFault.Failed }
        ensures rose { Rose self.old.faults self.new.faults }
        ensures later { self.old.faults ≤ self.new.faults }
    {
        self.faults = self.faults.saturating_add(1);
        StoreFault::Failed
    }
}

// What no file can have as its name: one that leads through what is no folder, one that is too long, one with a byte 0.
fn names_nothing(error: &io::Error) -> bool
    ensures { result ≡ is_no_name (error_kind error.now) }
{
    matches!(
        error.kind(),
        ErrorKind::NotFound
            | ErrorKind::NotADirectory
            | ErrorKind::InvalidFilename
            | ErrorKind::InvalidInput
    )
}

// A file's own bytes have a length. What isn't a regular file, as a folder, a pipe or a device, has none, and isn't read.
fn length_in(facts: &Metadata) -> io::Result<u64>
    ensures file { IsFile (file_type facts.now) → result ≡ Ok (metadata_len facts.now) }
    ensures other { ¬ (IsFile (file_type facts.now)) → IsErr result }
{
    if facts.is_file() {
        Ok(facts.len())
    } else {
        Err(ErrorKind::Unsupported.into())
    }
}

fn length_of(rt: &HostRuntime, name: &str) -> io::Result<Option<u64>> {
    match fs::metadata(rt, name) {
        Ok(facts) => Ok(Some(length_in(&facts)?)),
        Err(error) if names_nothing(&error) => Ok(None),
        Err(error) => Err(error),
    }
}

// One call of the system. Where it gives 0 bytes before the end, that is a failure.
fn read_some(rt: &HostRuntime, name: &str, at: u64, into: &mut [u8]) -> io::Result<usize>
    ensures { IfOk result (λ n. n ≤ length into.new) }
{
    let Some(length) = length_of(rt, name)? else {
        return Ok(0);
    };
    if at >= length || into.is_empty() {
        return Ok(0);
    }
    let count = File::open(rt, name)?.read_at(into, at)?;
    if count == 0 {
        return Err(ErrorKind::UnexpectedEof.into());
    }
    Ok(count)
}

fn create_empty(rt: &HostRuntime, name: &str) -> io::Result<()> {
    let _file = fs::create(rt, name)?;
    Ok(())
}

fn append_some(rt: &HostRuntime, name: &str, bytes: &[u8]) -> io::Result<usize>
    ensures fits { IfOk result (λ n. n ≤ length bytes.now) }
    ensures some { IfOk result (λ n. 0 < length bytes.now → 0 < n) }
{
    let mut options = OpenOptions::new();
    options.append(true).create(true);
    let mut file = options.open(rt, name)?;
    write_some(&mut file, bytes)
}

impl Store for Disk<'_> {
    ghost held = { λ _. None };

    ghost faults = { λ s. s.faults };

    fn size(&mut self, name: &str) -> Result<Option<u64>, StoreFault> {
        match length_of(self.rt, name) {
            Ok(length) => Ok(length),
            Err(_) => Err(self.failed()),
        }
    }

    fn read_at(&mut self, name: &str, at: u64, into: &mut [u8]) -> Result<usize, StoreFault> {
        match read_some(self.rt, name, at, into) {
            Ok(count) => Ok(count),
            Err(_) => Err(self.failed()),
        }
    }

    fn create(&mut self, name: &str) -> Result<(), StoreFault> {
        match create_empty(self.rt, name) {
            Ok(()) => Ok(()),
            Err(_) => Err(self.failed()),
        }
    }

    fn append(&mut self, name: &str, bytes: &[u8]) -> Result<usize, StoreFault> {
        match append_some(self.rt, name, bytes) {
            Ok(count) => Ok(count),
            Err(_) => Err(self.failed()),
        }
    }
}
