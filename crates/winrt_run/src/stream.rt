// A standard stream as a sink. It tells nothing, and counts what fails.
ghost use Rattle.std.specs.Prelude.{◌≡◌, None, IfOk, length, ◌≤◌, ◌<◌};
ghost use Rattle.winrt_run.specs.Faults.{stream_faults};

use std::io::{self, ErrorKind, Write};
use wr_outside::{Sink, SinkFault};

/// One call of the writer. Where it takes 0 bytes of some, that is a failure.
pub fn write_some<W: Write>(to: &mut W, bytes: &[u8]) -> io::Result<usize>
    ensures fits { IfOk result (λ n. n ≤ length bytes.now) }
    ensures some { IfOk result (λ n. 0 < length bytes.now → 0 < n) }
{
    if bytes.is_empty() {
        return Ok(0);
    }
    let count = to.write(bytes)?;
    if count == 0 {
        return Err(ErrorKind::WriteZero.into());
    }
    Ok(count)
}

/// A writer, as the standard output is one.
#[derive(Drop)]
pub struct Stream<W> {
    to: W,
    // How often a call failed; it stays at its last value.
    faults: u64,
}

impl<W: Write> Stream<W> {
    /// A sink over this writer, with no fault yet.
    pub fn new(to: W) -> Stream<W>
        ensures { stream_faults result ≡ 0 }
    {
        Stream { to, faults: 0 }
    }
}

impl<W: Write> Sink for Stream<W> {
    ghost told = { λ _. None };

    ghost faults = { λ s. s.faults };

    fn put(&mut self, bytes: &[u8]) -> Result<usize, SinkFault> {
        match write_some(&mut self.to, bytes) {
            Ok(count) => Ok(count),
            Err(_) => {
                self.faults = self.faults.saturating_add(1);
                Err(SinkFault::Failed)
            }
        }
    }
}
