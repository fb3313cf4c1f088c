//! Putting what is said on err.

ghost use Rattle.std.specs.Prelude.{◌≡◌, ◌≤◌, ◌++◌};
ghost use Rattle.wr_tools.specs.Said.{status_said, text_said};
ghost use Rattle.wr_tools.specs.Says.{Says};

use crate::said::Said;
use wr_outside::{Sink, SinkFault, put_all};

/// Puts a name and what is said of it on the sink and answers the status; or 5 where the sink fails, or 6 for want of memory.
pub(crate) fn say<E: Sink>(err: &mut E, said: Said, name: &str) -> u8
    ensures says { Says (E.told err.old) (E.told err.new) (E.faults err.old) (E.faults err.new)
        (status_said said) (name.now ++ text_said said) result }
    ensures later { E.faults err.old ≤ E.faults err.new }
{
    match put_all(err, name.as_bytes()) {
        Ok(()) => {}
        Err(SinkFault::Failed) => return 5,
        Err(SinkFault::Memory) => return 6,
    }
    match put_all(err, said.text().as_bytes()) {
        Ok(()) => said.status(),
        Err(SinkFault::Failed) => 5,
        Err(SinkFault::Memory) => 6,
    }
}
