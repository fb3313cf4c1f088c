// The tool as a process calls it.
ghost use Rattle.std.specs.Process.{exit_status};
ghost use Rattle.winrt_run.specs.Answered.{Ran};

use crate::answer::answer;
use crate::words::words_of;
use crate::{Disk, Stream};
use std::process::ExitCode;

/// Runs the tool on the words of the process over real files and the standard streams, and answers its status.
pub fn run(rt: &HostRuntime) -> ExitCode
    ensures { Ran (exit_status result) }
{
    let mut store = Disk::new(rt);
    let mut out = Stream::new(rt.stdout());
    let mut err = Stream::new(rt.stderr());
    let status = answer(rt.alloc(), words_of(rt), &mut store, &mut out, &mut err);
    ExitCode::from(status)
}
