//! The program `winrt` once more, for a stored run whose file isn't there: it ends with 3, and nothing stands on the standard output.
#![tactic(auto)]

use std::process::ExitCode;

fn main(rt: HostRuntime) -> ExitCode {
    winrt_run::run(&rt)
}
