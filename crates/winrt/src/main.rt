//! The program `winrt`: the tools over the words of the call, real files and the standard streams.
#![tactic(auto)]

use std::process::ExitCode;

fn main(rt: HostRuntime) -> ExitCode {
    winrt_run::run(&rt)
}
