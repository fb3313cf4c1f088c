//! The commands: what each comes to is said, or written.

ghost use Rattle.std.specs.Prelude.{◌≡◌, ◌≤◌, IfOk};
ghost use Rattle.winrt_words.specs.Words.{command_seen};
ghost use Rattle.wr_outside.specs.Cause.{Rose};
ghost use Rattle.wr_tools.specs.Answers.{Answers};
ghost use Rattle.wr_tools.specs.Outcomes.{OutcomeIs, IsReadFault};
ghost use Rattle.wr_tools.specs.Outside.{Outside};
ghost use Rattle.wr_tools.specs.Words.{command_for, out_of};

use crate::merging::merged;
use crate::outcome::{Outcome, compiled};
use crate::said::Said;
use crate::say::say;
use std::alloc::Global;
use winrt_words::Command;
use wr_base::Memory;
use wr_outside::{Sink, Store, StoreFault, write_whole};

// The file that the command writes.
fn out_of(command: &Command) -> &str
    ensures { result.now ≡ out_of (command_seen command.now) }
{
    match command {
        Command::Midl(given) => given.out.as_str(),
        Command::MdMerge(given) => given.out.as_str(),
    }
}

// What the command comes to before anything is written or said.
fn outcome_of<S: Store>(alloc: Global, command: &Command, store: &mut S) -> Result<Outcome, Memory>
    ensures is { IfOk result (OutcomeIs (command_seen command.now) (S.held store.old)) }
    ensures kept { S.held store.new ≡ S.held store.old }
    ensures later { S.faults store.old ≤ S.faults store.new }
    ensures rose { IfOk result (λ outcome. IsReadFault outcome → Rose (S.faults store.old) (S.faults store.new)) }
{
    match command {
        Command::Midl(given) => compiled(alloc, &given.files, store),
        Command::MdMerge(given) => merged(alloc, given.out.as_str(), &given.files, store),
    }
}

/// Does what the command asks, and answers the status.
pub(crate) fn run<S: Store, O: Sink, E: Sink>(
    alloc: Global,
    command: &Command,
    store: &mut S,
    out: &mut O,
    err: &mut E,
) -> u8
    ensures { let before : Outside = record {
      held = S.held store.old;
      out = O.told out.old;
      err = E.told err.old;
      store_faults = S.faults store.old;
      out_faults = O.faults out.old;
      err_faults = E.faults err.old;
    } in
        let after : Outside = record {
          held = S.held store.new;
          out = O.told out.new;
          err = E.told err.new;
          store_faults = S.faults store.new;
          out_faults = O.faults out.new;
          err_faults = E.faults err.new;
        } in
        Answers (command_for (command_seen command.now)) before after result }
{
    let _ = out;
    match outcome_of(alloc, command, store) {
        Err(_) => 6,
        Ok(Outcome::Refused(said, name)) => say(err, said, name.as_str()),
        Ok(Outcome::ReadFault(name)) => say(err, Said::ReadFault, name.as_str()),
        Ok(Outcome::Image(bytes)) => match write_whole(store, out_of(command), &bytes) {
            Ok(()) => 0,
            Err(StoreFault::Failed) => say(err, Said::WriteFault, out_of(command)),
            Err(StoreFault::Memory) => 6,
        },
    }
}
