//! The top call.

ghost use Rattle.std.specs.Prelude.{map, string_bytes};
ghost use Rattle.wr_tools.specs.Answers.{Answers};
ghost use Rattle.wr_tools.specs.Midl.{unmatched_command};
ghost use Rattle.wr_tools.specs.Outside.{Outside};
ghost use Rattle.wr_tools.specs.Words.{command_of};

use crate::run::run;
use crate::said::Said;
use crate::say::say;
use std::alloc::Global;
use winrt_words::command_of;
use wr_outside::{Sink, Store};

// Words that name no command.
fn unmatched<S: Store, O: Sink, E: Sink>(store: &mut S, out: &mut O, err: &mut E) -> u8
    ensures { let before : Outside = record {
      held = S.held store.old;
      out = O.told out.old;
      err = E.told err.old;
      store_faults = S.faults store.old;
      out_faults = O.faults out.old;
      err_faults = E.faults err.old;
    } in
        let after : Outside = record {
          held = S.held store.new;
          out = O.told out.new;
          err = E.told err.new;
          store_faults = S.faults store.new;
          out_faults = O.faults out.new;
          err_faults = E.faults err.new;
        } in
        Answers unmatched_command before after result }
{
    let _ = store;
    let _ = out;
    say(err, Said::Unmatched, "")
}

/// Runs the command that the words name, which don't hold the program's name, and answers its status.
pub fn winrt_tool<S: Store, O: Sink, E: Sink>(
    alloc: Global,
    words: &[String],
    store: &mut S,
    out: &mut O,
    err: &mut E,
) -> u8
    // What the call leaves is as a reply says that the command owes, and each fault has its cause.
    ensures { let before : Outside = record {
      held = S.held store.old;
      out = O.told out.old;
      err = E.told err.old;
      store_faults = S.faults store.old;
      out_faults = O.faults out.old;
      err_faults = E.faults err.old;
    } in
        let after : Outside = record {
          held = S.held store.new;
          out = O.told out.new;
          err = E.told err.new;
          store_faults = S.faults store.new;
          out_faults = O.faults out.new;
          err_faults = E.faults err.new;
        } in
        Answers (command_of (map string_bytes words.now)) before after result }
{
    match command_of(alloc, words) {
        Ok(Some(command)) => run(alloc, &command, store, out, err),
        Ok(None) => unmatched(store, out, err),
        Err(_) => 6,
    }
}
