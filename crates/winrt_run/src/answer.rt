// The status for the words of a call, over any store and sinks.
ghost use Rattle.winrt_run.specs.Answered.{Answered};
ghost use Rattle.wr_tools.specs.Outside.{Outside};

use crate::WordsRefusal;
use std::alloc::Global;
use wr_outside::{Sink, Store};
use wr_tools::winrt_tool;

/// Answers for the words that were read. Words that aren't text match no command; want of memory for them is 6.
pub fn answer<S: Store, O: Sink, E: Sink>(
    alloc: Global,
    words: Result<Vec<String>, WordsRefusal>,
    store: &mut S,
    out: &mut O,
    err: &mut E,
) -> u8
    ensures { let before : Outside = record {
      held = S.held store.old;
      out = O.told out.old;
      err = E.told err.old;
      store_faults = S.faults store.old;
      out_faults = O.faults out.old;
      err_faults = E.faults err.old;
    } in
        let after : Outside = record {
          held = S.held store.new;
          out = O.told out.new;
          err = E.told err.new;
          store_faults = S.faults store.new;
          out_faults = O.faults out.new;
          err_faults = E.faults err.new;
        } in
        Answered words before after result }
{
    match words {
        Ok(words) => winrt_tool(alloc, &words, store, out, err),
        Err(WordsRefusal::NotText) => winrt_tool(alloc, &Vec::new(alloc), store, out, err),
        Err(WordsRefusal::Memory) => 6,
    }
}
