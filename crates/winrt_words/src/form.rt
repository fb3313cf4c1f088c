//! The forms of the commands' words, as commands of `clap`.

ghost use Rattle.std.specs.Prelude.{◌≡◌, IfOk, None, false};
ghost use Rattle.clap.specs.Words.{IsPlainArg, app_of, rule_of};
ghost use Rattle.winrt_words.specs.Forms.{FindsBoth, files_form, files_rule, out_rule};

use clap::{Arg, ArgAction, Command};
use std::alloc::{AllocError, Global};

// `-o OUT`
fn out_option<'a>(alloc: Global) -> Arg<'a>
    ensures rule { rule_of result ≡ out_rule }
    ensures local { result.global ≡ false }
    ensures plain { IsPlainArg result }
    ensures whole { result.val_delim ≡ None }
{
    Arg::new(alloc, "out")
        .short('o')
        .action(ArgAction::Set)
        .required(true)
}

// `FILE..`
fn file_words<'a>(alloc: Global) -> Arg<'a>
    ensures rule { rule_of result ≡ files_rule }
    ensures local { result.global ≡ false }
    ensures plain { IsPlainArg result }
{
    Arg::new(alloc, "files").num_args(1..).required(true)
}

/// `NAME -o OUT FILE..`
pub(crate) fn takes_files<'a>(alloc: Global, name: &'a str) -> Result<Command<'a>, AllocError>
    ensures form { IfOk result (λ command. app_of command ≡ files_form name.entry.now) }
    ensures both { IfOk result FindsBoth }
{
    let named = Command::new(alloc, name);
    let writes = named.arg(out_option(alloc))?;
    let reads = writes.arg(file_words(alloc))?;
    Ok(reads)
}
