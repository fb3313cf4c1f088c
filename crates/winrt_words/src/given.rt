//! What words give to a command whose form takes them.

ghost use Rattle.std.specs.Prelude.{◌≡◌, IfOk, IsErr, None, Ok, codes, is_some, map, string_bytes, option_map};
ghost use Rattle.clap.specs.Words.{found_of, kind_of, matched_of, raw_values, rows_of};
ghost use Rattle.clap.specs.declared.error.kind.ErrorKind.TheVariants.{OutOfMemory};
ghost use Rattle.winrt_words.specs.Forms.{files_form, takes};
ghost use Rattle.winrt_words.specs.Words.{names_by, names_in, names_seen};

use crate::form::takes_files;
use clap::error::ErrorKind;
use clap::{ArgMatches, Error};
use std::alloc::{AllocError, Global};

/// What `NAME -o OUT FILE..` gives its command.
#[derive(Debug, Drop)]
pub struct Given {
    /// The name of the file that is written.
    pub out: String,
    /// The names of the files that are read, in the order of the words.
    pub files: Vec<String>,
}

// Copies of the texts.
fn copied(alloc: Global, texts: &[&str]) -> Result<Vec<String>, AllocError>
    ensures { IfOk result (λ copies. map string_bytes copies.items ≡ map (λ text. text.now) texts.now) }
{
    let mut copies = Vec::new(alloc);
    for text in texts {
        copies.push(String::from_str(alloc, text)?)?;
    }
    Ok(copies)
}

fn given_of(alloc: Global, out: &str, files: &[&str]) -> Result<Given, AllocError>
    ensures { IfOk result (λ given. names_seen given ≡ (out.now, map (λ text. text.now) files.now)) }
{
    Ok(Given {
        out: String::from_str(alloc, out)?,
        files: copied(alloc, files)?,
    })
}

// What a parse found beside OUT, where it found the files.
fn given_with(
    alloc: Global,
    out: &str,
    matches: &ArgMatches<'_>,
) -> Result<Option<Given>, AllocError>
    ensures { IfOk result (λ given. option_map names_seen given ≡ option_map (λ files. (out.now, files)) (option_map raw_values (matched_of (found_of matches.now) (codes "files")))) }
{
    match matches.get_strs("files") {
        Some(files) => Ok(Some(given_of(alloc, out, files)?)),
        None => Ok(None),
    }
}

// What a parse found, where it found a value of `-o` and the files.
fn given_in(alloc: Global, matches: &ArgMatches<'_>) -> Result<Option<Given>, AllocError>
    ensures { IfOk result (λ given. option_map names_seen given ≡ names_in (rows_of (found_of matches.now))) }
{
    match matches.get_str("out") {
        Some(out) => given_with(alloc, out, matches),
        None => Ok(None),
    }
}

// A parse that failed: for want of memory, or by the words.
fn untaken(error: &Error) -> Result<Option<Given>, AllocError>
    ensures memory { kind_of error.now ≡ OutOfMemory → IsErr result }
    ensures words { ¬ (kind_of error.now ≡ OutOfMemory) → result ≡ Ok None }
    ensures none { IfOk result (λ given. given ≡ None) }
{
    if error.kind() == ErrorKind::OutOfMemory {
        Err(AllocError)
    } else {
        Ok(None)
    }
}

/// What the words give to the command of the form `NAME -o OUT FILE..`, or `None` where the form doesn't take them.
pub(crate) fn files_given<'a>(
    alloc: Global,
    name: &'a str,
    words: &'a [String],
) -> Result<Option<Given>, AllocError>
    ensures names { IfOk result (λ given. option_map names_seen given ≡ names_by (files_form name.entry.now) (map string_bytes words.entry.now)) }
    // Of words that the form takes OUT and the files were found.
    ensures taken { IfOk result (λ given. is_some given ≡ takes (files_form name.entry.now) (map string_bytes words.entry.now)) }
{
    match takes_files(alloc, name)?.try_get_matches_from(words) {
        Ok(matches) => given_in(alloc, &matches),
        Err(error) => untaken(&error),
    }
}
