//! `names SOURCE|SOURCE ..` prints what files declare, or the first fault of their names.

ghost use Rattle.std.specs.Prelude.{IfOk};
ghost use Rattle.placed_items.specs.Items.{NamesApart};

use crate::lexing::{push_stop, tokens_of};
use crate::set_text::placed_text;
use case_text::bytes_of;
use midl_names::resolve;
use midl_parse::parse;
use midl_tree::File;
use placed_items::Placed;
use std::alloc::{AllocError, Global};
use wr_base::{Refusal, Stop};

/// An answer, or what refuses it.
pub type Answer<T> = Result<T, Stop<Refusal>>;

fn file_of(alloc: Global, number: u32, text: &str) -> Answer<File> {
    let bytes = bytes_of(alloc, text)?;
    parse(alloc, number, &tokens_of(alloc, number, &bytes)?)
}

fn push_files(files: &mut Vec<File>, alloc: Global, case: &str) -> Answer<()> {
    let mut number = 0u32;
    for text in case.split('|') {
        files.push(file_of(alloc, number, text)?)?;
        number = number.wrapping_add(1);
    }
    Ok(())
}

/// What files declare.
pub fn declared_by(alloc: Global, case: &str) -> Answer<Placed>
    ensures apart { IfOk result NamesApart }
{
    let mut files = Vec::new(alloc);
    if !case.is_empty() {
        push_files(&mut files, alloc, case)?;
    }
    resolve(alloc, files)
}

/// The items, or the refusal.
pub fn names(out: &mut String, case: &str) -> Result<(), AllocError> {
    match declared_by(*out.allocator(), case) {
        Ok(placed) => placed_text(out, &placed),
        Err(stop) => push_stop(out, &stop),
    }
}
