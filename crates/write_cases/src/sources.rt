//! The image of what files declare.

ghost use Rattle.std.specs.Prelude.{IfOk};
ghost use Rattle.placed_items.specs.Items.{NamesApart};

use case_text::bytes_of;
use class_synthesis::full;
use midl_lex::{Token, tokens};
use midl_names::resolve;
use midl_parse::parse;
use midl_tree::File;
use placed_items::Placed;
use std::alloc::Global;
use winmd_write::image_of;
use wr_base::{PlacedTypes, Refusal, Stop};

/// An answer, or what refuses it.
pub type Answer<T> = Result<T, Stop<Refusal>>;

// No source is longer than 4 MiB.
fn tokens_of(alloc: Global, file: u32, bytes: &[u8]) -> Answer<Vec<Token>> {
    if bytes.len() > 4_194_304 {
        return Err(Stop::Memory);
    }
    tokens(alloc, file, bytes)
}

fn file_of(alloc: Global, number: u32, text: &str) -> Answer<File> {
    let bytes = bytes_of(alloc, text)?;
    parse(alloc, number, &tokens_of(alloc, number, &bytes)?)
}

fn push_files(files: &mut Vec<File>, alloc: Global, case: &str) -> Answer<()> {
    let mut number = 0u32;
    for text in case.split('|') {
        files.push(file_of(alloc, number, text)?)?;
        number = number.wrapping_add(1);
    }
    Ok(())
}

fn declared_by(alloc: Global, case: &str) -> Answer<Placed>
    ensures apart { IfOk result NamesApart }
{
    let mut files = Vec::new(alloc);
    if !case.is_empty() {
        push_files(&mut files, alloc, case)?;
    }
    resolve(alloc, files)
}

fn types_of(alloc: Global, case: &str) -> Answer<PlacedTypes> {
    full(alloc, declared_by(alloc, case)?)
}

/// The image of the full types of files.
pub fn image(alloc: Global, case: &str) -> Answer<Vec<u8>> {
    let types = types_of(alloc, case)?;
    Ok(image_of(alloc, &types.types)?)
}
