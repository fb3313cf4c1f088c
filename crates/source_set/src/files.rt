//! The files of a source set.

ghost use Rattle.std.specs.Prelude.{◌≡◌, [], ◌∷◌, ◌++◌, IfOk, OnOk, length, map, string_bytes};
ghost use Rattle.source_set.specs.Lines.{IsRefusalLine};
ghost use Rattle.source_set.specs.Texts.{text_in};
ghost use Rattle.source_set.specs.Reads.{text_view};

use crate::lines::refusal_line;
use crate::source::{Source, Text};
use midl_tree::File;
use std::alloc::{AllocError, Global};
use wr_base::Refusal;

/// The files of a set in their order: the text of each, and at the same place its tree.
#[derive(Debug, Drop)]
pub struct SourceSet {
    pub texts: Vec<Text>,
    pub files: Vec<File>,
}

impl SourceSet {
    pub(crate) fn new(alloc: Global) -> SourceSet
        ensures texts { result.texts.items ≡ [] }
        ensures files { result.files.items ≡ [] }
    {
        SourceSet {
            texts: Vec::new(alloc),
            files: Vec::new(alloc),
        }
    }

    /// Puts a file behind the others.
    pub(crate) fn add(&mut self, source: Source) -> Result<(), AllocError>
        ensures texts { OnOk result (self.new.texts.items ≡ self.old.texts.items ++ source.text ∷ []) }
        ensures files { OnOk result (self.new.files.items ≡ self.old.files.items ++ source.file ∷ []) }
    {
        let Source { text, file } = source;
        self.texts.push(text)?;
        self.files.push(file)?;
        Ok(())
    }
}

/// The line that a refusal puts on err, which stands in one of these texts by its number.
pub fn line_of(alloc: Global, texts: &[Text], refusal: &Refusal) -> Result<String, AllocError>
    ensures { IfOk result (λ line. let text = text_in (map text_view texts.now) refusal.now.file in IsRefusalLine text.0 text.1 refusal.now (string_bytes line)) }
{
    match texts.get(refusal.place.file as usize) {
        Some(text) => refusal_line(alloc, text.name.as_str(), &text.bytes, refusal),
        None => refusal_line(alloc, "", &[], refusal),
    }
}
