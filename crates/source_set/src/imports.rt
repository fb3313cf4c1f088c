//! The files that a file imports.

ghost use Rattle.std.specs.Prelude.{◌≡◌, IfOk, OnOk, map};
ghost use Rattle.std.specs.List.{flat_map};
ghost use Rattle.midl_tree.specs.Views.{source_view};
ghost use Rattle.source_set.specs.Found.{with_name, with_names, once, first_names};
ghost use Rattle.source_set.specs.Imports.{behind_folder, text_of, texts_of, imported};

use crate::distinct::Distinct;
use crate::names::Names;
use crate::texts::{adds_file, behind_folder, unquoted};
use midl_tree::{File, Terminal};
use std::alloc::{AllocError, Global};

fn add_text(alloc: Global, texts: &mut Distinct, import: &Terminal) -> Result<(), AllocError>
    ensures { OnOk result (texts.new ≡ with_names texts.old (text_of import.now)) }
{
    let text = unquoted(import.as_str());
    if !adds_file(alloc, text)? {
        return Ok(());
    }
    texts.add(String::from_str(alloc, text)?)
}

fn add_group(alloc: Global, texts: &mut Distinct, group: &[Terminal]) -> Result<(), AllocError>
    ensures { OnOk result (texts.new ≡ with_names texts.old (flat_map text_of group.now)) }
{
    for import in group {
        add_text(alloc, texts, import)?;
    }
    Ok(())
}

/// The texts of the imports that add files, each once.
fn texts_of(alloc: Global, file: &File) -> Result<Distinct, AllocError>
    ensures { IfOk result (λ texts. texts ≡ once (texts_of (source_view file.now))) }
{
    let mut texts = Distinct::new(alloc);
    for group in &file.imports {
        add_group(alloc, &mut texts, group)?;
    }
    Ok(texts)
}

fn add_import(
    alloc: Global,
    names: &mut Names,
    importer: &str,
    text: &str,
) -> Result<(), AllocError>
    ensures { OnOk result (names.new ≡ first_names (with_name names.old (behind_folder importer.now text.now))) }
{
    if names.is_full() {
        return Ok(());
    }
    names.add(behind_folder(alloc, importer, text)?)
}

fn add_all(
    alloc: Global,
    names: &mut Names,
    importer: &str,
    texts: &Distinct,
) -> Result<(), AllocError>
    ensures { OnOk result (names.new ≡ first_names (with_names names.old (map (behind_folder importer.now) texts.now))) }
{
    if names.is_full() {
        return Ok(());
    }
    for place in 0..texts.len() {
        match texts.at(place) {
            Some(text) => add_import(alloc, names, importer, text)?,
            None => unreachable!(),
        }
    }
    Ok(())
}

/// Puts the names of the files that a file imports behind the others. A text that stands twice is a name once.
#[tactic(auto, unfolding(crate::specs::Imports::imported))]
pub(crate) fn add_imports(
    alloc: Global,
    names: &mut Names,
    importer: &str,
    file: &File,
) -> Result<(), AllocError>
    ensures { OnOk result (names.new ≡ first_names (with_names names.old (imported importer.now (source_view file.now)))) }
{
    if names.is_full() {
        return Ok(());
    }
    let texts = texts_of(alloc, file)?;
    add_all(alloc, names, importer, &texts)?;
    Ok(())
}
