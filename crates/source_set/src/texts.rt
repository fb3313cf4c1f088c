//! Texts of imports.

ghost use Rattle.std.specs.Prelude.{◌≡◌, IfOk, codes, reverse, string_bytes};
ghost use Rattle.std.specs.Bool.{nat_eq};
ghost use Rattle.std.specs.List.{starts_with, ends_with};
ghost use Rattle.wr_base.specs.Parts.{behind_last};
ghost use Rattle.source_set.specs.Imports.{without_first, unquoted, is_known, is_known_small, adds_file, behind_folder};

use std::alloc::{AllocError, Global};

fn without_first(text: &str) -> &str
    ensures { result.now ≡ without_first 34 text.now }
{
    match text.strip_prefix('"') {
        Some(body) => body,
        None => text,
    }
}

fn without_last(text: &str) -> &str
    ensures { result.now ≡ reverse (without_first 34 (reverse text.now)) }
{
    match text.strip_suffix('"') {
        Some(body) => body,
        None => text,
    }
}

/// A text without the quotation marks at its ends.
#[tactic(auto, unfolding(crate::specs::Imports::unquoted))]
pub(crate) fn unquoted(text: &str) -> &str
    ensures { result.now ≡ unquoted text.now }
{
    without_last(without_first(text))
}

fn last_part(text: &str) -> &str
    ensures { result.now ≡ behind_last 47 text.now }
{
    match text.rsplit_once('/') {
        Some((_, part)) => part,
        None => text,
    }
}

fn begins_windows(small: &str) -> bool
    ensures { result ≡ starts_with nat_eq small.now (codes "windows.") }
{
    small.starts_with("windows.")
}

fn ends_idl(small: &str) -> bool
    ensures { result ≡ ends_with nat_eq small.now (codes ".idl") }
{
    small.ends_with(".idl")
}

fn is_known_small(small: &str) -> bool
    ensures { result ≡ is_known_small small.now }
{
    small == "inspectable.idl"
        || (small == "unknwn.idl" || (begins_windows(small) && ends_idl(small)))
}

#[tactic(auto, unfolding(crate::specs::Imports::is_known))]
fn is_known(alloc: Global, part: &str) -> Result<bool, AllocError>
    ensures { IfOk result (λ known. known ≡ is_known part.now) }
{
    let small = part.to_ascii_lowercase(alloc)?;
    Ok(is_known_small(small.as_str()))
}

/// Whether the import of the text adds a file.
pub(crate) fn adds_file(alloc: Global, text: &str) -> Result<bool, AllocError>
    ensures { IfOk result (λ adds. adds ≡ adds_file text.now) }
{
    Ok(!is_known(alloc, last_part(text))?)
}

/// The name that the text has behind the folder of the importing file.
pub(crate) fn behind_folder(alloc: Global, importer: &str, text: &str) -> Result<String, AllocError>
    ensures { IfOk result (λ name. string_bytes name ≡ behind_folder importer.now text.now) }
{
    match importer.rsplit_once('/') {
        Some((folder, _)) => {
            let mut name = String::from_str(alloc, folder)?;
            name.push('/')?;
            name.push_str(text)?;
            Ok(name)
        }
        None => String::from_str(alloc, text),
    }
}
