//! The names of templates, which end with the number of arguments.

ghost use Rattle.std.specs.Prelude.{◌≡◌, IfOk, option_map, string_bytes};
ghost use Rattle.sig_blobs.specs.Given.{Gives};
ghost use Rattle.sig_blobs.specs.Templates as templates;
ghost use Rattle.sig_blobs.specs.Uses as uses;

use crate::faults::flaw_at;
use crate::flaw::Flaw;
use crate::names::path;
use md_schema::ImageKind;
use ranked::{Memory, Stop};
use std::alloc::Global;
use wr_base::FullName;

#[tactic(auto, using(crate::proofs::TemplateLaws::decimal_is))]
fn suffix(alloc: Global, count: usize) -> Result<String, Memory>
    ensures { IfOk result (λ text. string_bytes text ≡ templates.suffix count) }
{
    format!(in alloc; "`{count}")
}

// The text without what it ends with, if it does.
fn stripped<'a>(end: &str, text: &'a str) -> Option<&'a str>
    ensures { option_map (λ x. x.now) result ≡ uses.stripped end.now text.now }
{
    text.strip_suffix(end)
}

/// The name of a template that takes so many arguments.
pub fn template(alloc: Global, name: &FullName, count: usize) -> Result<String, Memory>
    ensures { IfOk result (λ text. string_bytes text ≡ templates.template name.now count) }
{
    let mut text = String::from_str(alloc, name.as_str())?;
    let end = suffix(alloc, count)?;
    text.push_str(end.as_str())?;
    Ok(text)
}

/// The name of a template without the number of arguments; its token is at the front of these bytes.
pub(crate) fn without_count(
    alloc: Global,
    bytes: &[u8],
    count: u32,
    name: &str,
) -> Result<FullName, Stop<Flaw>>
    ensures { Gives (λ x. x) result (uses.without_count bytes.now count name.now) }
{
    if count == 0 {
        return Err(flaw_at(ImageKind::SigElement, bytes));
    }
    let end = suffix(alloc, count as usize)?;
    match stripped(end.as_str(), name) {
        Some(name) => path(alloc, bytes, name),
        None => Err(flaw_at(ImageKind::SigElement, bytes)),
    }
}
