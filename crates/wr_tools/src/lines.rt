//! The line of what refuses a union.

ghost use Rattle.std.specs.Prelude.{◌≡◌, ◌++◌, IfOk, codes, string_bytes};
ghost use Rattle.source_set.specs.Lines.{word_part};
ghost use Rattle.wr_tools.specs.Merge.{IsBrokenLine, IsMergeLine};

use md_merge::MergeRefusal;
use std::alloc::{AllocError, Global};
use wr_base::Refusal;

// `OUT: CODE`
fn head_of(alloc: Global, out: &str, code: &str) -> Result<String, AllocError>
    ensures { IfOk result (λ text. string_bytes text ≡ out.now ++ (codes ": " ++ code.now)) }
{
    format!(in alloc; "{out}: {code}")
}

// The text with the word behind it, where there is one.
fn with_word(mut text: String, word: &str) -> Result<String, AllocError>
    ensures { IfOk result (λ t. string_bytes t ≡ string_bytes text ++ word_part word.now) }
{
    if word.is_empty() {
        return Ok(text);
    }
    text.push_str(": ")?;
    text.push_str(word)?;
    Ok(text)
}

fn broken_line(alloc: Global, out: &str, refusal: &Refusal) -> Result<String, AllocError>
    ensures { IfOk result (λ line. IsBrokenLine out.now refusal.now (string_bytes line)) }
{
    let head = head_of(alloc, out, refusal.code.name())?;
    let mut text = with_word(head, refusal.word.as_str())?;
    text.push_str("\n")?;
    Ok(text)
}

fn conflict_line(alloc: Global, out: &str, name: &str) -> Result<String, AllocError>
    ensures { IfOk result (λ line. string_bytes line ≡ out.now ++ (codes ": Conflict: " ++ (name.now ++ codes "\n"))) }
{
    format!(in alloc; "{out}: Conflict: {name}\n")
}

/// `OUT: Conflict: NAME`, or `OUT: CODE: NAME` for a broken rule or limit, and a line feed.
pub(crate) fn merge_line(
    alloc: Global,
    out: &str,
    refusal: &MergeRefusal,
) -> Result<String, AllocError>
    ensures { IfOk result (λ line. IsMergeLine out.now refusal.now (string_bytes line)) }
{
    match refusal {
        MergeRefusal::Conflict(name) => conflict_line(alloc, out, name.as_str()),
        MergeRefusal::Broken(refusal) => broken_line(alloc, out, refusal),
    }
}
