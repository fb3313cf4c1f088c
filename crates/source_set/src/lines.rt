//! The line that a refusal puts on err.

ghost use Rattle.std.specs.Prelude.{◌≡◌, ◌++◌, ◌+◌, ◌==◌, IfOk, string_bytes, length, count_by};
ghost use Rattle.wr_base.specs.Parts.{behind_last};
ghost use Rattle.source_set.specs.Lines.{head_of, word_part, IsRefusalLine};

use std::alloc::{AllocError, Global};
use wr_base::Refusal;

/// The line and the column behind the bytes, both from 1.
fn position_behind(bytes: &[u8]) -> (usize, usize)
    ensures line { result.0 ≡ count_by (λ b. b == 10) bytes.now + 1 }
    ensures column { result.1 ≡ length (behind_last 10 bytes.now) + 1 }
{
    let mut line = 1;
    let mut column = 1;
    for byte in bytes {
        if *byte == b'\n' {
            line += 1;
            column = 1;
        } else {
            column += 1;
        }
    }
    (line, column)
}

/// The line up to its code.
fn head_of(
    alloc: Global,
    name: &str,
    line: usize,
    column: usize,
    code: &str,
) -> Result<String, AllocError>
    ensures { IfOk result (λ text. string_bytes text ≡ head_of name.now line column code.now) }
{
    format!(in alloc; "{name}({line},{column}): {code}")
}

/// The text with the word behind it, where there is one.
fn with_word(mut text: String, word: &str) -> Result<String, AllocError>
    ensures { IfOk result (λ t. string_bytes t ≡ string_bytes text ++ word_part word.now) }
{
    if word.is_empty() {
        return Ok(text);
    }
    text.push_str(": ")?;
    text.push_str(word)?;
    Ok(text)
}

/// `NAME(LINE,COL): CODE: WORD` and a line feed, without `: WORD` where the refusal has no word. `bytes` are those of the file.
pub fn refusal_line(
    alloc: Global,
    name: &str,
    bytes: &[u8],
    refusal: &Refusal,
) -> Result<String, AllocError>
    ensures { IfOk result (λ line. IsRefusalLine name.now bytes.now refusal.now (string_bytes line)) }
{
    let offset = bytes.len().min(refusal.place.offset as usize);
    let (line, column) = position_behind(&bytes[..offset]);
    let head = head_of(alloc, name, line, column, refusal.code.name())?;
    let mut text = with_word(head, refusal.word.as_str())?;
    text.push_str("\n")?;
    Ok(text)
}
