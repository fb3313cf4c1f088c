//! The fault of parsing as a refusal.

ghost use Rattle.std.specs.Prelude.{◌≡◌, ◌≤◌, length, None, Some, IfOk};
ghost use Rattle.wr_base.specs.Codes.{rank_of};
ghost use Rattle.midl_parse.specs.Entries.{code_of, end_of, entry_at, entry};

use midl_lex::Token;
use midl_words::Code;
use ranked::{Memory, Name, Place};
use std::alloc::Global;
use wr_base::Refusal;

fn code_of(code: Code) -> wr_base::Code
    ensures { result ≡ code_of code }
{
    match code {
        Code::Syntax => wr_base::Code::Syntax,
        Code::FloatType => wr_base::Code::FloatType,
        Code::UnknownAttribute => wr_base::Code::UnknownAttribute,
        Code::TooDeep => wr_base::Code::TooDeep,
    }
}

/// The offset just past the last token.
fn end_of(tokens: &[Token]) -> u32
    ensures { result ≡ end_of tokens.now }
{
    match tokens.last() {
        None => 0,
        Some(token) => token.end(),
    }
}

fn at_end(
    alloc: Global,
    file: u32,
    tokens: &[Token],
    code: wr_base::Code,
) -> Result<Refusal, Memory>
    ensures { IfOk result (λ refusal. refusal ≡ entry_at file (end_of tokens.now) (rank_of code) None) }
{
    let offset = end_of(tokens);
    let word = Name::from_ascii(alloc, b"end of file")?;
    let place = Place { file, offset };
    Ok(Refusal { place, code, word })
}

fn at_token(alloc: Global, file: u32, token: &Token, code: wr_base::Code) -> Result<Refusal, Memory>
    ensures { IfOk result (λ refusal. refusal ≡ entry_at file 0 (rank_of code) (Some token.now)) }
{
    let offset = token.offset();
    let word = Name::from_ascii(alloc, token.text())?;
    let place = Place { file, offset };
    Ok(Refusal { place, code, word })
}

/// The refusal of a fault that stands before the last tokens, so many.
pub(crate) fn refusal(
    alloc: Global,
    file: u32,
    tokens: &[Token],
    code: Code,
    left: usize,
) -> Result<Refusal, Memory>
    requires { left ≤ length tokens.now }
    ensures { IfOk result (λ refusal. refusal ≡ entry file tokens.now code left) }
{
    let code = code_of(code);
    match tokens.get(tokens.len() - left) {
        None => at_end(alloc, file, tokens, code),
        Some(token) => at_token(alloc, file, token, code),
    }
}
