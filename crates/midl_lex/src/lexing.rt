//! All tokens of the bytes, or the first fault.

ghost use Rattle.std.specs.Prelude.{◌≡◌, ◌≤◌, ◌<◌, ◌^◌, ◌+◌, ◌++◌, List, ℕ, Option, Some, None, length, IfOk, IfErr};
ghost use Rattle.midl_lex.specs.declared.fault.Fault.{Fault};
ghost use Rattle.midl_lex.specs.Lexemes.{IsLexeme};
ghost use Rattle.midl_lex.specs.Pieces.{Piece};
ghost use Rattle.midl_lex.specs.Tokens.{token_if, mark_len, excess, Lexes};
ghost use Rattle.std.specs.Str.{IsUtf8};
ghost use Rattle.midl_lex.specs.Next.{fault_of, next};
ghost use Rattle.midl_lex.specs.Faults.{FirstFault, RefusedFirst, Reads, Refuses, entry};

use crate::fault::refusal;
use crate::numbers::try_number_value;
use crate::scan::scan;
use crate::{Fault, LexemeKind, Token, TokenKind};
use std::alloc::{AllocError, Global};
use wr_base::{Refusal, Stop};

/// What is wrong where no lexeme stands.
fn fault_of(rest: &[u8]) -> Fault
    ensures { result ≡ fault_of rest.now }
{
    match rest {
        [b'"', ..] => Fault::OpenText,
        [b'/', b'*', ..] => Fault::OpenComment,
        _ => Fault::BadChar,
    }
}

/// What is too much about a lexeme.
fn excess(kind: LexemeKind, text: &[u8]) -> Option<Fault>
    ensures { result ≡ excess kind text.now }
{
    match kind {
        LexemeKind::Token(TokenKind::Word) => {
            if 255 < text.len() {
                return Some(Fault::LongName);
            }
            None
        }
        LexemeKind::Token(TokenKind::Number) => match try_number_value(text) {
            Some(_) => None,
            None => Some(Fault::WideNumber),
        },
        LexemeKind::Token(TokenKind::Guid | TokenKind::Text | TokenKind::Mark)
        | LexemeKind::White
        | LexemeKind::LineComment
        | LexemeKind::BlockComment => None,
    }
}

/// The lexeme at the front, as its kind and its length, or what is wrong there.
fn next_lexeme(rest: &[u8]) -> Result<(LexemeKind, usize), Fault>
    ensures value { result ≡ next rest.now }
    ensures within { IfOk result (λ l. l.1 ≤ length rest.now) }
{
    let Some((kind, len)) = scan(rest) else {
        return Err(fault_of(rest));
    };
    match excess(kind, &rest[..len]) {
        None => Ok((kind, len)),
        Some(fault) => Err(fault),
    }
}

/// The tokens, and the lexeme where it is one.
fn with_lexeme<'a>(
    mut found: Vec<Token<'a>>,
    offset: u32,
    kind: LexemeKind,
    text: &'a [u8],
) -> Result<Vec<Token<'a>>, AllocError>
    requires is { IsLexeme kind text.now }
    requires fits { excess kind text.now ≡ None }
    requires ends { offset + length text.now < 2 ^ 32 }
    ensures { IfOk result (λ v. v.items ≡ found.entry.items ++ token_if offset kind text.entry.now) }
{
    match kind {
        LexemeKind::White | LexemeKind::LineComment | LexemeKind::BlockComment => Ok(found),
        LexemeKind::Token(kind) => {
            found.push(Token::new(offset, kind, text))?;
            Ok(found)
        }
    }
}

/// The length of the byte order mark at the front.
fn mark_len(bytes: &[u8]) -> usize
    ensures value { result ≡ mark_len bytes.now }
    ensures within { result ≤ length bytes.now }
{
    match bytes {
        [a, b, c, ..] => {
            if *a == 0xEF && (*b == 0xBB && *c == 0xBF) {
                return 3;
            }
            0
        }
        _ => 0,
    }
}

fn cut_all<'a>(alloc: Global, file: u32, bytes: &'a [u8]) -> Result<Vec<Token<'a>>, Stop<Refusal>>
    requires short { length bytes.now < 2 ^ 32 }
    requires utf8 { IsUtf8 bytes.now }
    ensures ok { IfOk result (λ v. Lexes bytes.now v.items) }
    ensures refused { IfErr result (λ stop. RefusedFirst file bytes.now stop) }
{
    let mut found = Vec::new(alloc);
    let start = mark_len(bytes);
    let mut offset = start as u32;
    let mut rest = &bytes[start..];
    'more: while !rest.is_empty() {
        match next_lexeme(rest) {
            Err(fault) => return Err(Stop::Refused(refusal(alloc, file, offset, fault))),
            Ok((kind, len)) => {
                let (text, after) = rest.split_at(len);
                found = with_lexeme(found, offset, kind, text)?;
                offset += len as u32;
                rest = after;
            }
        }
    }
    Ok(found)
}

/// The tokens of the bytes of a file, or the first lexical fault.
pub fn tokens<'a>(
    alloc: Global,
    file: u32,
    bytes: &'a [u8],
) -> Result<Vec<Token<'a>>, Stop<Refusal>>
    requires { length bytes.now ≤ 4194304 }
    // The bytes are cut into the longest lexemes, and these are the tokens among them.
    ensures ok { IfOk result (λ v. Lexes bytes.now v.items) }
    // Bytes that are cut so are read, unless memory runs out.
    ensures only { (pieces : List Piece) → Lexes bytes.now pieces → Reads pieces result }
    // A refusal is the first fault.
    ensures refused { IfErr result (λ stop. RefusedFirst file bytes.now stop) }
    // The first fault is refused, unless memory runs out.
    ensures first { (offset : ℕ) (fault : Fault) → FirstFault bytes.now offset fault → Refuses (entry file offset fault) result }
{
    match std::str::from_utf8(bytes) {
        Ok(_) => cut_all(alloc, file, bytes),
        Err(error) => {
            let offset = error.valid_up_to() as u32;
            Err(Stop::Refused(refusal(alloc, file, offset, Fault::NotUtf8)))
        }
    }
}
