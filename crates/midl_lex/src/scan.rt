//! The longest lexeme at the front.

ghost use Rattle.std.specs.Prelude.{◌≡◌, ◌+◌};
ghost use Rattle.midl_lex.specs.Bytes.{is_word, run};
ghost use Rattle.midl_lex.specs.Scan.{class_of, scan_text, scan_plain, scan};

use crate::bytes::{Run, run_of};
use crate::comments::scan_slash;
use crate::guids::begins_guid;
use crate::numbers::number_len;
use crate::{LexemeKind, TokenKind};

/// What a byte begins.
#[derive(Clone, Copy, Debug, PartialEq, Eq)]
pub enum ByteClass {
    White,
    Slash,
    Letter,
    Digit,
    Quote,
    Mark,
    Other,
}

fn class_of(byte: u8) -> ByteClass
    ensures { result ≡ class_of byte }
{
    match byte {
        b' ' | b'\t' | b'\r' | b'\n' => ByteClass::White,
        b'/' => ByteClass::Slash,
        b'a'..=b'z' | b'A'..=b'Z' | b'_' => ByteClass::Letter,
        b'0'..=b'9' => ByteClass::Digit,
        b'"' => ByteClass::Quote,
        b'{'
        | b'}'
        | b'('
        | b')'
        | b'['
        | b']'
        | b'<'
        | b'>'
        | b','
        | b';'
        | b':'
        | b'.'
        | b'='
        | b'-' => ByteClass::Mark,
        _ => ByteClass::Other,
    }
}

fn name_len(after: &[u8]) -> usize
    ensures { result ≡ run is_word after.now + 1 }
{
    run_of(Run::Word, after) + 1
}

fn scan_text(after: &[u8]) -> Option<(LexemeKind, usize)>
    ensures { result ≡ scan_text after.now }
{
    let plain = run_of(Run::Plain, after);
    match &after[plain..] {
        [b'"', ..] => Some((LexemeKind::Token(TokenKind::Text), plain + 2)),
        _ => None,
    }
}

fn scan_plain(bytes: &[u8]) -> Option<(LexemeKind, usize)>
    ensures { result ≡ scan_plain bytes.now }
{
    match bytes {
        [] => None,
        [first, after @ ..] => match class_of(*first) {
            ByteClass::White => Some((LexemeKind::White, 1)),
            ByteClass::Slash => scan_slash(after),
            ByteClass::Letter => Some((LexemeKind::Token(TokenKind::Word), name_len(after))),
            ByteClass::Digit => Some((LexemeKind::Token(TokenKind::Number), number_len(bytes))),
            ByteClass::Quote => scan_text(after),
            ByteClass::Mark => Some((LexemeKind::Token(TokenKind::Mark), 1)),
            ByteClass::Other => None,
        },
    }
}

/// The longest lexeme at the front, as its kind and its length.
#[tactic(auto, unfolding(crate::specs::Scan::scan))]
pub(crate) fn scan(bytes: &[u8]) -> Option<(LexemeKind, usize)>
    ensures { result ≡ scan bytes.now }
{
    if begins_guid(bytes) {
        return Some((LexemeKind::Token(TokenKind::Guid), 36));
    }
    scan_plain(bytes)
}
