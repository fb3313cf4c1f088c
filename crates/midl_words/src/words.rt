//! Which kind of token a word or a mark is.

ghost use Rattle.std.specs.Prelude.{◌≡◌, IfOk, map};
ghost use Rattle.std.specs.Str.{IsAscii};
ghost use Rattle.midl_words.specs.Words.{is_base, base_by, is_float, kind_of_type, kind_of_name, kind_within, kind_of_word, kind_of_byte, kind_of_mark, kind_by, text_by, terminal_of};

use midl_lex::{Token, TokenKind};
use midl_tree::{Kind, Terminal};
use ranked::{Memory, Name};
use std::alloc::Global;
use wr_base::Base;

fn is_base(word: &str) -> bool
    ensures { result ≡ is_base word.now }
{
    Base::from_word(word).is_some()
}

/// The fundamental type of a word of the kind `Base`.
pub fn base_by(word: &str) -> Base
    ensures { result ≡ base_by word.now }
{
    match Base::from_word(word) {
        None => Base::Object,
        Some(base) => base,
    }
}

fn is_float(word: &str) -> bool
    ensures { result ≡ is_float word.now }
{
    word == "Single" || word == "Double"
}

fn kind_of_type(word: &str) -> Kind
    ensures { result ≡ kind_of_type word.now }
{
    if is_base(word) {
        Kind::Base
    } else if is_float(word) {
        Kind::Float
    } else {
        Kind::Name
    }
}

fn kind_of_name(word: &str) -> Kind
    ensures { result ≡ kind_of_name word.now }
{
    if word == "uuid" {
        Kind::Uuid
    } else if word == "version" {
        Kind::Version
    } else if word == "flags" {
        Kind::Flags
    } else if word == "default_interface" {
        Kind::DefaultInterface
    } else if word == "get" {
        Kind::Get
    } else if word == "set" {
        Kind::Set
    } else {
        kind_of_type(word)
    }
}

fn kind_within(word: &str) -> Kind
    ensures { result ≡ kind_within word.now }
{
    if word == "requires" {
        Kind::Requires
    } else if word == "event" {
        Kind::Event
    } else if word == "static" {
        Kind::Static
    } else if word == "out" {
        Kind::Out
    } else if word == "void" {
        Kind::Void
    } else {
        kind_of_name(word)
    }
}

fn kind_of_word(word: &str) -> Kind
    ensures { result ≡ kind_of_word word.now }
{
    if word == "import" {
        Kind::Import
    } else if word == "namespace" {
        Kind::Namespace
    } else if word == "enum" {
        Kind::Enum
    } else if word == "struct" {
        Kind::Struct
    } else if word == "delegate" {
        Kind::Delegate
    } else if word == "interface" {
        Kind::Interface
    } else if word == "runtimeclass" {
        Kind::Runtimeclass
    } else {
        kind_within(word)
    }
}

fn kind_of_byte(byte: u8) -> Kind
    ensures { result ≡ kind_of_byte byte }
{
    match byte {
        b'{' => Kind::OpenBrace,
        b'}' => Kind::CloseBrace,
        b'(' => Kind::OpenParen,
        b')' => Kind::CloseParen,
        b'[' => Kind::OpenBracket,
        b']' => Kind::CloseBracket,
        b'<' => Kind::Less,
        b'>' => Kind::Greater,
        b',' => Kind::Comma,
        b';' => Kind::Semicolon,
        b':' => Kind::Colon,
        b'.' => Kind::Dot,
        b'=' => Kind::Equals,
        b'-' => Kind::Minus,
        _ => Kind::Other,
    }
}

fn kind_of_mark(text: &[u8]) -> Kind
    ensures { result ≡ kind_of_mark text.now }
{
    match text {
        [byte] => kind_of_byte(*byte),
        _ => Kind::Other,
    }
}

fn kind_by(kind: TokenKind, text: &[u8], spelling: &str) -> Kind
    requires { spelling.now ≡ text_by kind text.now }
    ensures { result ≡ kind_by kind text.now }
{
    match kind {
        TokenKind::Word => kind_of_word(spelling),
        TokenKind::Number => Kind::Number,
        TokenKind::Guid => Kind::Guid,
        TokenKind::Text => Kind::Text,
        TokenKind::Mark => kind_of_mark(text),
    }
}

fn text_by(alloc: Global, kind: TokenKind, text: &[u8]) -> Result<Name, Memory>
    requires { IsAscii text.now }
    ensures { IfOk result (λ name. name ≡ text_by kind text.now) }
{
    match kind {
        TokenKind::Word | TokenKind::Number | TokenKind::Guid | TokenKind::Text => {
            Name::from_ascii(alloc, text)
        }
        TokenKind::Mark => Ok(Name::empty(alloc)),
    }
}

fn terminal_of(alloc: Global, token: &Token) -> Result<Terminal, Memory>
    ensures { IfOk result (λ terminal. terminal ≡ terminal_of token.now) }
{
    let text = token.text();
    let kind = token.kind();
    let spelling = text_by(alloc, kind, text)?;
    let word = kind_by(kind, text, spelling.as_str());
    Ok(Terminal::new(token.offset(), word, spelling))
}

/// The tokens as the grammar sees them.
pub fn terminals_of(alloc: Global, tokens: &[Token]) -> Result<Vec<Terminal>, Memory>
    ensures { IfOk result (λ v. v.items ≡ map terminal_of tokens.now) }
{
    let mut terminals = Vec::new(alloc);
    for token in tokens {
        terminals.push(terminal_of(alloc, token)?)?;
    }
    Ok(terminals)
}
