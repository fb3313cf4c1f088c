ghost use Rattle.std.specs.Prelude.{◌≡◌, ◌+◌, ◌<◌, ◌^◌, length};
ghost use Rattle.midl_lex.specs.Pieces.{Fits};

use std::marker::Model;

/// The kinds of tokens.
#[derive(Clone, Copy, Debug, PartialEq, Eq)]
pub enum TokenKind {
    Word,
    Number,
    Guid,
    Text,
    Mark,
}

/// What text is made of: tokens, and white space and comments between them.
#[derive(Clone, Copy, Debug, PartialEq, Eq)]
pub enum LexemeKind {
    White,
    LineComment,
    BlockComment,
    Token(TokenKind),
}

/// A token: the offset of its first byte in its file, its kind, and its spelling, which is a slice of the file.
#[derive(Debug, Drop)]
pub struct Token<'a> {
    offset: u32,
    kind: TokenKind,
    text: &'a [u8],
}

impl<'a> Model for Token<'a> {
    ghost use Rattle.midl_lex.specs.Pieces.{Piece, IsToken};

    ghost Value = { Piece };

    ghost view = { λ t. record { offset = t.offset; kind = t.kind; text = t.text.now } };

    ghost invariant = { λ t. IsToken (record { offset = t.offset; kind = t.kind; text = t.text.now }) };
}

impl<'a> Token<'a> {
    pub(crate) fn new(offset: u32, kind: TokenKind, text: &'a [u8]) -> Token<'a>
        requires fits { Fits (record { offset = offset; kind = kind; text = text.now }) }
        requires ends { offset + length text.now < 2 ^ 32 }
        ensures { result ≡ record { offset = offset; kind = kind; text = text.entry.now } }
    {
        Token { offset, kind, text }
    }

    /// The offset of its first byte.
    pub fn offset(&self) -> u32
        ensures { result ≡ self.now.offset }
    {
        self.offset
    }

    /// The offset just past its last byte.
    pub fn end(&self) -> u32
        ensures { result ≡ self.now.offset + length self.now.text }
    {
        self.offset + self.text.len() as u32
    }

    pub fn kind(&self) -> TokenKind
        ensures { result ≡ self.now.kind }
    {
        self.kind
    }

    /// Its spelling, which is one of its kind.
    pub fn text(&self) -> &'a [u8]
        ensures value { result.now ≡ self.now.text }
        ensures fits { Fits self.now }
    {
        self.text
    }
}
