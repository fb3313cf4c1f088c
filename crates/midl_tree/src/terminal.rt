ghost use Rattle.std.specs.Prelude.{◌≡◌};
ghost use Rattle.midl_tree.specs.Terminals.{IsLexed};

use crate::kind::Kind;
use ranked::Name;
use std::alloc::AllocError;
use std::marker::Model;

/// A token as the grammar sees it: where it stands, what it is, and how it is spelled. A mark is told by its kind alone, and has no text.
#[derive(Debug, Drop)]
pub struct Terminal {
    offset: u32,
    kind: Kind,
    text: Name,
}

impl Model for Terminal {
    ghost use Rattle.midl_tree.specs.Symbols.{Symbol};
    ghost use Rattle.midl_tree.specs.Terminals.{IsLexed};

    ghost Value = { Symbol };

    ghost view = { λ t. record { offset = t.offset; kind = t.kind; text = t.text } };

    ghost invariant = { λ t. IsLexed (record { offset = t.offset; kind = t.kind; text = t.text }) };
}

impl Terminal {
    pub fn new(offset: u32, kind: Kind, text: Name) -> Terminal
        requires { IsLexed (record { offset = offset; kind = kind; text = text }) }
        ensures { result ≡ record { offset = offset; kind = kind; text = text } }
    {
        Terminal { offset, kind, text }
    }

    /// The offset of its first byte in its file.
    pub fn offset(&self) -> u32
        ensures { result ≡ self.now.offset }
    {
        self.offset
    }

    /// What it is. A Name is an identifier of at most 255 bytes, and a Number is below 2^64.
    pub fn kind(&self) -> Kind
        ensures value { result ≡ self.now.kind }
        ensures lexed { IsLexed self.now }
    {
        self.kind
    }

    /// How it is spelled, where it isn't a mark; a text with its quotation marks.
    pub fn as_str(&self) -> &str
        ensures { result.now ≡ self.now.text }
    {
        self.text.as_str()
    }
}

impl Clone for Terminal {
    ghost is_clone = { λ a b. b ≡ a };

    fn clone(&self) -> Result<Terminal, AllocError> {
        Ok(Terminal {
            offset: self.offset,
            kind: self.kind,
            text: self.text.clone()?,
        })
    }
}
