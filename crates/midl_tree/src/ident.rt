ghost use Rattle.std.specs.Prelude.{◌≡◌, ◌≤◌, length, IfOk, IsTrue};
ghost use Rattle.wr_base.specs.Paths.{is_identifier};
ghost use Rattle.midl_tree.specs.Terminals.{IsWord};

use crate::terminal::Terminal;
use ranked::Memory;
use std::marker::Model;

/// A Name where it stands: an identifier of at most 255 bytes.
#[derive(Debug, Drop)]
pub struct Ident {
    word: Terminal,
}

impl Model for Ident {
    ghost use Rattle.midl_tree.specs.Symbols.{Symbol};
    ghost use Rattle.midl_tree.specs.Terminals.{IsWord};

    ghost Value = { Symbol };

    ghost view = { λ i. i.word };

    ghost invariant = { λ i. IsWord i.word };
}

impl Ident {
    pub fn of(word: &Terminal) -> Result<Ident, Memory>
        requires { IsWord word.now }
        ensures { IfOk result (λ ident. ident ≡ word.now) }
    {
        let word = word.clone()?;
        Ok(Ident { word })
    }

    /// The offset of its first byte in its file.
    pub fn offset(&self) -> u32
        ensures { result ≡ self.now.offset }
    {
        self.word.offset()
    }

    /// The identifier.
    pub fn as_str(&self) -> &str
        ensures value { result.now ≡ self.now.text }
        ensures identifier { IsTrue (is_identifier self.now.text) }
        ensures short { length self.now.text ≤ 255 }
    {
        self.word.as_str()
    }
}
