ghost use Rattle.std.specs.Prelude.{◌≡◌, [], IfOk, string_bytes};
ghost use Rattle.std.specs.Str.{bytes_eq, IsUtf8, IsAscii};
ghost use Rattle.std.specs.Cmp.Rules.{comparing};
ghost use Rattle.std.proofs.Common.{rules};

use std::alloc::{AllocError, Global};
use std::marker::Model;

/// A text, which contracts see as its UTF-8 bytes. As a word, an empty one is none.
#[derive(Debug, Drop)]
pub struct Name {
    text: String,
}

impl Model for Name {
    ghost use Rattle.std.specs.Prelude.{List, ℕ, string_bytes};

    ghost Value = { List ℕ };

    ghost view = { λ n. string_bytes n.text };
}

impl Name {
    /// The name with this text.
    pub fn new(text: String) -> Name
        ensures { result ≡ string_bytes text }
    {
        Name { text }
    }

    /// The empty name.
    pub fn empty(alloc: Global) -> Name
        ensures { result ≡ [] }
    {
        Name {
            text: String::new(alloc),
        }
    }

    /// The name with these bytes, which are UTF-8.
    pub fn from_utf8(alloc: Global, bytes: &[u8]) -> Result<Name, AllocError>
        requires { IsUtf8 bytes.now }
        ensures { IfOk result (λ n. n ≡ bytes.now) }
    {
        match std::str::from_utf8(bytes) {
            Ok(text) => Ok(Name {
                text: String::from_str(alloc, text)?,
            }),
            Err(_) => unreachable!(),
        }
    }

    /// The name with these bytes, which are ASCII.
    pub fn from_ascii(alloc: Global, bytes: &[u8]) -> Result<Name, AllocError>
        requires { IsAscii bytes.now }
        ensures { IfOk result (λ n. n ≡ bytes.now) }
    {
        Name::from_utf8(alloc, bytes)
    }

    /// The text.
    pub fn as_str(&self) -> &str
        ensures { result.now ≡ self.now }
    {
        self.text.as_str()
    }
}

impl Clone for Name {
    ghost is_clone = { λ a b. b ≡ a };

    fn clone(&self) -> Result<Name, AllocError> {
        Ok(Name {
            text: self.text.clone()?,
        })
    }
}

impl PartialEq for Name {
    ghost eq = { bytes_eq };

    ghost laws = { Prim.search (comparing, rules) };

    fn eq(&self, other: &Name) -> bool {
        self.text.as_str() == other.text.as_str()
    }
}
