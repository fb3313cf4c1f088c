ghost use Rattle.std.specs.Prelude.{◌≡◌, IfOk};
ghost use Rattle.midl_lex.specs.Numbers.{value_of};
ghost use Rattle.midl_tree.specs.Terminals.{IsCount};

use crate::terminal::Terminal;
use midl_lex::number_value;
use ranked::Memory;
use std::marker::Model;

/// A Number where it stands, which is below 2^64.
#[derive(Debug, Drop)]
pub struct Numeral {
    digits: Terminal,
}

impl Model for Numeral {
    ghost use Rattle.midl_tree.specs.Symbols.{Symbol};
    ghost use Rattle.midl_tree.specs.Terminals.{IsCount};

    ghost Value = { Symbol };

    ghost view = { λ n. n.digits };

    ghost invariant = { λ n. IsCount n.digits };
}

impl Numeral {
    pub fn of(digits: &Terminal) -> Result<Numeral, Memory>
        requires { IsCount digits.now }
        ensures { IfOk result (λ numeral. numeral ≡ digits.now) }
    {
        let digits = digits.clone()?;
        Ok(Numeral { digits })
    }

    /// The offset of its first byte in its file.
    pub fn offset(&self) -> u32
        ensures { result ≡ self.now.offset }
    {
        self.digits.offset()
    }

    /// What it stands for.
    pub fn value(&self) -> u64
        ensures { result ≡ value_of self.now.text }
    {
        number_value(self.digits.as_str().as_bytes())
    }
}
