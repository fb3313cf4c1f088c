//! The names of a set.

ghost use Rattle.std.specs.Prelude.{◌≡◌};
ghost use Rattle.set_referred.specs.Referred.{names_in};
ghost use Rattle.winmd_names.specs.Seen.{seen};

use crate::makers::named_maker;
use kind_rows::{Maker, Referred};
use part_rows::Target;
use ranked::Memory;
use sig_blobs::Tokens;
use winmd_names::SetNames;
use wr_base::TypeUse;

/// The names of a set, by which its rows refer.
#[derive(Drop)]
pub struct SetReferred {
    pub(crate) names: SetNames,
}

impl SetReferred {
    /// The rows of these names.
    pub fn new(names: SetNames) -> SetReferred
        ensures { names_in result ≡ seen names }
    {
        SetReferred { names }
    }

    /// The names themselves.
    pub fn names(&self) -> &SetNames
        ensures { seen result.now ≡ names_in self.now }
    {
        &self.names
    }
}

impl Referred for SetReferred {
    ghost names = { names_in };

    fn tokens(&self) -> &Tokens {
        self.names.tokens()
    }

    fn named(&self, full: &str) -> Target {
        let (table, row) = self.names.named_row(full);
        Target { table, row }
    }

    fn led_to(&self, ty: &TypeUse) -> Result<Target, Memory> {
        let (table, row) = self.names.type_row(ty)?;
        Ok(Target { table, row })
    }

    fn maker_row(&self, maker: Maker) -> u32 {
        self.names.maker_row(named_maker(maker))
    }
}
