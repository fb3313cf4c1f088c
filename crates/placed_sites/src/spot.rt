//! Where a declaration or a part of it stands, and refusals there.

ghost use Rattle.std.specs.Prelude.{◌≡◌, IfOk, string_bytes};
ghost use Rattle.wr_rules.specs.Sites.{broken_at};
ghost use Rattle.placed_sites.specs.Views.{spot_view, give};

use std::alloc::{AllocError, Global};
use wr_base::{Code, FullName, Name, Place, Refusal};

/// A place with what stands there: a declaration, or a part of one.
#[derive(Clone, Copy, Debug)]
pub struct Spot<'a> {
    pub place: Place,
    pub declaration: &'a FullName,
    pub part: Option<&'a Name>,
}

impl<'a> Spot<'a> {
    // The name as a refusal gives it: a part's stands behind its declaration's.
    fn word(&self, alloc: Global) -> Result<Name, AllocError>
        ensures { IfOk result (λ word. word ≡ (spot_view self.now).word) }
    {
        let mut word = String::from_str(alloc, self.declaration.as_str())?;
        match self.part {
            None => Ok(Name::new(word)),
            Some(part) => {
                word.push_str(".")?;
                word.push_str(part.as_str())?;
                Ok(Name::new(word))
            }
        }
    }
}

/// Refused there, where the test says so.
pub fn refuse_if(
    alloc: Global,
    spot: &Spot,
    broken: bool,
    code: Code,
) -> Result<Option<Refusal>, AllocError>
    ensures { IfOk result (λ r. r ≡ give broken (broken_at code (spot_view spot.now))) }
{
    if !broken {
        return Ok(None);
    }
    let word = spot.word(alloc)?;
    Ok(Some(Refusal {
        place: spot.place,
        code,
        word,
    }))
}
