//! Names of members that are counted.

ghost use Rattle.std.specs.Prelude.{◌≡◌};

use crate::tally::Counted;
use site_parts::{Standing, Titled};
use std::alloc::{AllocError, Global};
use wr_base::{Member, lowered};

/// Each member by its name.
pub(crate) struct Exact;

impl Counted for Exact {
    ghost use Rattle.std.specs.Str.{bytes_eq};
    ghost use Rattle.wr_rules.specs.Members.{member_name};

    ghost has = { λ _ m text. bytes_eq (member_name m.part) text };

    fn name(&self, alloc: Global, member: &Standing<Member>) -> Result<Option<String>, AllocError> {
        let text = String::from_str(alloc, member.part().title().as_str())?;
        Ok(Some(text))
    }
}

/// Each member by its name in lower case.
#[derive(Clone, Copy, Debug)]
pub struct Lower;

impl Counted for Lower {
    ghost use Rattle.std.specs.Str.{bytes_eq};
    ghost use Rattle.wr_rules.specs.Members.{member_name};
    ghost use Rattle.wr_base.specs.Lower.{lower};

    ghost has = { λ _ m text. bytes_eq (lower (member_name m.part)) text };

    fn name(&self, alloc: Global, member: &Standing<Member>) -> Result<Option<String>, AllocError> {
        let text = lowered(alloc, member.part().title().as_str())?;
        Ok(Some(text))
    }
}

/// Properties and events by their names.
pub(crate) struct Others;

impl Counted for Others {
    ghost use Rattle.std.specs.Prelude.{not, ◌&&◌};
    ghost use Rattle.std.specs.Str.{bytes_eq};
    ghost use Rattle.wr_rules.specs.Members.{member_name};
    ghost use Rattle.wr_rules.specs.MemberRules.{is_method};

    ghost has = { λ _ m text. not (is_method m.part) && bytes_eq (member_name m.part) text };

    fn name(&self, alloc: Global, member: &Standing<Member>) -> Result<Option<String>, AllocError> {
        match member.part() {
            Member::Method { .. } => Ok(None),
            Member::Property { name, .. } => {
                let text = String::from_str(alloc, name.as_str())?;
                Ok(Some(text))
            }
            Member::Event { name, .. } => {
                let text = String::from_str(alloc, name.as_str())?;
                Ok(Some(text))
            }
        }
    }
}
