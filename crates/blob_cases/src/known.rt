//! The types that the cases name. TypeDef has the rows 1 to 4; of TypeRef the rows 1 to 5, 32 and 4096 have names, and the others, up
//! to 4096, names that can't be read.

use md_schema::ImageKind;
use ranked::Name;
use sig_blobs::{TokenNames, Tokens};
use std::alloc::{AllocError, Global};

/// Both directions between names and numbers.
#[derive(Drop)]
pub struct Known {
    pub names: TokenNames,
    pub tokens: Tokens,
}

static DEFS: &str = "<Module> My.Shape My.Point Bare";

static REFS: &str =
    "System.Guid Windows.Foundation.Collections.IVector`1 Windows.Foundation.Collections.IMap`2 My.Ten`10 My.Quoted`1";

fn add_def(alloc: Global, known: &mut Known, name: &str, row: u32) -> Result<(), AllocError> {
    known
        .names
        .push_def(Ok(Name::new(String::from_str(alloc, name)?)))?;
    known
        .tokens
        .add(String::from_str(alloc, name)?, row.wrapping_mul(4))
}

fn add_ref(alloc: Global, known: &mut Known, name: &str, row: u32) -> Result<(), AllocError> {
    known
        .names
        .push_ref(Ok(Name::new(String::from_str(alloc, name)?)))?;
    known.tokens.add(
        String::from_str(alloc, name)?,
        row.wrapping_mul(4).wrapping_add(1),
    )
}

// Rows without readable names, from the next one up to this.
fn fill(known: &mut Known, from: u32, to: u32) -> Result<(), AllocError> {
    for _ in from..to {
        known.names.push_ref(Err(ImageKind::HeapText))?;
    }
    Ok(())
}

fn add_all(alloc: Global, known: &mut Known) -> Result<(), AllocError> {
    let mut row = 1;
    for name in DEFS.split_whitespace() {
        add_def(alloc, known, name, row)?;
        row = row.wrapping_add(1);
    }
    row = 1;
    for name in REFS.split_whitespace() {
        add_ref(alloc, known, name, row)?;
        row = row.wrapping_add(1);
    }
    fill(known, 6, 32)?;
    add_ref(alloc, known, "My.Far", 32)?;
    fill(known, 33, 4096)?;
    add_ref(alloc, known, "My.Farther", 4096)
}

/// All of them.
pub fn known_types(alloc: Global) -> Result<Known, AllocError> {
    let mut known = Known {
        names: TokenNames::new(alloc),
        tokens: Tokens::new(alloc, 0),
    };
    add_all(alloc, &mut known)?;
    Ok(known)
}
