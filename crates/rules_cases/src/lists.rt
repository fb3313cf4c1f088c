//! What lists lead to: `closed` prints each declaration since the last set with its closed list, and forgets them.

use case_text::uses;
use closed_lists::{PlacedDeclaration, close_all};
use std::alloc::{AllocError, Global};
use wr_base::{DeclPlaces, Declaration, Listed, Place};

fn placed(alloc: Global, list: Vec<Declaration>) -> Result<Vec<PlacedDeclaration>, AllocError> {
    let mut sites = Vec::new(alloc);
    for declaration in list {
        let at = Place { file: 0, offset: 0 };
        let parts = Listed::new(alloc);
        let places = DeclPlaces { at, parts };
        sites.push(PlacedDeclaration {
            declaration,
            places,
        })?;
    }
    Ok(sites)
}

fn push_list(out: &mut String, declaration: &Declaration) -> Result<(), AllocError> {
    out.push_str(declaration.name().as_str())?;
    match declaration {
        Declaration::Interface { requires_, .. } => uses(out, requires_),
        Declaration::Class { has, .. } => uses(out, has),
        _ => Ok(()),
    }
}

fn push_lists(out: &mut String, sites: &[PlacedDeclaration]) -> Result<(), AllocError> {
    for site in sites {
        push_list(out, &site.declaration)?;
        out.push_str("|")?;
    }
    Ok(())
}

fn closed_text(alloc: Global, sites: Vec<PlacedDeclaration>) -> Result<String, AllocError> {
    let whole = close_all(alloc, sites)?;
    let mut out = String::new(alloc);
    push_lists(&mut out, &whole)?;
    Ok(out)
}

/// Each declaration with its closed list.
pub fn closed(alloc: Global, list: Vec<Declaration>) -> Result<String, AllocError> {
    let sites = placed(alloc, list)?;
    closed_text(alloc, sites)
}
