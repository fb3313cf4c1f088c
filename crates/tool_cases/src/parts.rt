//! Images of a part of what an image states.

use std::alloc::{AllocError, Global};
use winmd_read::types_of;
use winmd_write::image_of;
use wr_base::{Declaration, Types};

// Whether a name stands among words, behind the first three.
fn is_named(words: &[String], name: &str) -> bool {
    for word in words.iter().skip(3) {
        if word.as_str() == name {
            return true;
        }
    }
    false
}

fn add_if(
    list: &mut Vec<Declaration>,
    declaration: &Declaration,
    is_wanted: bool,
) -> Result<(), AllocError> {
    if is_wanted {
        list.push(declaration.clone()?)?;
    }
    Ok(())
}

fn named_of(
    alloc: Global,
    types: &Types,
    words: &[String],
) -> Result<Vec<Declaration>, AllocError> {
    let mut list = Vec::new(alloc);
    for i in 0..types.len() {
        let declaration = types.at(i);
        add_if(
            &mut list,
            declaration,
            is_named(words, declaration.name().as_str()),
        )?;
    }
    Ok(list)
}

// No case has more than 1,000 declarations.
fn image_of_list(alloc: Global, list: Vec<Declaration>) -> Result<Option<Vec<u8>>, AllocError> {
    if list.len() > 1000 {
        return Ok(None);
    }
    match Types::from_list(alloc, list) {
        Ok(types) => Ok(Some(image_of(alloc, &types)?)),
        Err(_) => Ok(None),
    }
}

/// The image of the declarations that an image states and that are named behind the first three words.
pub fn part_of(
    alloc: Global,
    image: &[u8],
    words: &[String],
) -> Result<Option<Vec<u8>>, AllocError> {
    match types_of(alloc, image) {
        Ok(types) => image_of_list(alloc, named_of(alloc, &types, words)?),
        Err(_) => Ok(None),
    }
}
