//! A set by way of its image.

ghost use Rattle.std.specs.Prelude.{◌≡◌, IfOk, Ok, map};
ghost use Rattle.winmd_strict.specs.Reading.{TypesOf};
ghost use Rattle.winmd_write.specs.Writable.{Writable};
ghost use Rattle.wr_base.specs.Trees.{decl_tree};

use ranked::{Memory, Stop};
use std::alloc::{AllocError, Global};
use winmd_read::types_of;
use winmd_write::image_of;
use wr_base::Types;

// The types of an image that states these.
fn read_again(alloc: Global, types: &Types, image: &[u8]) -> Result<Types, Memory>
    requires { TypesOf image.now ≡ Ok (map decl_tree types.now) }
    ensures { IfOk result (λ read. read ≡ types.now) }
{
    match types_of(alloc, image) {
        Ok(read) => Ok(read),
        Err(Stop::Memory) => Err(AllocError),
        Err(Stop::Refused(_)) => unreachable!(),
    }
}

/// The set again, read from the image that is written of it. Err is want of memory.
pub fn reread(alloc: Global, types: &Types) -> Result<Types, Memory>
    requires { Writable types.now }
    ensures { IfOk result (λ read. read ≡ types.now) }
{
    let image = image_of(alloc, types)?;
    read_again(alloc, types, &image)
}
