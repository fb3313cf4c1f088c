//! The line that a fault of an image puts on err.

ghost use Rattle.std.specs.Prelude.{◌≡◌, ◌++◌, IfOk, codes, string_bytes};
ghost use Rattle.std.specs.Fmt.{decimal};
ghost use Rattle.image_set.specs.Lines.{fault_line};

use crate::kinds::kind_name;
use md_schema::ImageFault;
use std::alloc::{AllocError, Global};

fn line_of(alloc: Global, name: &str, kind: &str, offset: u64) -> Result<String, AllocError>
    ensures { IfOk result (λ line. string_bytes line ≡ name.now ++ (codes ": " ++ (kind.now ++ (codes " at " ++ (decimal offset ++ codes "\n"))))) }
{
    format!(in alloc; "{name}: {kind} at {offset}\n")
}

/// `NAME: KIND at OFFSET` and a line feed.
pub fn fault_line(alloc: Global, name: &str, fault: ImageFault) -> Result<String, AllocError>
    ensures { IfOk result (λ line. string_bytes line ≡ fault_line name.now fault) }
{
    line_of(alloc, name, kind_name(fault.kind), fault.offset)
}
