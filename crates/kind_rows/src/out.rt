//! What lines are written into.

use ranked::Memory;
use row_writer::Writer;
use std::alloc::Global;

/// A writer of lines, and the buffer in which blobs and names are put together.
#[derive(Drop)]
pub struct Out {
    pub writer: Writer,
    pub blob: Vec<u8>,
    pub alloc: Global,
}

impl Out {
    ghost use Rattle.std.specs.Prelude.{◌≡◌, IfOk};
    ghost use Rattle.row_writer.specs.Lines.{no_rows};
    ghost use Rattle.kind_rows.specs.Said.{said};

    /// Without rows.
    pub fn new(alloc: Global) -> Result<Out, Memory>
        ensures { IfOk result (λ out. said out ≡ no_rows) }
    {
        Ok(Out {
            writer: Writer::new(alloc)?,
            blob: Vec::new(alloc),
            alloc,
        })
    }
}
