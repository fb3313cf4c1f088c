//! Texts in lower case, by which names are told apart that differ in more than ASCII case.

ghost use Rattle.std.specs.Prelude.{◌≡◌, IfOk, string_bytes};
ghost use Rattle.wr_base.specs.Lower.{lower};

use std::alloc::{AllocError, Global};

/// The text with each ASCII letter in lower case.
pub fn lowered(alloc: Global, text: &str) -> Result<String, AllocError>
    ensures { IfOk result (λ lowered. string_bytes lowered ≡ lower text.now) }
{
    let mut lowered = String::from_str(alloc, text)?;
    lowered.make_ascii_lowercase();
    Ok(lowered)
}
