//! Bytes as they were before what was written behind them.

ghost use Rattle.std.specs.Prelude.{◌≡◌, take, OnOk, OnErr};

use ranked::Memory;

/// The answer of a call that wrote behind so many bytes. After want of memory, what it wrote goes.
pub(crate) fn cut_back(
    into: &mut Vec<u8>,
    length: usize,
    answer: Result<(), Memory>,
) -> Result<(), Memory>
    ensures answer { result ≡ answer }
    ensures ok { OnOk result (into.new.items ≡ into.old.items) }
    ensures err { OnErr result (into.new.items ≡ take length into.old.items) }
{
    if answer.is_err() {
        into.truncate(length);
    }
    answer
}
