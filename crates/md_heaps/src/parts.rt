//! Parts of a heap's bytes.
ghost use Rattle.std.specs.Prelude.{◌≡◌, ◌+◌, ◌<◌, ◌≤◌, length, take, drop, MatchOption};

/// The bytes from a place on.
pub(crate) fn tail(bytes: &[u8], start: usize) -> &[u8]
    requires { start ≤ length bytes.now }
    ensures { result.now ≡ drop start bytes.now }
{
    &bytes[start..]
}

/// So many bytes from a place on, if they are there.
pub(crate) fn part(bytes: &[u8], start: usize, count: usize) -> Option<&[u8]>
    requires { start ≤ length bytes.now }
    ensures { MatchOption result (length bytes.now < start + count) (λ part. (start + count ≤ length bytes.now) × (part.now ≡ take count (drop start bytes.now))) }
{
    let rest = tail(bytes, start);
    if rest.len() < count {
        return None;
    }
    Some(&rest[..count])
}
