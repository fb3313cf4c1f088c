//! Comments.

ghost use Rattle.std.specs.Prelude.{◌≡◌, ◌+◌, ◌≤◌, length, IfSome};
ghost use Rattle.midl_lex.specs.Comments.{ends_comment, find_end, scan_slash};

use crate::LexemeKind;
use crate::bytes::{Run, run_of};

fn ends_comment(bytes: &[u8]) -> bool
    ensures { result ≡ ends_comment bytes.now }
{
    match bytes {
        [b, c, ..] => *b == b'*' && *c == b'/',
        _ => false,
    }
}

fn end_of(bytes: &[u8]) -> Option<usize>
    ensures exact { result ≡ find_end bytes.now }
    ensures within { IfSome result (λ n. n ≤ length bytes.now + 1) }
{
    let mut rest = bytes;
    let mut count = 0;
    'more: while let [_, after @ ..] = rest {
        if ends_comment(rest) {
            return Some(count + 2);
        }
        rest = after;
        count += 1;
    }
    None
}

/// The comment that a slash begins, and its length.
pub(crate) fn scan_slash(after: &[u8]) -> Option<(LexemeKind, usize)>
    ensures { result ≡ scan_slash after.now }
{
    match after {
        [] => None,
        [b'/', rest @ ..] => Some((LexemeKind::LineComment, run_of(Run::Line, rest) + 2)),
        [b'*', rest @ ..] => match end_of(rest) {
            None => None,
            Some(n) => Some((LexemeKind::BlockComment, n + 2)),
        },
        [_, ..] => None,
    }
}
