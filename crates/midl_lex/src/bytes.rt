//! Bytes that go on with a name, a number, a text or a comment.

ghost use Rattle.std.specs.Prelude.{◌≡◌, ◌≤◌, ◌+◌, length};
ghost use Rattle.midl_lex.specs.Bytes.{passes, run};

/// What a run of bytes is made of.
#[derive(Clone, Copy, Debug, PartialEq, Eq)]
pub enum Run {
    Word,
    Decimal,
    Hexadecimal,
    Plain,
    Line,
}

pub(crate) fn passes(run: Run, byte: u8) -> bool
    ensures { result ≡ passes run byte }
{
    match run {
        Run::Word => {
            byte.is_ascii_lowercase()
                || byte.is_ascii_uppercase()
                || byte == b'_'
                || byte.is_ascii_digit()
        }
        Run::Decimal => b'0' <= byte && byte <= b'9',
        Run::Hexadecimal => {
            (b'0' <= byte && byte <= b'9')
                || ((b'a' <= byte && byte <= b'f') || (b'A' <= byte && byte <= b'F'))
        }
        Run::Plain => (32 <= byte && byte <= 126) && byte != b'"',
        Run::Line => byte != b'\n',
    }
}

/// How many bytes from the front on pass.
pub(crate) fn run_of(kind: Run, bytes: &[u8]) -> usize
    ensures exact { result ≡ run (passes kind) bytes.now }
    ensures within { result ≤ length bytes.now }
{
    let mut count = 0;
    'more: for byte in bytes {
        if !passes(kind, *byte) {
            return count;
        }
        count += 1;
    }
    count
}
